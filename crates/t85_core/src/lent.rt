//! The memory that a decoder borrows for a call.

use qm_core::Learned;
use raster_core::Window;

/// The window with the rows, and the contexts.
#[derive(Drop)]
pub struct Lent<'a, 'w> {
    pub window: &'a mut Window<'w>,
    pub learned: &'a mut Learned,
}
