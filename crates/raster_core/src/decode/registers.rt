//! The inputs for the contexts of a row, and of a byte.

ghost use Rattle.std.specs.Prelude.{◌<◌, ◌≤◌, ◌^◌};

use crate::shape::Shape;

/// Which pixels are a context, the bytes round a byte in the rows above, and the last pixels before it.
#[derive(Clone, Copy)]
pub(crate) struct Registers {
    pub(crate) shape: Shape,
    /// The offset of the adaptive pixel.
    pub(crate) offset: u8,
    /// The byte before, the byte and the one after it of the row two above.
    pub(crate) second: u32,
    /// The same of the row above.
    pub(crate) above: u32,
    pub(crate) past: u128,
    ghost in_reach: { offset ≤ 127 },
    ghost second_fits: { second < 2 ^ 24 },
    ghost above_fits: { above < 2 ^ 24 },
}

/// The inputs for the contexts of a row, besides the row itself.
#[derive(Clone, Copy)]
pub(crate) struct RowContext<'a> {
    pub(crate) shape: Shape,
    /// The offset of the adaptive pixel.
    pub(crate) offset: u8,
    pub(crate) above: &'a [u8],
    /// The row two above.
    pub(crate) second: &'a [u8],
}
