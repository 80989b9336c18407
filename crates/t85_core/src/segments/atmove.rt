//! The move of a stripe.

ghost use Rattle.std.specs.Prelude.{◌≤◌};

/// A move of the adaptive template pixel (ATMOVE): a row of the stripe, and an offset.
#[derive(Clone, Copy)]
pub struct Move {
    pub row: u32,
    pub offset: u8,
    ghost low: { offset ≤ 127 },
}
