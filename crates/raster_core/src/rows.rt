//! A row and the two rows above it.

ghost use Rattle.std.specs.Prelude.{◌≡◌, length};
ghost use Rattle.std.specs.Int.{div_ceil};

/// A row and the two rows above it, one bit per pixel, the first pixel in the most significant bit.
#[derive(Clone, Copy)]
pub(crate) struct Rows<'a> {
    pub(crate) current: &'a [u8],
    pub(crate) above: &'a [u8],
    pub(crate) second: &'a [u8],
    /// The width in pixels.
    pub(crate) width: u32,
    ghost long: { length current.now ≡ div_ceil width 8 },
    ghost above_long: { length above.now ≡ div_ceil width 8 },
    ghost second_long: { length second.now ≡ div_ceil width 8 },
}
