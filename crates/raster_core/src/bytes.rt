//! Access to the bytes of a row.

ghost use Rattle.std.specs.Prelude.{◌≡◌, ◌<◌, slice_index};

/// A byte of a row, or 0 after its last byte.
#[inline(always)]
pub(crate) fn byte_at(row: &[u8], i: usize) -> u32
    ensures byte { result ≡ slice_index row.now i }
    ensures small { result < 256 }
{
    if i < row.len() { u32::from(row[i]) } else { 0 }
}
