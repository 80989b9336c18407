//! Computes contexts from registers that shift along the row.

ghost use Rattle.std.specs.Prelude.{◌≡◌, ℕ, ◌+◌, ◌-◌, ◌*◌, ◌%◌, ◌^◌, ◌≤◌, Bool};
ghost use Rattle.raster_core.specs.Lines.{Lines, context_at, pseudo_context};
ghost use Rattle.raster_core.specs.Machine.Registers.{AreAt, bit, is_moved, past_bits};

use qm_core::Context;

/// Calls a function with the const parameters for the template, and for whether the adaptive pixel has moved.
macro_rules! by_template {
    ($function:ident, $shape:expr, $offset:expr, ($($argument:expr),*)) => {
        match ($shape.two_line, $offset == 0) {
            (false, true) => $function::<_, false, false>($($argument),*),
            (true, true) => $function::<_, true, false>($($argument),*),
            (false, false) => $function::<_, false, true>($($argument),*),
            (true, false) => $function::<_, true, true>($($argument),*),
        }
    };
}

pub(crate) use by_template;

/// The context of a pixel, from registers as in `AreAt`, with the adaptive pixel in its nominal position.
#[inline(always)]
fn nominal_context<const TWO_LINE: bool>(second: u32, above: u32, past: u128) -> Context
    ensures { (typical : Bool) (lines : Lines) (x : ℕ) → AreAt lines 0 second above past x →
        result.number ≡ context_at (record { two_line = TWO_LINE; typical = typical }) lines 0 x }
{
    let number = if TWO_LINE {
        (above >> 7) % 64 * 16 + (past % 16) as u32
    } else {
        (second >> 7) % 8 * 128 + (above >> 7) % 32 * 4 + (past % 4) as u32
    };
    Context::of(number as u16)
}

/// The same with a moved adaptive pixel.
#[inline(always)]
fn moved_context<const TWO_LINE: bool>(offset: u8, second: u32, above: u32, past: u128) -> Context
    requires some { 1 ≤ offset }
    requires offset { offset ≤ 127 }
    ensures { (typical : Bool) (lines : Lines) (x : ℕ) → AreAt lines offset second above past x →
        result.number ≡ context_at (record { two_line = TWO_LINE; typical = typical }) lines offset
        x }
{
    let adaptive = ((past >> (offset - 1)) % 2) as u32;
    let number = if TWO_LINE {
        (above >> 8) % 32 * 32 + adaptive * 16 + (past % 16) as u32
    } else {
        (second >> 7) % 8 * 128 + (above >> 8) % 16 * 8 + adaptive * 4 + (past % 4) as u32
    };
    Context::of(number as u16)
}

/// The context of the SLNTP pseudo-pixel before a row, which signals whether the row is typical (0E5 or 195
/// hexadecimal).
#[inline(always)]
pub(crate) fn flag_context(two_line: bool) -> Context
    ensures { result.number ≡ pseudo_context two_line }
{
    Context::of(if two_line { 0x195 } else { 0x0e5 })
}

/// The context of a pixel, with the adaptive pixel in either position.
#[inline(always)]
pub(crate) fn context_of<const TWO_LINE: bool, const MOVED: bool>(
    offset: u8,
    second: u32,
    above: u32,
    past: u128,
) -> Context
    requires offset { offset ≤ 127 }
    requires moved { MOVED ≡ is_moved offset }
    ensures { (typical : Bool) (lines : Lines) (x : ℕ) → AreAt lines offset second above past x →
        result.number ≡ context_at (record { two_line = TWO_LINE; typical = typical }) lines offset
        x }
{
    if MOVED {
        moved_context::<TWO_LINE>(offset, second, above, past)
    } else {
        nominal_context::<TWO_LINE>(second, above, past)
    }
}

/// The pixels before the next one. While the adaptive pixel is in its nominal position, 64 of them suffice.
#[inline(always)]
pub(crate) fn past_and<const MOVED: bool>(past: u128, pixel: bool) -> u128
    ensures { (offset : ℕ) → MOVED ≡ is_moved offset →
        result ≡ past % 2 ^ (past_bits offset - 1) * 2 + bit pixel }
{
    if MOVED {
        past % 0x8000_0000_0000_0000_0000_0000_0000_0000 * 2 + u128::from(pixel)
    } else {
        u128::from((past % 0x8000_0000_0000_0000) as u64 * 2 + u64::from(pixel))
    }
}
