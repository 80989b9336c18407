//! Recognizes bytes that have one colour together with all pixels of their contexts.

ghost use Rattle.std.specs.Prelude.{◌≡◌, ℕ, ◌+◌, ◌-◌, ◌*◌, ◌/◌, ◌%◌, ◌^◌, ◌≤◌, ◌<◌, IsTrue, length, nat_eq, slice_index, true};
ghost use Rattle.raster_core.specs.Lines.{Lines, Mode};
ghost use Rattle.raster_core.specs.Machine.Registers.{before, bit, is_moved, past_bits};
ghost use Rattle.raster_core.specs.Machine.Uniform.{filled, uniform_context, AreAllOf, AreFilled, StaysUniform};

use qm_core::Context;

/// The context whose ten pixels all have a colour.
#[inline(always)]
pub(crate) fn uniform_context(colour: bool) -> Context
    ensures { result.number ≡ uniform_context colour }
{
    Context::of(if colour { 1023 } else { 0 })
}

/// Whether all pixels of a byte's contexts near it, except the byte itself, have a colour.
#[inline(always)]
fn surrounds(colour: bool, second_bytes: u32, above_bytes: u32, past: u128) -> bool
    ensures second { IsTrue result → second_bytes / 2 ^ 7 % 1024 ≡ bit colour * 1023 }
    ensures above { IsTrue result → above_bytes / 2 ^ 6 % 8192 ≡ bit colour * 8191 }
    ensures past { IsTrue result → past % 16 ≡ bit colour * 15 }
    ensures all { second_bytes / 2 ^ 7 % 1024 ≡ bit colour * 1023 →
        above_bytes / 2 ^ 6 % 8192 ≡ bit colour * 8191 → past % 16 ≡ bit colour * 15 →
        result ≡ true }
{
    let read = (above_bytes >> 6) % 8192 + (second_bytes >> 7) % 1024 + (past % 16) as u32;
    read == if colour { 8191 + 1023 + 15 } else { 0 }
}

/// Whether the moved adaptive pixels for the next eight pixels, as far as they precede these, have a colour.
#[inline(always)]
fn surrounds_far(colour: bool, offset: u8, past: u128) -> bool
    requires { offset ≤ 127 }
    ensures far { IsTrue result → past / 2 ^ (offset - 8) % 256 ≡ bit colour * 255 }
    ensures all { past / 2 ^ (offset - 8) % 256 ≡ bit colour * 255 → result ≡ true }
{
    (past >> offset.saturating_sub(8)) % 256 == if colour { 255 } else { 0 }
}

/// Whether the contexts of a byte's eight pixels are all that of a colour, provided that the byte has that colour. The
/// registers are those of decoding.
#[inline(always)]
fn is_uniform<const MOVED: bool>(
    colour: bool,
    offset: u8,
    second_bytes: u32,
    above_bytes: u32,
    past: u128,
) -> bool
    requires offset { offset ≤ 127 }
    requires moved { MOVED ≡ is_moved offset }
    ensures uniform { IsTrue result → (mode : Mode) (lines : Lines) (x : ℕ) →
        second_bytes ≡ before lines.second (x + 16) 24 →
        above_bytes ≡ before lines.above (x + 16) 24 →
        past ≡ before lines.row x (past_bits offset) → StaysUniform mode lines offset colour x 8 }
    ensures all { AreAllOf second_bytes above_bytes past offset colour → result ≡ true }
{
    if MOVED {
        surrounds(colour, second_bytes, above_bytes, past) && surrounds_far(colour, offset, past)
    } else {
        surrounds(colour, second_bytes, above_bytes, past)
    }
}

/// Whether eight pixels, provided that they are those of `byte`, have one colour, and each has the context of that
/// colour.
#[inline(always)]
pub(crate) fn is_run<const MOVED: bool>(
    offset: u8,
    second_bytes: u32,
    above_bytes: u32,
    byte: u8,
    past: u128,
) -> bool
    requires offset { offset ≤ 127 }
    requires moved { MOVED ≡ is_moved offset }
    ensures byte { IsTrue result → byte ≡ bit (nat_eq byte 255) * 255 }
    ensures uniform { IsTrue result → (mode : Mode) (lines : Lines) (x : ℕ) →
        second_bytes ≡ before lines.second (x + 16) 24 →
        above_bytes ≡ before lines.above (x + 16) 24 →
        past ≡ before lines.row x (past_bits offset) →
        StaysUniform mode lines offset (nat_eq byte 255) x 8 }
    ensures all { byte ≡ bit (nat_eq byte 255) * 255 →
        AreAllOf second_bytes above_bytes past offset (nat_eq byte 255) → result ≡ true }
{
    (byte == 0 || byte == 255)
        && is_uniform::<MOVED>(byte == 255, offset, second_bytes, above_bytes, past)
}

/// The pixels before the next one, after eight pixels of one colour.
#[inline(always)]
pub(crate) fn past_eight<const MOVED: bool>(past: u128, byte: u8) -> u128
    ensures { (offset : ℕ) → MOVED ≡ is_moved offset →
        result ≡ past % 2 ^ (past_bits offset - 8) * 256 + byte }
{
    if MOVED {
        past % 0x100_0000_0000_0000_0000_0000_0000_0000 * 256 + u128::from(byte)
    } else {
        u128::from((past % 0x100_0000_0000_0000) as u64 * 256 + u64::from(byte))
    }
}

/// A byte of one colour.
#[inline(always)]
pub(crate) fn byte_of(colour: bool) -> u8
    ensures { result ≡ bit colour * 255 }
{
    if colour { 255 } else { 0 }
}

/// A register of a row above, with all pixels of one colour.
#[inline(always)]
fn register_of(colour: bool) -> u32
    ensures { result ≡ filled colour 24 }
{
    if colour { 0xFF_FFFF } else { 0 }
}

/// The register of the pixels before the next one, with all pixels of one colour.
#[inline(always)]
fn past_of<const MOVED: bool>(colour: bool) -> u128
    ensures { (offset : ℕ) → MOVED ≡ is_moved offset → result ≡ filled colour (past_bits offset) }
{
    if colour {
        if MOVED {
            u128::MAX
        } else {
            u128::from(u64::MAX)
        }
    } else {
        0
    }
}

/// Whether the registers of a byte contain only pixels of a colour.
#[inline(always)]
pub(crate) fn is_filled<const MOVED: bool>(
    colour: bool,
    second_bytes: u32,
    above_bytes: u32,
    past: u128,
) -> bool
    ensures second { IsTrue result → second_bytes ≡ filled colour 24 }
    ensures above { IsTrue result → above_bytes ≡ filled colour 24 }
    ensures past { IsTrue result → (offset : ℕ) → MOVED ≡ is_moved offset →
        past ≡ filled colour (past_bits offset) }
    ensures all { (offset : ℕ) → MOVED ≡ is_moved offset → second_bytes ≡ filled colour 24 →
        above_bytes ≡ filled colour 24 → past ≡ filled colour (past_bits offset) → result ≡ true }
{
    let all = register_of(colour);
    second_bytes == all && above_bytes == all && past == past_of::<MOVED>(colour)
}

/// Whether the next eight bytes of a row exist and have one colour.
#[inline(always)]
pub(crate) fn is_all(colour: bool, row: &[u8], i: usize) -> bool
    requires { i < 2 ^ 33 }
    ensures filled { IsTrue result → AreFilled colour row.now i 8 }
    ensures all { i + 8 ≤ length row.now → AreFilled colour row.now i 8 → result ≡ true }
{
    if i + 8 <= row.len() {
        let first = u32::from(row[i])
            + u32::from(row[i + 1])
            + u32::from(row[i + 2])
            + u32::from(row[i + 3]);
        let last = u32::from(row[i + 4])
            + u32::from(row[i + 5])
            + u32::from(row[i + 6])
            + u32::from(row[i + 7]);
        first + last == if colour { 2040 } else { 0 }
    } else {
        false
    }
}

/// Whether more than eight bytes of a row remain, and the pixels of the two rows above in the contexts of the next
/// eight bytes, beginning with the next byte of those rows, have a colour.
#[inline(always)]
pub(crate) fn is_all_above(colour: bool, above: &[u8], second: &[u8], i: usize, left: u32) -> bool
    requires { i < 2 ^ 32 }
    ensures inside { IsTrue result → 64 < left }
    ensures above { IsTrue result → AreFilled colour above.now (i + 1) 8 }
    ensures second { IsTrue result → AreFilled colour second.now (i + 1) 8 }
    ensures all { 64 < left → i + 9 ≤ length above.now → i + 9 ≤ length second.now →
        AreFilled colour above.now (i + 1) 8 → AreFilled colour second.now (i + 1) 8 →
        result ≡ true }
{
    left > 64 && is_all(colour, above, i + 1) && is_all(colour, second, i + 1)
}

/// Sets the bytes of a row, from one position to another, to a colour.
#[inline(always)]
pub(crate) fn paint(row: &mut [u8], colour: bool, from: usize, to: usize)
    requires from { from ≤ to }
    requires to { to ≤ length row.old }
    ensures inside { (k : ℕ) → from ≤ k → k < to → slice_index row.new k ≡ bit colour * 255 }
    ensures before { (k : ℕ) → k < from → slice_index row.new k ≡ slice_index row.old k }
{
    let byte = byte_of(colour);
    for k in from..to {
        row[k] = byte;
    }
}
