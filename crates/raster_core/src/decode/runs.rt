//! Decodes bytes of one colour, many in one step.

ghost use Rattle.std.specs.Prelude.{◌≡◌, ℕ, ◌+◌, ◌-◌, ◌*◌, ◌^◌, ◌<◌, ◌≤◌, length, List, slice_index, false, true, nat_eq};
ghost use Rattle.std.specs.Int.{div_ceil};
ghost use Rattle.qm_core.specs.Place.{Place, state_of};
ghost use Rattle.qm_core.specs.Skipping.{CanSkip};
ghost use Rattle.qm_core.specs.Decoder.{DecoderIsAt, SkipsOrStays};
ghost use Rattle.qm_core.specs.declared.source.Pulled.{Pulled};
ghost use Rattle.raster_core.specs.Machine.Places.{SkipsSoMany};
ghost use Rattle.raster_core.specs.Machine.Decoded.{SkipsFilledAlong, SkipsAlong, around_of, filled_run};
ghost use Rattle.raster_core.specs.Machine.Registers.{bit, is_moved, past_bits};
ghost use Rattle.raster_core.specs.Machine.Uniform.{uniform_event, colour_of, filled, AreFilled, AreAllOf};

use crate::decode::registers::{Registers, RowContext};
use crate::uniform::{is_all_above, is_filled, is_run, paint, uniform_context};
use qm_core::{Decoder, Learned};

/// Decodes a byte in one step and returns true, if it is `byte`, all pixels of its contexts have its colour, and no
/// code byte is needed. Otherwise does nothing and returns false.
#[inline(always)]
pub(super) fn skip_byte<const MOVED: bool>(
    registers: Registers,
    byte: u8,
    learned: &Learned,
    decoder: &mut Decoder,
) -> bool
    requires moved { MOVED ≡ is_moved registers.offset }
    ensures skips { SkipsOrStays result decoder.old decoder.new }
    ensures skipped { result ≡ true → SkipsAlong (around_of registers) byte decoder.old learned.now
        decoder.new }
    ensures taken { (p : Place) (answers : List Pulled) → DecoderIsAt decoder.old p answers →
        byte ≡ bit (nat_eq byte 255) * 255 →
        AreAllOf registers.second registers.above registers.past registers.offset
        (nat_eq byte 255) →
        CanSkip decoder.old (state_of p learned.now) answers
        (uniform_event (nat_eq byte 255)) 8 → result ≡ true }
{
    let Registers {
        shape: _shape,
        offset,
        second,
        above,
        past,
    } = registers;
    let colour = byte == 255;
    if is_run::<MOVED>(offset, second, above, byte, past) {
        decoder.skip(learned, uniform_context(colour), colour, 8)
    } else {
        false
    }
}

/// Decodes eight bytes in one step and returns true, if they have one colour, the bytes above have the same colour, and
/// no code byte is needed. Otherwise does nothing and returns false. The pixels before them must have the colour.
#[inline(always)]
fn skip_word(
    colour: bool,
    above: &[u8],
    second: &[u8],
    i: usize,
    left: u32,
    learned: &Learned,
    decoder: &mut Decoder,
) -> bool
    requires place { i < 2 ^ 32 }
    ensures skips { SkipsOrStays result decoder.old decoder.new }
    ensures inside { result ≡ true → 64 < left }
    ensures skipped { result ≡ true → SkipsFilledAlong (filled_run colour i 8) above.now second.now
        decoder.old learned.now decoder.new }
    ensures taken { (p : Place) (answers : List Pulled) → DecoderIsAt decoder.old p answers →
        64 < left → i + 9 ≤ length above.now → i + 9 ≤ length second.now →
        AreFilled colour above.now (i + 1) 8 → AreFilled colour second.now (i + 1) 8 →
        CanSkip decoder.old (state_of p learned.now) answers
        (uniform_event colour) 64 → result ≡ true }
{
    if is_all_above(colour, above, second, i, left) {
        decoder.skip(learned, uniform_context(colour), colour, 64)
    } else {
        false
    }
}

/// Decodes bytes of one colour eight at a time, as long as possible, and returns how many eights.
#[inline(never)]
fn skip_words(
    colour: bool,
    above: &[u8],
    second: &[u8],
    i: usize,
    left: u32,
    learned: &Learned,
    decoder: &mut Decoder,
) -> u32
    requires some { 1 ≤ left }
    requires place { 8 * i + left < 2 ^ 32 }
    ensures skips { SkipsSoMany result decoder.old decoder.new }
    ensures inside { 64 * result < left }
    ensures skipped { SkipsFilledAlong (filled_run colour i (8 * result)) above.now second.now
        decoder.old learned.now decoder.new }
{
    let mut words = 0u32;
    let mut at = i;
    let mut rest = left;
    'words: while skip_word(colour, above, second, at, rest, learned, decoder) {
        words += 1;
        at += 8;
        rest -= 64;
    }
    words
}

/// The same if all preceding pixels in the registers have one colour, and stores the bytes; otherwise decodes nothing.
#[inline(always)]
pub(super) fn skip_filled<const MOVED: bool>(
    registers: Registers,
    context: RowContext<'_>,
    i: usize,
    left: u32,
    current: &mut [u8],
    learned: &Learned,
    decoder: &mut Decoder,
) -> u32
    requires some { 1 ≤ left }
    requires place { 8 * i + left < 2 ^ 32 }
    requires long { length current.old ≡ div_ceil (8 * i + left) 8 }
    ensures skips { SkipsSoMany result decoder.old decoder.new }
    ensures inside { 64 * result < left }
    ensures second { 1 ≤ result → registers.second ≡ filled (colour_of registers.above) 24 }
    ensures above { 1 ≤ result → registers.above ≡ filled (colour_of registers.above) 24 }
    ensures before { 1 ≤ result → (offset : ℕ) → MOVED ≡ is_moved offset →
        registers.past ≡ filled (colour_of registers.above) (past_bits offset) }
    ensures filled { (k : ℕ) → i ≤ k → k < i + 8 * result →
        slice_index current.new k ≡ bit (colour_of registers.above) * 255 }
    ensures kept { (k : ℕ) → k < i → slice_index current.new k ≡ slice_index current.old k }
    ensures skipped { SkipsFilledAlong (filled_run (colour_of registers.above) i (8 * result))
        context.entry.above.now context.entry.second.now decoder.old learned.now decoder.new }
{
    let Registers {
        shape: _shape,
        offset: _offset,
        second,
        above,
        past,
    } = registers;
    // Most bytes that are not part of a run end here.
    if second != above {
        return 0;
    }
    let colour = above == 0xFF_FFFF;
    if is_filled::<MOVED>(colour, second, above, past) {
        let words = skip_words(
            colour,
            context.above,
            context.second,
            i,
            left,
            learned,
            decoder,
        );
        paint(current, colour, i, i + 8 * words as usize);
        words
    } else {
        0
    }
}
