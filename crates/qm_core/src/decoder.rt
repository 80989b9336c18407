//! The decoder (T.82, 6.8).

ghost use Rattle.std.specs.Prelude.{◌≡◌, ◌≢◌, ◌+◌, ◌-◌, ◌*◌, ◌%◌, ◌^◌, ◌≤◌, ◌<◌, ◌↔◌, false, not, nat_eq, nat_lt, IsTrue, OnOk, OnErr};
ghost use Rattle.qm_core.specs.Place.{same};
ghost use Rattle.qm_core.specs.declared.source.Heard.TheVariants.{Stopped};

mod numbers;
mod run;

use crate::context::Context;
use crate::entries::{entry_of, next_cell};
use crate::learned::Learned;
use crate::picking::pick;
use crate::skipping::left_of;
use crate::source::{CodeBytes, Heard, Pulled};

/// The source failed, in this call or an earlier one.
#[derive(Clone, Copy, PartialEq, Eq, Debug)]
pub struct Stop;

/// A decoder between two pixels.
#[derive(Drop)]
pub struct Decoder {
    /// The distance of the code's value from the low end of the coding interval, times 128.
    code: u32,
    /// The size of the coding interval, times 128.
    span: u32,
    /// The number of bits read beyond the doublings.
    bits: u32,
    heard: Heard,
    ghost large: { 0x40_0000 ≤ span },
    ghost small: { span ≤ 0x80_0000 },
    ghost whole: { span % 128 ≡ 0 },
    ghost few: { bits ≤ 23 },
    ghost aligned: { code % 2 ^ (23 - bits) ≡ 0 },
    ghost room: { code + 2 ^ (23 - bits) ≤ span },
    ghost stuck: { heard ≡ Stopped → bits < 16 },
}

/// The subinterval that contains the code, and whether it is that of the less probable symbol.
#[derive(Drop)]
struct Part {
    code: u32,
    span: u32,
    is_other: bool,
}

/// The subinterval that contains the code, given the sizes of the lower and the upper one.
#[inline(always)]
fn part_of(code: u32, lower: u32, upper: u32) -> Part
    ensures lower { code < lower → (result.code ≡ code) × (result.span ≡ lower) ×
        (result.is_other ≡ nat_lt lower upper) }
    ensures upper { lower ≤ code → (result.code ≡ code - lower) × (result.span ≡ upper) ×
        (result.is_other ≡ not (nat_lt lower upper)) }
{
    let is_upper = lower <= code;
    Part {
        code: code - pick(is_upper, lower, 0),
        span: pick(is_upper, upper, lower),
        is_other: is_upper != (lower < upper),
    }
}

/// The more probable symbol of a cell, or the other one; 1 for black.
#[inline(always)]
fn pixel_of(cell: u8, is_other: bool) -> u8
    ensures { nat_eq result 1 ≡ same (not is_other) (nat_eq (cell % 2) 1) }
{
    (cell % 2) ^ u8::from(is_other)
}

impl Decoder {
    ghost use Rattle.std.specs.Prelude.{ℕ, List, [], ◌∷◌, ◌++◌, length, replicate, Some};
    ghost use Rattle.qm_core.specs.Code.{wanted_bytes};
    ghost use Rattle.qm_core.specs.Place.{Place, start, renormalised, state_of, step, after};
    ghost use Rattle.qm_core.specs.Machine.{IsTooSmall, Registers};
    ghost use Rattle.qm_core.specs.Source.{bytes_of, heard_of, before_fault};
    ghost use Rattle.qm_core.specs.Decoder.{has_stopped, DecoderIsAt, Fills, Next, SkipsOrStays, StopsOnce, decoder_state, source_of};
    ghost use Rattle.qm_core.specs.Puts.{event_of};
    ghost use Rattle.qm_core.specs.Skipping.{IsRun, CanSkip};
    ghost use Rattle.qm_core.specs.declared.source.Heard.TheVariants.{More};
    ghost use Rattle.qm_core.specs.declared.source.Pulled.{Pulled};

    /// A decoder at the beginning of a code, of which nothing has been read.
    pub fn start() -> Decoder
        ensures stands { DecoderIsAt result start [] }
        ensures going { has_stopped result ≡ false }
    {
        Decoder {
            code: 0,
            span: 0x80_0000,
            bits: 0,
            heard: Heard::More,
        }
    }

    /// Allows the decoder to continue after `Stop`: it will request again the byte that the source did not provide.
    pub fn resume(&mut self)
        ensures going { has_stopped self.new ≡ false }
        ensures unchanged { has_stopped self.old ≡ false → self.new ≡ self.old }
        ensures stands { (p : Place) (answers : List Pulled) → DecoderIsAt self.old p answers →
            DecoderIsAt self.new p (before_fault answers) }
    {
        match self.heard {
            Heard::Stopped => self.heard = Heard::More,
            Heard::More => {}
            Heard::Ended => {}
        }
    }

    /// Decodes the next pixel, in the context `cx`, and adapts that context.
    ///
    /// First reads the bytes that determine the pixel, and no more. After `End`, zeros are substituted for them.
    #[inline(always)]
    pub fn next<S: CodeBytes>(
        &mut self,
        learned: &mut Learned,
        cx: Context,
        source: &mut S,
    ) -> Result<bool, Stop>
        // A decoder that has stopped remains unchanged, and reads nothing.
        ensures stop { StopsOnce S.CodeBytes self.old self.new source.old source.new result }
        ensures unchanged { OnErr result (learned.new ≡ learned.old) }
        ensures next { (p : Place) (answers : List Pulled) → DecoderIsAt self.old p answers →
            Next (source_of S.CodeBytes source.old answers) (state_of p learned.old) cx.number
            (decoder_state source.new self.new learned.new) result }
    {
        if self.bits < 16 {
            self.fill(source)?;
        }
        Ok(self.decide(learned, cx) == 1)
    }

    /// Decodes `count` times the more probable symbol of a context and returns true, if the bits already read determine
    /// all of these pixels and none involves a doubling; otherwise does nothing and returns false.
    #[inline(always)]
    pub fn skip(&mut self, learned: &Learned, cx: Context, pixel: bool, count: u32) -> bool
        requires few { count ≤ 64 }
        ensures skips { SkipsOrStays result self.old self.new }
        ensures skipped { (p : Place) (answers : List Pulled) → DecoderIsAt self.old p answers →
            IsTrue result → IsRun (state_of p learned.now) (event_of cx pixel) count × DecoderIsAt
            self.new (after (state_of p learned.now) (replicate count (event_of cx pixel))).place
            answers × (heard_of answers ≡ More → wanted_bytes p.doublings ≤ length (bytes_of
            answers)) }
        ensures exact { (p : Place) (answers : List Pulled) → DecoderIsAt self.old p answers →
            (IsTrue result ↔ CanSkip self.old (state_of p learned.now) answers
            (event_of cx pixel) count) }
    {
        let is_ready = self.bits >= 16;
        if !is_ready {
            return false;
        }
        match left_of(learned, cx, pixel, count, self.span) {
            None => false,
            Some(left) => {
                if left <= self.code {
                    return false;
                }
                self.span = left;
                true
            }
        }
    }

    /// Reads until 16 bits are available; at most two bytes.
    fn fill<S: CodeBytes>(&mut self, source: &mut S) -> Result<(), Stop>
        requires few { self.old.bits < 16 }
        ensures bits { OnOk result (16 ≤ self.new.bits) }
        ensures stop { StopsOnce S.CodeBytes self.old self.new source.old source.new result }
        ensures fills { (p : Place) (answers : List Pulled) → DecoderIsAt self.old p answers →
            Fills (source_of S.CodeBytes source.old answers) p source.new self.new result }
    {
        self.pull(source)?;
        if self.bits < 16 {
            self.pull(source)?;
        }
        Ok(())
    }

    /// Reads the next byte, or substitutes 0 after the end.
    fn pull<S: CodeBytes>(&mut self, source: &mut S) -> Result<(), Stop>
        requires few { self.old.bits < 16 }
        ensures bits { OnOk result (self.new.bits ≡ self.old.bits + 8) }
        ensures stop { StopsOnce S.CodeBytes self.old self.new source.old source.new result }
        ensures fills { (p : Place) (answers : List Pulled) → DecoderIsAt self.old p answers →
            Fills (source_of S.CodeBytes source.old answers) p source.new self.new result }
    {
        match self.heard {
            Heard::More => match source.pull() {
                Pulled::Byte(byte) => {
                    self.append(byte);
                    Ok(())
                }
                Pulled::End => {
                    self.heard = Heard::Ended;
                    self.append(0);
                    Ok(())
                }
                Pulled::Fault => {
                    self.heard = Heard::Stopped;
                    Err(Stop)
                }
            },
            Heard::Ended => {
                self.append(0);
                Ok(())
            }
            Heard::Stopped => Err(Stop),
        }
    }

    /// Appends a byte to the bits available.
    fn append(&mut self, byte: u8)
        requires few { self.old.bits < 16 }
        requires going { self.old.heard ≢ Stopped }
        ensures heard { self.new.heard ≡ self.old.heard }
        ensures bits { self.new.bits ≡ self.old.bits + 8 }
        ensures place { (p : Place) (b : List ℕ) → Registers self.old.code self.old.span
            self.old.bits p b →
            Registers self.new.code self.new.span self.new.bits p (b ++ byte ∷ []) }
    {
        self.code += (byte as u32) << (15 - self.bits);
        self.bits += 8;
    }

    /// Decodes a pixel, 1 for black. At least 16 bits are available. The result is a number because, unlike a `bool`,
    /// it needs no masking where branches meet.
    #[inline(always)]
    fn decide(&mut self, learned: &mut Learned, cx: Context) -> u8
        requires { 16 ≤ self.old.bits }
        ensures heard { self.new.heard ≡ self.old.heard }
        ensures bits { self.new.bits ≤ self.old.bits }
        ensures place { (p : Place) (b : List ℕ) → Registers self.old.code self.old.span
            self.old.bits p b → Registers self.new.code self.new.span self.new.bits
            (step (state_of p learned.old) cx.number (nat_eq result 1)).place b }
        ensures learned { (p : Place) → self.old.span ≡ 128 * p.size →
            learned.new ≡ (step (state_of p learned.old) cx.number (nat_eq result 1)).learned }
    {
        let cell = learned.cell(cx);
        let entry = entry_of(cell);
        let lower = self.span - entry.span;
        if self.code.max(0x3F_FFFF) < lower {
            self.span = lower;
            return cell % 2;
        }
        let part = part_of(self.code, lower, entry.span);
        self.narrow(part.code, part.span);
        learned.set(cx, next_cell(!part.is_other, entry));
        pixel_of(cell, part.is_other)
    }

    /// Selects a subinterval that is too small, and doubles it until it is large enough (renormalization).
    #[inline(always)]
    fn narrow(&mut self, code: u32, span: u32)
        requires bits { 16 ≤ self.old.bits }
        requires short { IsTooSmall span }
        requires aligned { code % 2 ^ (23 - self.old.bits) ≡ 0 }
        requires room { code + 2 ^ (23 - self.old.bits) ≤ span }
        ensures heard { self.new.heard ≡ self.old.heard }
        ensures bits { self.new.bits ≤ self.old.bits }
        ensures place { (p : Place) (b : List ℕ) → Registers code span self.old.bits p b →
            Registers self.new.code self.new.span self.new.bits (renormalised p) b }
    {
        let shift = span.leading_zeros() - 9;
        self.code = code << shift;
        self.span = span << shift;
        self.bits -= shift;
    }
}
