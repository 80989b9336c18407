//! Decodes equal pixels of one context, as far as the bits already read determine them.

ghost use Rattle.std.specs.Prelude.{◌≡◌, ◌*◌, ◌≤◌, ◌<◌, false, not, ℕ, List, IsTrue};
ghost use Rattle.qm_core.specs.Place.{Place, state_of, step};
ghost use Rattle.qm_core.specs.Code.{Lies};
ghost use Rattle.qm_core.specs.Machine.{Registers};
ghost use Rattle.qm_core.specs.Decoder.{DecoderIsAt, has_stopped};
ghost use Rattle.qm_core.specs.Puts.{event_of};
ghost use Rattle.qm_core.specs.Skipping.{IsDetermined, RunDecoded, RunGoes, pixel_run};
ghost use Rattle.qm_core.specs.declared.source.Pulled.{Pulled};

use crate::context::Context;
use crate::decoder::{Decoder, part_of};
use crate::entries::{entry_of, is_favoured, next_cell};
use crate::learned::Learned;

impl Decoder {
    /// Decodes pixels in the context `cx`, and adapts that context, as long as each is `pixel` and the bits already
    /// read determine it, but at most `most`. Returns how many.
    ///
    /// It pulls no byte, and a decoder that has stopped decodes none.
    #[inline(always)]
    pub fn next_run(&mut self, learned: &mut Learned, cx: Context, pixel: bool, most: u32) -> u32
        ensures few { result ≤ most }
        ensures stop { has_stopped self.new ≡ has_stopped self.old }
        ensures stopped { IsTrue (has_stopped self.old) → result ≡ 0 }
        ensures none { result ≡ 0 → (self.new ≡ self.old) × (learned.new ≡ learned.old) }
        ensures run { (p : Place) (answers : List Pulled) → DecoderIsAt self.old p answers →
            RunDecoded (pixel_run self.old (state_of p learned.old) (event_of cx pixel) result)
            answers self.new learned.new }
        ensures exact { (p : Place) (answers : List Pulled) → DecoderIsAt self.new p answers →
            result < most → IsDetermined self.new (state_of p learned.new) answers
            (event_of cx pixel) → ⊥ }
    {
        let mut count = self.next_undoubled(&*learned, cx, pixel, most);
        'pixels: while count < most {
            let is_next = self.decodes_pixel(&mut *learned, cx, pixel);
            if !is_next {
                return count;
            }
            count += 1;
            count += self.next_undoubled(&*learned, cx, pixel, most - count);
        }
        count
    }

    /// Decodes pixels as `next_run` does, as long as the interval needs no doubling. Returns how many.
    #[inline(always)]
    fn next_undoubled(&mut self, learned: &Learned, cx: Context, pixel: bool, most: u32) -> u32
        ensures few { result ≤ most }
        ensures heard { self.new.heard ≡ self.old.heard }
        ensures bits { self.new.bits ≡ self.old.bits }
        ensures ready { 0 < result → 16 ≤ self.old.bits }
        ensures none { result ≡ 0 → self.new ≡ self.old }
        ensures goes { (p : Place) (b : List ℕ) → Registers self.old.code self.old.span
            self.old.bits p b → RunGoes (pixel_run self.old (state_of p learned.now)
            (event_of cx pixel) result) self.new learned.now b }
    {
        let cell = learned.cell(cx);
        if self.bits < 16 || !is_favoured(cell, pixel) {
            return 0;
        }
        // Only two numbers change in the loop.
        let part = entry_of(cell).span;
        let floor = self.code.max(0x3F_FFFF) + part;
        let mut span = self.span;
        let mut count = 0;
        'pixels: while count < most && floor < span {
            span -= part;
            count += 1;
        }
        self.span = span;
        count
    }

    /// Decodes a pixel and returns true, if at least 16 bits are available and it is `pixel`; otherwise does nothing
    /// and returns false.
    #[inline(always)]
    fn decodes_pixel(&mut self, learned: &mut Learned, cx: Context, pixel: bool) -> bool
        ensures heard { self.new.heard ≡ self.old.heard }
        ensures bits { self.new.bits ≤ self.old.bits }
        ensures ready { IsTrue result → 16 ≤ self.old.bits }
        ensures stays { result ≡ false → (self.new ≡ self.old) × (learned.new ≡ learned.old) }
        ensures place { (p : Place) (b : List ℕ) → Registers self.old.code self.old.span
            self.old.bits p b → IsTrue result → Registers self.new.code self.new.span self.new.bits
            (step (state_of p learned.old) cx.number pixel).place b }
        ensures learned { (p : Place) → self.old.span ≡ 128 * p.size → IsTrue result →
            learned.new ≡ (step (state_of p learned.old) cx.number pixel).learned }
        ensures other { (p : Place) (b : List ℕ) → Registers self.old.code self.old.span
            self.old.bits p b → result ≡ false → 16 ≤ self.old.bits →
            Lies b (step (state_of p learned.old) cx.number (not pixel)).place }
    {
        if self.bits < 16 {
            return false;
        }
        let cell = learned.cell(cx);
        let entry = entry_of(cell);
        let favoured = is_favoured(cell, pixel);
        let lower = self.span - entry.span;
        if self.code.max(0x3F_FFFF) < lower {
            if !favoured {
                return false;
            }
            self.span = lower;
            return true;
        }
        let part = part_of(self.code, lower, entry.span);
        if favoured == part.is_other {
            return false;
        }
        self.narrow(part.code, part.span);
        learned.set(cx, next_cell(!part.is_other, entry));
        true
    }
}
