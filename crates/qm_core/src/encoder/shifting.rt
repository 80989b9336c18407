//! Shifts the registers, and moves final bytes of the code out of them.

ghost use Rattle.std.specs.Prelude.{◌≡◌, ◌+◌, ◌-◌, ◌*◌, ◌^◌, ◌≤◌, ◌<◌, List, ℕ, false, Ok};
ghost use Rattle.qm_core.specs.Place.{Place, renormalised};
ghost use Rattle.qm_core.specs.Machine.{Digits, FitsIn, IsLargeEnough, IsTooSmall};

use crate::encoder::{CoderFault, Encoder, FAILED, LARGE, bytes_out, write_both};
use crate::sink::CodeSink;

/// The registers after doublings.
#[derive(Drop)]
struct Doubled {
    low: u64,
    span: u32,
    bits: u32,
}

/// Doubles until the size is large enough.
#[inline(always)]
fn raise(low: u64, span: u32, bits: u32) -> Doubled
    requires short { IsTooSmall span }
    requires bits { bits ≤ 39 }
    requires room { low + span ≤ 2 ^ (bits + 8) }
    ensures large { IsLargeEnough result.span }
    ensures more { bits ≤ result.bits }
    ensures most { result.bits ≤ bits + 15 }
    ensures room { result.low + result.span ≤ 2 ^ (result.bits + 8) }
    ensures fixed { low + span ≤ 2 ^ (bits + 7) → result.low + result.span ≤ 2 ^ (result.bits + 7) }
    ensures digits { (p : Place) (front : List ℕ) → Digits low span bits p front →
        Digits result.low result.span result.bits (renormalised p) front }
{
    let shift = span.leading_zeros() - 9;
    Doubled {
        low: low << shift,
        span: span << shift,
        bits: bits + shift,
    }
}

impl Encoder {
    ghost use Rattle.qm_core.specs.Encoder.{has_failed, RegistersAreAt, FailsOnce, Goes, held_by};
    ghost use Rattle.qm_core.specs.Sink.{sink_at};

    /// Selects a subinterval that is too small, and doubles it until it is large enough (renormalization).
    #[inline(always)]
    pub(super) fn go<W: CodeSink>(
        &mut self,
        low: u64,
        span: u32,
        out: &mut W,
    ) -> Result<(), CoderFault>
        requires short { IsTooSmall span }
        requires room { FitsIn low span self.old.bits self.old.tail.held }
        requires count { 8 * (self.old.tail.zeros + self.old.tail.ones) + self.old.bits ≤
            16 * self.old.events }
        requires going { has_failed self.old ≡ false }
        ensures events { self.new.events ≡ self.old.events }
        ensures fails { FailsOnce W.failed self.old self.new out.old out.new result }
        ensures goes { (p : Place) (pushed : List ℕ) →
            RegistersAreAt low span self.old.bits (held_by self.old) p pushed →
            Goes (sink_at W.CodeSink out.old pushed) (renormalised p) out.new self.new result }
    {
        let to = raise(low, span, self.bits);
        if to.bits < 40 {
            self.low = to.low;
            self.span = to.span;
            self.bits = to.bits;
            return Ok(());
        }
        self.shift_out(to.low, to.span, to.bits, out)
    }

    /// Moves the bytes above the last 16 bits to the tail, at most two, and pushes the bytes that are then final.
    #[inline(never)]
    pub(super) fn shift_out<W: CodeSink>(
        &mut self,
        low: u64,
        span: u32,
        bits: u32,
        out: &mut W,
    ) -> Result<(), CoderFault>
        requires large { IsLargeEnough span }
        requires bits { (24 ≤ bits) × (bits ≤ 54) }
        requires room { FitsIn low span bits self.old.tail.held }
        requires count { 8 * (self.old.tail.zeros + self.old.tail.ones) + bits ≤
            16 * self.old.events + 16 }
        requires going { has_failed self.old ≡ false }
        ensures events { self.new.events ≡ self.old.events }
        ensures short { bits ≤ 39 → self.new.bits ≤ 23 }
        ensures fails { FailsOnce W.failed self.old self.new out.old out.new result }
        ensures goes { (p : Place) (pushed : List ℕ) →
            RegistersAreAt low span bits (held_by self.old) p pushed →
            Goes (sink_at W.CodeSink out.old pushed) p out.new self.new result }
    {
        self.span = span;
        let shifted = bytes_out(&mut self.tail, low, span, bits);
        self.low = shifted.low;
        self.bits = shifted.bits;
        let written = write_both(shifted.first, shifted.second, out);
        self.floor = if written.is_err() { FAILED } else { LARGE };
        written
    }
}
