//! The encoder (T.82, 6.8).

ghost use Rattle.std.specs.Prelude.{◌≡◌, ◌≢◌, ◌+◌, ◌-◌, ◌*◌, ◌%◌, ◌^◌, ◌≤◌, ◌<◌, List, ℕ, ◌++◌, None, IsTrue, false, true, Err, Ok, [], IsErr, nat_lt, not, if◌then◌else◌};
ghost use Rattle.qm_core.specs.Place.{Place, start};
ghost use Rattle.qm_core.specs.Code.{stuffed};
ghost use Rattle.qm_core.specs.Machine.{run_bytes, Digits, FitsIn};
ghost use Rattle.qm_core.specs.Sink.{Writes, sink_at};

mod ending;
mod numbers;
mod shifting;

use crate::batch::{Batch, Tail};
use crate::context::Context;
use crate::entries::{cost_of, entry_of, is_favoured, next_cell};
use crate::learned::Learned;
use crate::picking::pick;
use crate::sink::{CodeSink, SinkFault};
use crate::skipping::left_of;

/// Why an encoder could not do what it was asked.
#[derive(Clone, Copy, PartialEq, Eq, Debug)]
pub enum CoderFault {
    /// The sink failed in this call.
    Write = 1,
    /// The sink failed in an earlier call, and this call did nothing.
    Failed = 2,
}

/// The greatest number of pixels for one encoder, 2^56.
pub const MAX_EVENTS: u64 = 0x100_0000_0000_0000;

/// The least size of an interval, times 128.
const LARGE: u32 = 0x40_0000;

/// A size that no interval has, times 128.
const FAILED: u32 = 0x8000_0000;

/// An encoder between two pixels.
#[derive(Drop)]
pub struct Encoder {
    /// The low end of the coding interval, minus the bytes before it, times 128.
    low: u64,
    /// The size of the coding interval, times 128.
    span: u32,
    /// The number of bits of `low`, not counting the lowest seven.
    bits: u32,
    /// The bytes before `low` that have not been written.
    tail: Tail,
    events: u64,
    /// If the more probable symbol leaves at least this size, which is then the larger subinterval, only the size
    /// changes. It is `FAILED` after a failure, and otherwise `LARGE`.
    floor: u32,
    ghost large: { 0x40_0000 ≤ span },
    ghost small: { span ≤ 0x80_0000 },
    ghost whole: { span % 128 ≡ 0 },
    ghost least: { 16 ≤ bits },
    ghost most: { bits ≤ 39 },
    ghost room: { low + span ≤ 2 ^ (bits + 8) },
    ghost fixed: { tail.held ≡ None → low + span ≤ 2 ^ (bits + 7) },
    ghost count: { 8 * (tail.zeros + tail.ones) + bits ≤ 16 * events + 16 },
    ghost few: { events ≤ 2 ^ 56 },
    ghost going: { floor ≢ 0x8000_0000 → floor ≡ 0x40_0000 },
}

/// The rest of `low` after its highest byte has moved to the tail, and the bytes that are then final.
#[derive(Drop)]
struct Out {
    batch: Batch,
    low: u64,
}

/// Moves the highest byte of `low` to the tail.
#[inline(always)]
fn byte_out(tail: &mut Tail, low: u64, span: u32, bits: u32) -> Out
    requires bits { (24 ≤ bits) × (bits ≤ 54) }
    requires span { (1 ≤ span) × (span ≤ 0x80_0000) }
    requires room { FitsIn low span bits tail.old.held }
    requires count { tail.old.zeros + tail.old.ones + 2 < 2 ^ 64 }
    ensures room { result.low + span ≤ 2 ^ bits }
    ensures left { result.low < 2 ^ (bits - 1) }
    ensures fixed { tail.new.held ≡ None → result.low + span ≤ 2 ^ (bits - 1) }
    ensures count { tail.new.zeros + tail.new.ones ≤ tail.old.zeros + tail.old.ones + 1 }
    ensures digits { (p : Place) (front : List ℕ) → Digits low span bits p (front ++ run_bytes
        tail.old.zeros tail.old.held tail.old.ones) → Digits result.low span (bits - 8) p ((front ++
        run_bytes result.batch.zeros result.batch.byte result.batch.ones) ++ run_bytes
        tail.new.zeros tail.new.held tail.new.ones) }
{
    let byte = low >> (bits - 1);
    let batch = tail.put(byte as u16);
    Out {
        batch,
        low: low - (byte << (bits - 1)),
    }
}

/// Two batches of final bytes, and the rest of `low`.
#[derive(Drop)]
struct Shifted {
    first: Batch,
    second: Batch,
    low: u64,
    bits: u32,
}

/// Moves the bytes above the last 16 bits to the tail; at most two.
#[inline(always)]
fn bytes_out(tail: &mut Tail, low: u64, span: u32, bits: u32) -> Shifted
    requires bits { (24 ≤ bits) × (bits ≤ 54) }
    requires span { (1 ≤ span) × (span ≤ 0x80_0000) }
    requires room { FitsIn low span bits tail.old.held }
    requires count { tail.old.zeros + tail.old.ones + 4 < 2 ^ 64 }
    ensures least { 16 ≤ result.bits }
    ensures most { result.bits ≤ 38 }
    ensures short { bits ≤ 39 → result.bits ≤ 23 }
    ensures room { FitsIn result.low span result.bits tail.new.held }
    ensures count { 8 * (tail.new.zeros + tail.new.ones) + result.bits ≤
        8 * (tail.old.zeros + tail.old.ones) + bits }
    ensures digits { (p : Place) (front : List ℕ) → Digits low span bits p (front ++ run_bytes
        tail.old.zeros tail.old.held tail.old.ones) → Digits result.low span result.bits p (((front
        ++ run_bytes result.first.zeros result.first.byte result.first.ones) ++ run_bytes
        result.second.zeros result.second.byte result.second.ones) ++ run_bytes tail.new.zeros
        tail.new.held tail.new.ones) }
{
    let first = byte_out(tail, low, span, bits);
    if bits < 32 {
        return Shifted {
            first: first.batch,
            second: Batch::EMPTY,
            low: first.low,
            bits: bits - 8,
        };
    }
    let second = byte_out(tail, first.low, span, bits - 8);
    Shifted {
        first: first.batch,
        second: second.batch,
        low: second.low,
        bits: bits - 16,
    }
}

/// Writes two batches.
#[inline(always)]
fn write_both<W: CodeSink>(first: Batch, second: Batch, out: &mut W) -> Result<(), CoderFault>
    ensures writes { Writes W.CodeSink out.old (stuffed (run_bytes first.zeros
        first.byte first.ones ++ run_bytes second.zeros second.byte second.ones)) out.new result }
    ensures fault { IsErr result → result ≡ Err CoderFault.Write }
{
    match first.write(out) {
        Ok(()) => match second.write(out) {
            Ok(()) => Ok(()),
            Err(SinkFault) => Err(CoderFault::Write),
        },
        Err(SinkFault) => Err(CoderFault::Write),
    }
}

/// Whether a pixel of this cost changes only the size.
#[inline(always)]
fn is_quiet(cost: u32, span: u32, floor: u32) -> bool
    requires cost { cost ≤ 0x80_0000 }
    requires floor { floor ≤ 0x8000_0000 }
    ensures enough { result ≡ true → floor + cost ≤ span }
    ensures short { result ≡ false → span < floor + cost }
{
    floor + cost <= span
}

/// Whether a pixel takes the lower subinterval.
#[inline(always)]
fn is_lower(is_favoured: bool, lower: u32, upper: u32) -> bool
    ensures { result ≡ (if nat_lt lower upper then not is_favoured else is_favoured) }
{
    is_favoured != (lower < upper)
}

impl Encoder {
    ghost use Rattle.std.specs.Prelude.{replicate, Some};
    ghost use Rattle.qm_core.specs.Place.{after, state_of};
    ghost use Rattle.qm_core.specs.Puts.{event_of};
    ghost use Rattle.qm_core.specs.Encoder.{event_count, has_failed, EncoderIsAt, FailsOnce, Put, SkipsEvents, encoder_state};
    ghost use Rattle.qm_core.specs.Skipping.{IsRun, has_room};

    /// An encoder at the beginning of a code, of which nothing has been pushed.
    pub fn start() -> Encoder
        ensures codes { EncoderIsAt result start [] }
        ensures events { event_count result ≡ 0 }
        ensures going { has_failed result ≡ false }
    {
        Encoder {
            low: 0,
            span: 0x80_0000,
            bits: 16,
            tail: Tail {
                zeros: 0,
                held: None,
                ones: 0,
            },
            events: 0,
            floor: LARGE,
        }
    }

    /// Encodes a pixel in the context `cx`, adapts that context, and pushes bytes of the code that no later pixel can
    /// change.
    ///
    /// After `Write` the encoder has failed, and the context states are unspecified.
    #[inline(always)]
    pub fn put<W: CodeSink>(
        &mut self,
        learned: &mut Learned,
        cx: Context,
        pixel: bool,
        out: &mut W,
    ) -> Result<(), CoderFault>
        requires events { event_count self.old < MAX_EVENTS }
        // An encoder that has failed remains unchanged, and pushes nothing.
        ensures fails { FailsOnce W.failed self.old self.new out.old out.new result }
        ensures unlearned { IsTrue (has_failed self.old) → learned.new ≡ learned.old }
        ensures events { has_failed self.old ≡ false → event_count self.new ≡ event_count self.old +
            1 }
        ensures put { (p : Place) (pushed : List ℕ) → has_failed self.old ≡ false →
            EncoderIsAt self.old p pushed → Put (sink_at W.CodeSink out.old pushed)
            (state_of p learned.old) cx.number pixel (encoder_state out.new self.new learned.new)
            result }
    {
        let cell = learned.cell(cx);
        let cost = cost_of(cell, pixel);
        if is_quiet(cost, self.span, self.floor) {
            self.span -= cost;
            self.events += 1;
            return Ok(());
        }
        if self.floor == FAILED {
            return Err(CoderFault::Failed);
        }
        self.events += 1;
        let entry = entry_of(cell);
        let is_favoured = is_favoured(cell, pixel);
        let lower = self.span - entry.span;
        learned.set(cx, next_cell(is_favoured, entry));
        let is_lower = is_lower(is_favoured, lower, entry.span);
        let low = self.low + pick(is_lower, 0, lower) as u64;
        let span = pick(is_lower, lower, entry.span);
        self.go(low, span, out)
    }

    /// Encodes `count` times the more probable symbol of a context and returns true, if the interval has room for all
    /// of these pixels without a doubling; otherwise does nothing and returns false.
    #[inline(always)]
    pub fn skip(&mut self, learned: &Learned, cx: Context, pixel: bool, count: u32) -> bool
        requires few { count ≤ 64 }
        requires events { event_count self.old + count ≤ MAX_EVENTS }
        ensures skips { SkipsEvents count result self.old self.new }
        ensures skipped { (p : Place) (pushed : List ℕ) → EncoderIsAt self.old p pushed → IsTrue
            result → IsRun (state_of p learned.now) (event_of cx pixel) count × EncoderIsAt self.new
            (after (state_of p learned.now) (replicate count (event_of cx pixel))).place pushed }
        ensures exact { (p : Place) (pushed : List ℕ) → has_failed self.old ≡ false →
            EncoderIsAt self.old p pushed →
            result ≡ has_room (state_of p learned.now) (event_of cx pixel) count }
    {
        if self.floor == FAILED {
            return false;
        }
        match left_of(learned, cx, pixel, count, self.span) {
            None => false,
            Some(left) => {
                self.span = left;
                self.events += count as u64;
                true
            }
        }
    }
}
