//! Ends a code.

ghost use Rattle.std.specs.Prelude.{◌≡◌, ◌+◌, ◌-◌, ◌*◌, ◌^◌, ◌≤◌, ◌<◌, List, ℕ, [], false, Err, Ok, IsErr, OnOk, OnErr};
ghost use Rattle.qm_core.specs.Counts.{one_more};
ghost use Rattle.qm_core.specs.Place.{Place, same, start};

use crate::batch::{Batch, Tail};
use crate::encoder::{CoderFault, Encoder, FAILED, byte_out, write_both};
use crate::sink::CodeSink;

impl Encoder {
    ghost use Rattle.qm_core.specs.Counts.{one_more};
    ghost use Rattle.qm_core.specs.Encoder.{has_failed, event_count, EncoderIsAt, EndsOnce, FailsOnce, Goes, Finish};
    ghost use Rattle.qm_core.specs.Sink.{sink_at};

    /// Pushes final bytes until fewer than 24 bits remain.
    fn shorten<W: CodeSink>(&mut self, out: &mut W) -> Result<(), CoderFault>
        requires going { has_failed self.old ≡ false }
        ensures short { self.new.bits ≤ 23 }
        ensures fails { FailsOnce W.failed self.old self.new out.old out.new result }
        ensures goes { (p : Place) (pushed : List ℕ) → EncoderIsAt self.old p pushed →
            Goes (sink_at W.CodeSink out.old pushed) p out.new self.new result }
    {
        if self.bits < 24 {
            return Ok(());
        }
        self.shift_out(self.low, self.span, self.bits, out)
    }

    /// Ends the code with the chosen number of the interval (the one divisible by the greatest power of two). Writes no
    /// end marker.
    pub fn finish<W: CodeSink>(mut self, out: &mut W) -> Result<(), CoderFault>
        ensures fails { EndsOnce W.failed self out.old out.new result }
        ensures code { (p : Place) (pushed : List ℕ) → has_failed self ≡ false → EncoderIsAt self p
            pushed → Finish (sink_at W.CodeSink out.old pushed) p out.new result }
    {
        if self.floor == FAILED {
            return Err(CoderFault::Failed);
        }
        self.end(out)
    }

    /// Ends the code as `finish` does, and begins another: the encoder is then as `Encoder::start` returns it.
    ///
    /// After an error it has failed.
    pub fn restart<W: CodeSink>(&mut self, out: &mut W) -> Result<(), CoderFault>
        ensures fails { FailsOnce W.failed self.old self.new out.old out.new result }
        ensures code { (p : Place) (pushed : List ℕ) → has_failed self.old ≡ false → EncoderIsAt
            self.old p pushed → Finish (sink_at W.CodeSink out.old pushed) p out.new result }
        ensures codes { OnOk result (EncoderIsAt self.new start []) }
        ensures events { OnOk result (event_count self.new ≡ 0) }
    {
        if self.floor == FAILED {
            return Err(CoderFault::Failed);
        }
        let ended = self.end(out);
        if ended.is_err() {
            self.floor = FAILED;
            return ended;
        }
        *self = Encoder::start();
        ended
    }

    /// Ends the code. The caller replaces the encoder.
    #[inline(always)]
    fn end<W: CodeSink>(&mut self, out: &mut W) -> Result<(), CoderFault>
        requires going { has_failed self.old ≡ false }
        ensures fault { IsErr result → result ≡ Err CoderFault.Write }
        ensures same { OnOk result (W.failed out.new ≡ W.failed out.old) }
        ensures counted { OnErr result (W.failed out.new ≡ one_more (W.failed out.old)) }
        ensures code { (p : Place) (pushed : List ℕ) → EncoderIsAt self.old p pushed →
            Finish (sink_at W.CodeSink out.old pushed) p out.new result }
    {
        self.shorten(out)?;
        self.finish_short(out)
    }

    /// Ends the code when fewer than 24 bits remain.
    fn finish_short<W: CodeSink>(&self, out: &mut W) -> Result<(), CoderFault>
        requires short { self.now.bits ≤ 23 }
        ensures fault { IsErr result → result ≡ Err CoderFault.Write }
        ensures same { OnOk result (W.failed out.new ≡ W.failed out.old) }
        ensures counted { OnErr result (W.failed out.new ≡ one_more (W.failed out.old)) }
        ensures code { (p : Place) (pushed : List ℕ) → EncoderIsAt self.now p pushed →
            Finish (sink_at W.CodeSink out.old pushed) p out.new result }
    {
        let mut tail = Tail {
            zeros: self.tail.zeros,
            held: self.tail.held,
            ones: self.tail.ones,
        };
        // The chosen number is 0, and a code ends without its last zeros.
        if self.low == 0 {
            return write_both(tail.settle(), Batch::EMPTY, out);
        }
        let value = chosen(self.low, self.span) << (24 - self.bits);
        let first = byte_out(&mut tail, value, 128, 24);
        let second = byte_out(&mut tail, first.low << 8, 128, 24);
        let third = byte_out(&mut tail, second.low << 8, 128, 24);
        let rest = tail.settle();
        write_both(first.batch, second.batch, out)?;
        write_both(third.batch, rest, out)
    }
}

/// The number from `low` up to, but not including, `low + span` that is divisible by the greatest power of two.
fn chosen(low: u64, span: u32) -> u64
    requires large { 0x40_0000 ≤ span }
    requires room { low + span ≤ 2 ^ 40 }
    ensures from { low ≤ result }
    ensures below { result < low + span }
    ensures most_even { (t w : ℕ) → low ≤ w * 2 ^ t → w * 2 ^ t < low + span → (u : ℕ) ×
        (result ≡ u * 2 ^ t) }
{
    let top = low + (span as u64 - 1);
    // The interval contains a multiple of 2^22, since it has at least so many numbers.
    let mut value = (top >> 22) << 22;
    for cleared in 23..41u32 {
        let next = (top >> cleared) << cleared;
        if next < low {
            return value;
        }
        value = next;
    }
    value
}
