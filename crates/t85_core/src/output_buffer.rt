//! Buffers the bytes of an output in an array of fixed size, and writes them together.

ghost use Rattle.std.specs.Prelude.{◌≡◌, ◌≤◌, ◌<◌, ◌-◌, length, take, OnOk, IfErr};
ghost use Rattle.std.specs.Io.KnownBytes.{Appends, Keeps};
ghost use Rattle.t85_core.specs.declared.fault.Fault.TheVariants.{Write};
ghost use Rattle.t85_core.specs.RowSink.{TargetView, PutsBytes};
ghost use Rattle.t85_core.specs.Private.Buffers.{Pushes, HandsOn};

use crate::fault::Fault;
use devices::{Output, WriteFault, write_bytes, write_counted};

/// The number of bytes that are buffered of an image or of its stream.
pub const IMAGE_HELD: usize = 4096;

/// The number of bytes that are buffered by a call that writes only one row's code, or writes a stream into memory. The
/// buffer is created anew by each such call.
pub const ROW_HELD: usize = 64;

/// A destination for the bytes of an image or of a stream.
pub trait ByteTarget {
    /// The bytes that it has accepted, and which of them the writer has accepted.
    ghost view: { Self → TargetView };

    /// Accepts bytes.
    fn put(&mut self, bytes: &[u8]) -> Result<(), Fault>
        ensures { PutsBytes bytes.now (view self.old) (view self.new) result };

    /// Accepts a byte; or fails, and discards it.
    fn push(&mut self, byte: u8) -> Result<(), Fault>
        ensures { Pushes byte (view self.old) (view self.new) result };

    /// Writes the buffered bytes.
    fn write_held(&mut self) -> Result<(), Fault>
        ensures { HandsOn (view self.old) (view self.new) result };

    /// The number of failures of the writer.
    fn failures(&self) -> u64
        ensures { result ≡ (view self.now).failures };
}

/// A buffer in front of an output. It is written when it is full, and by `write_held`.
#[derive(Drop)]
pub struct OutputBuffer<'a, W: Output, const SIZE: usize> {
    output: &'a mut W,
    bytes: [u8; SIZE],
    at: usize,
    end: usize,
    ghost ordered: { at ≤ end },
    ghost within: { end ≤ SIZE },
    ghost some: { 0 < SIZE },
}

impl<'a, W: Output, const SIZE: usize> OutputBuffer<'a, W, SIZE> {
    pub fn new(output: &'a mut W) -> OutputBuffer<'a, W, SIZE>
        requires { 0 < SIZE }
        ensures empty { result.at ≡ result.end }
        ensures lent { result.output ≡ output.entry }
    {
        OutputBuffer {
            output,
            bytes: [0; SIZE],
            at: 0,
            end: 0,
        }
    }
}

impl<W: Output, const SIZE: usize> OutputBuffer<'_, W, SIZE> {
    ghost use Rattle.std.specs.Prelude.{◌⊎◌, ℕ, Ok, Err};
    ghost use Rattle.t85_core.specs.Failures.{CountsBoth, CountsRead};
    ghost use Rattle.t85_core.specs.RowSink.{WritesOn};
    ghost use Rattle.t85_core.specs.States.Views.{target_view, text_taken};
    ghost use Rattle.t85_core.specs.Private.Views.{WritesBehind};
    ghost use Rattle.t85_core.specs.declared.output_buffer.OutputBuffer.{OutputBuffer};

    /// Writes the buffered bytes.
    pub fn write_held(&mut self) -> Result<(), Fault>
        ensures text { Keeps (text_taken self.old) (text_taken self.new) }
        ensures empty { OnOk result ((self.new.at ≡ 0) × (self.new.end ≡ 0)) }
        ensures err { IfErr result (λ f. f ≡ Write) }
        ensures writes { WritesBehind self.old self.new result }
    {
        let held = &self.bytes[..];
        match write_counted(self.output, &held[self.at..self.end]) {
            Ok(()) => {
                self.at = 0;
                self.end = 0;
                Ok(())
            }
            Err(count) => {
                self.at += count;
                Err(Fault::Write)
            }
        }
    }

    /// Writes the buffered bytes, except after a failed write. Returns this outcome, or `Write` if that fails.
    pub fn finish(&mut self, outcome: Result<(), Fault>) -> Result<(), Fault>
        ensures text { Keeps (text_taken self.old) (text_taken self.new) }
        ensures ok { OnOk result ((outcome ≡ Ok tt) × (self.new.at ≡ 0) × (self.new.end ≡ 0)) }
        ensures err { IfErr result (λ f. (f ≡ Write) ⊎ ((outcome ≡ Err f) × (self.new.at ≡ 0) ×
            (self.new.end ≡ 0))) }
        ensures failed { outcome ≡ Err Write → self.new ≡ self.old }
        ensures reads { (old new : ℕ) → CountsRead old new outcome → CountsBoth old new result }
        ensures writes { (before : OutputBuffer W SIZE W.Output) → WritesOn (target_view before)
            (target_view self.old) outcome → WritesBehind before self.new result }
    {
        match outcome {
            Err(Fault::Write) => outcome,
            _ => {
                self.write_held()?;
                outcome
            }
        }
    }
}

impl<W: Output, const SIZE: usize> OutputBuffer<'_, W, SIZE> {
    ghost use Rattle.t85_core.specs.States.Views.{text_taken};

    /// Copies as many of the first bytes as fit into the buffer, and returns how many.
    fn fill(&mut self, bytes: &[u8]) -> usize
        ensures bound { result ≤ length bytes.now }
        ensures takes { 0 < length bytes.now → self.old.end < SIZE → 0 < result }
        ensures text { Appends (text_taken self.old) (text_taken self.new) (take result bytes.now) }
        ensures lent { self.new.output ≡ self.old.output }
    {
        let count = (SIZE - self.end).min(bytes.len());
        let end = self.end + count;
        let held = &mut self.bytes[..];
        held[self.end..end].copy_from_slice(&bytes[..count]);
        self.end = end;
        count
    }
}

impl<W: Output, const SIZE: usize> OutputBuffer<'_, W, SIZE> {
    ghost use Rattle.t85_core.specs.States.Views.{target_view};

    /// Buffers the bytes, and writes the buffer each time it is full.
    fn hold(&mut self, bytes: &[u8]) -> Result<(), Fault>
        ensures { PutsBytes bytes.now (target_view self.old) (target_view self.new) result }
    {
        // Most rows fit: then there is one test.
        let mut taken = self.fill(bytes);
        while taken < bytes.len() {
            self.write_held()?;
            taken += self.fill(&bytes[taken..]);
        }
        Ok(())
    }

    /// Writes the bytes directly. The buffer must be empty.
    #[inline(always)]
    fn write_straight(&mut self, bytes: &[u8]) -> Result<(), Fault>
        requires empty { self.old.at ≡ self.old.end }
        ensures { PutsBytes bytes.now (target_view self.old) (target_view self.new) result }
    {
        match write_bytes(self.output, bytes) {
            Ok(()) => Ok(()),
            Err(WriteFault) => Err(Fault::Write),
        }
    }
}

impl<W: Output, const SIZE: usize> ByteTarget for OutputBuffer<'_, W, SIZE> {
    ghost use Rattle.t85_core.specs.States.Views.{target_view};

    ghost view = { λ s. target_view s };

    #[inline(always)]
    fn put(&mut self, bytes: &[u8]) -> Result<(), Fault> {
        let is_empty = self.at == self.end;
        if is_empty && bytes.len() >= SIZE {
            return self.write_straight(bytes);
        }
        self.hold(bytes)
    }

    fn push(&mut self, byte: u8) -> Result<(), Fault> {
        if self.end == SIZE {
            self.write_held()?;
        }
        self.bytes[self.end] = byte;
        self.end += 1;
        Ok(())
    }

    fn write_held(&mut self) -> Result<(), Fault> {
        self.write_held()
    }

    fn failures(&self) -> u64 {
        self.output.failures()
    }
}
