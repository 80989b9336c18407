//! Sources of bytes: the traits, and a buffer in front of an input as a source.

ghost use Rattle.std.specs.Prelude.{◌≡◌, ◌≤◌, ◌<◌, ℕ, List, length, slice_index, take};
ghost use Rattle.devices.specs.Buffered.{buffered_view};
ghost use Rattle.t85_core.specs.Private.Reading.{KeepsLast, Refills};
ghost use Rattle.t85_core.specs.Private.Buffers.{SourceView, GivesNextByte, GivesPlain, SkipsPlain, ArePlain};
ghost use Rattle.t85_core.specs.Private.Views.{buffer_source};

use crate::fault::Fault;
use crate::segments::ESCAPE;
use devices::{Buffered, DeviceFailed, Input};
use memchr::memchr;

/// The bytes of a stream, in order.
pub trait ByteSource {
    /// The bytes still to come, and the number of failures of the reader.
    ghost view: { Self → SourceView };

    /// Returns the next byte.
    fn next(&mut self) -> Result<u8, Fault>
        ensures { GivesNextByte (view self.old) (view self.new) result };

    /// Returns the next byte if it is buffered and not FF; otherwise does nothing.
    fn next_plain(&mut self) -> Option<u8>
        ensures { GivesPlain view self.old self.new result };

    /// Skips the buffered bytes before the next FF; it may skip fewer.
    fn skip_plain(&mut self)
        ensures { SkipsPlain (view self.old) (view self.new) };
}

/// A source that exposes its buffered bytes, and reads behind them on request.
pub trait HeldSource {
    /// The same as for a `ByteSource`.
    ghost view: { Self → SourceView };

    /// The buffered bytes.
    ghost bytes: { Self → List ℕ };

    fn held(&self) -> &[u8]
        ensures { result.now ≡ bytes self.now };

    /// Consumes the buffered bytes, except the last `left` of them.
    fn keep(&mut self, left: usize)
        ensures { KeepsLast (view self.old) (bytes self.old) (view self.new) (bytes self.new)
            left };

    /// Reads more bytes behind the few that are buffered.
    fn refill(&mut self) -> Result<(), Fault>
        requires { length (bytes self.old) ≤ 7 }
        ensures { Refills (view self.old) (bytes self.old) (view self.new) (bytes self.new)
            result };
}

/// The input is read only if a byte that is needed is not buffered, or the rest of an escape code or a marker segment
/// is not.
impl<R: Input> ByteSource for Buffered<'_, R> {
    ghost view = { λ s. buffer_source s };

    fn next(&mut self) -> Result<u8, Fault> {
        match self.next_held() {
            Some(byte) => Ok(byte),
            None => read_byte(self),
        }
    }

    #[inline(always)]
    fn next_plain(&mut self) -> Option<u8> {
        match Input::held(self) {
            [] => None,
            [first, ..] => {
                let byte = *first;
                if byte == ESCAPE {
                    return None;
                }
                let _ = self.pass(1);
                Some(byte)
            }
        }
    }

    fn skip_plain(&mut self) {
        let len = plain_len(Input::held(self));
        let _ = self.pass(len);
    }
}

impl<R: Input> HeldSource for Buffered<'_, R> {
    ghost view = { λ s. buffer_source s };

    ghost bytes = { λ s. (buffered_view s).held };

    #[inline(always)]
    fn held(&self) -> &[u8] {
        Input::held(self)
    }

    #[inline(always)]
    fn keep(&mut self, left: usize) {
        let held = Input::held(self).len();
        let _ = self.pass(held - left.min(held));
    }

    #[inline(never)]
    fn refill(&mut self) -> Result<(), Fault> {
        match self.fill() {
            Ok(0) => {
                self.keep(0);
                Err(Fault::Truncated)
            }
            Ok(_) => Ok(()),
            Err(DeviceFailed) => {
                self.keep(0);
                Err(Fault::Read)
            }
        }
    }
}

/// Returns the next byte, whether or not it is buffered.
#[inline(never)]
fn read_byte<R: Input>(source: &mut Buffered<'_, R>) -> Result<u8, Fault>
    ensures { GivesNextByte (buffer_source source.old) (buffer_source source.new) result }
{
    let mut byte = [0];
    match source.read(&mut byte) {
        Ok(0) => Err(Fault::Truncated),
        Ok(_) => Ok(byte[0]),
        Err(DeviceFailed) => Err(Fault::Read),
    }
}

/// The number of bytes before the first FF.
pub fn plain_len(bytes: &[u8]) -> usize
    ensures bound { result ≤ length bytes.now }
    ensures plain { ArePlain (take result bytes.now) }
    ensures all { result < length bytes.now → slice_index bytes.now result ≡ 255 }
{
    memchr(ESCAPE, bytes).unwrap_or(bytes.len())
}
