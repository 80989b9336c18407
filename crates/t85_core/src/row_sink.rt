//! Consumers of the rows of an image.

ghost use Rattle.std.specs.Prelude.{◌≡◌, ℕ, Option, None, IfSome, length};
ghost use Rattle.t85_core.specs.RowSink.{TargetView, PutsBytes, copies};

use crate::fault::Fault;
use crate::output_buffer::{ByteTarget, OutputBuffer};
use devices::Output;

/// A consumer of the rows of an image.
pub trait RowSink {
    /// The bytes of the rows that it has accepted, one row after the other.
    ghost view: { Self → TargetView };

    /// The length of a row in bytes, if it accepts rows of one length only.
    ghost row_bytes: { Self → Option ℕ };

    /// Accepts the same row `count` times. Fails with `Fault::Write` if it cannot; then it has accepted a prefix of these
    /// bytes.
    fn put_rows(&mut self, bytes: &[u8], count: u32) -> Result<(), Fault>
        requires { IfSome (row_bytes self.old) (λ n. length bytes.now ≡ n) }
        ensures put { PutsBytes (copies count bytes.now) (view self.old) (view self.new) result }
        ensures same_row { row_bytes self.new ≡ row_bytes self.old };
}

impl<W: Output, const SIZE: usize> RowSink for OutputBuffer<'_, W, SIZE> {
    ghost use Rattle.t85_core.specs.States.Views.{target_view};

    ghost view = { λ s. target_view s };

    ghost row_bytes = { λ s. None };

    fn put_rows(&mut self, bytes: &[u8], count: u32) -> Result<(), Fault> {
        let mut copy = 0;
        while copy < count {
            self.put(bytes)?;
            copy += 1;
        }
        Ok(())
    }
}
