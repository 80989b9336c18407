//! A line of decimal numbers.

ghost use Rattle.std.specs.Prelude.{◌≡◌, ◌*◌, ◌<◌, ◌≤◌, ◌+◌, ◌∷◌, ◌++◌, [], List, ℕ, length, take, true, OnOk, IfErr};
ghost use Rattle.std.specs.Fmt.{decimal};
ghost use Rattle.std.specs.Io.KnownBytes.{Appends};
ghost use Rattle.t85_core.specs.declared.fault.Fault.TheVariants.{Write};
ghost use Rattle.devices.specs.Device.{AppendsBeginning};
ghost use Rattle.t85_core.specs.Failures.{CountsWrite, FlushesOutput};
ghost use Rattle.t85_core.specs.Info.{line_text};

use crate::fault::Fault;
use devices::{Output, write_bytes};
use std::marker::Model;

/// A line under construction, with space for nine numbers of twenty digits, each followed by one byte.
#[derive(Drop)]
pub struct Line {
    bytes: [u8; 192],
    len: usize,
}

impl Model for Line {
    ghost Value = { List ℕ };

    ghost view = { λ line. take line.len line.bytes };

    ghost invariant = { λ line. line.len ≤ 192 };
}

impl Line {
    /// The line of these numbers, separated by spaces and ended by a line feed.
    #[tactic(auto, using(crate::proofs::BytesJoin::DigitsAreWritten::digits))]
    pub fn of(numbers: &[u64]) -> Line
        requires { length numbers.now ≤ 9 }
        ensures { result ≡ line_text numbers.now }
    {
        let mut line = Line {
            bytes: [0; 192],
            len: 0,
        };
        for (i, n) in numbers.iter().enumerate() {
            line.number(*n);
            line.push(if i + 1 == numbers.len() { b'\n' } else { b' ' });
        }
        line
    }

    #[tactic(auto, using(crate::proofs::BytesJoin::DigitsAreWritten::digits))]
    fn number(&mut self, n: u64)
        requires { length self.old + length (decimal n) ≤ 192 }
        ensures { self.new ≡ self.old ++ decimal n }
    {
        if n >= 10 {
            self.number(n / 10);
        }
        self.push(b'0' + (n % 10) as u8);
    }

    fn push(&mut self, byte: u8)
        requires { length self.old < 192 }
        ensures { self.new ≡ self.old ++ byte ∷ [] }
    {
        self.bytes[self.len] = byte;
        self.len += 1;
    }

    /// Writes the line, and flushes once.
    pub fn put<W: Output>(&self, output: &mut W) -> Result<(), Fault>
        ensures ok { OnOk result (Appends (W.view output.old).contents (W.view output.new).contents
            self.now) }
        ensures err { IfErr result (λ f. f ≡ Write) }
        ensures cut { IfErr result (λ _. AppendsBeginning (W.view output.old).contents
            (W.view output.new).contents self.now) }
        ensures flushed { OnOk result ((W.view output.new).flushed ≡ true) }
        ensures flushes { FlushesOutput (W.view output.old) (W.view output.new) result }
        ensures counts { CountsWrite (W.view output.old).failures (W.view output.new).failures
            result }
    {
        if write_bytes(output, &self.bytes[..self.len]).is_err() {
            return Err(Fault::Write);
        }
        if output.flush().is_err() {
            return Err(Fault::Write);
        }
        Ok(())
    }
}
