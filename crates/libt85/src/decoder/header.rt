//! The header of a stream in pieces.

ghost use Rattle.std.specs.Prelude.{◌≡◌, ◌≤◌, ◌<◌, List, ℕ};
ghost use Rattle.t85_core.specs.Pieces.{is_last_piece};
ghost use Rattle.libt85.specs.Decoder.{Answers, ReadsHeader, more_call};
ghost use Rattle.libt85.specs.DecoderLimit.{StaysWithinLimit};
ghost use Rattle.libt85.specs.DecoderState.{HasRead, hold_of};
ghost use Rattle.libt85.specs.declared.decoder.Answer.TheVariants as answer;
ghost use Rattle.libt85.specs.DecoderSteps.{IsAwaited, IsFilled, IsJudged};

use crate::decoder::{Answer, FIRST_ROW, HEADER_LEN, Report, T85Decoder};
use crate::opened::read_header;
use t85_core::laws::headers;
use t85_core::{Fault, Header, More};

impl T85Decoder {
    /// Consumes bytes of the header.
    pub(super) fn take_header(&mut self, bytes: &[u8], more: More) -> Report
        requires version { self.old.version ≡ 2 }
        requires next { self.old.next ≡ 0 }
        ensures answers { (window : List ℕ) → Answers (HasRead (hold_of self.old window))
            (hold_of self.old window) (hold_of self.new window)
            (more_call bytes.now more result.taken result.row) result.answer }
        ensures limit { self.new.max_rows ≡ self.old.max_rows }
        ensures within { StaysWithinLimit result.answer self.new }
        ensures full { 20 ≤ self.old.header_len → result.answer ≡ answer.NotBegun }
        ensures header { (window : List ℕ) → ReadsHeader (hold_of self.old window) bytes.now →
            result.answer ≡ answer.Header }
    {
        // The proof uses these laws about headers.
        headers();
        if usize::from(self.header_len) >= HEADER_LEN {
            return Answer::NotBegun.alone();
        }
        let taken = self.fill_header(bytes);
        let answer = if usize::from(self.header_len) < HEADER_LEN {
            self.wait_for_header(more)
        } else {
            self.judge_header()
        };
        Report {
            answer,
            taken,
            row: 0,
        }
    }

    /// Appends bytes to the header, as many as are missing, and returns how many.
    fn fill_header(&mut self, bytes: &[u8]) -> usize
        requires few { self.old.header_len < 20 }
        ensures filled { IsFilled self.old self.new bytes.now result }
    {
        let len = usize::from(self.header_len);
        let taken = bytes.len().min(HEADER_LEN - len);
        self.header[len..len + taken].copy_from_slice(&bytes[..taken]);
        self.header_len = (len + taken) as u8;
        taken
    }

    /// Checks the header, which is complete.
    fn judge_header(&mut self) -> Answer
        requires version { self.old.version ≡ 2 }
        ensures judged { IsJudged self.old self.new result }
        ensures limit { self.new.max_rows ≡ self.old.max_rows }
    {
        match read_header(&self.header) {
            Ok(header) => {
                // With VLENGTH a lower height may follow.
                let is_variable = header.options / 32 % 2 == 1;
                if !is_variable && header.yd > self.max_rows {
                    self.end(24);
                    return Answer::TooManyRows;
                }
                self.numbers.height = header.yd;
                self.next = FIRST_ROW;
                Answer::Header
            }
            Err(fault) => {
                self.end(fault.number());
                Answer::Broken(fault)
            }
        }
    }

    /// Waits for the rest of the header, unless no more bytes follow.
    fn wait_for_header(&mut self, more: More) -> Answer
        requires version { self.old.version ≡ 2 }
        ensures awaited { IsAwaited self.old self.new (is_last_piece more) result }
        ensures limit { self.new.max_rows ≡ self.old.max_rows }
    {
        match more {
            More::Comes => Answer::More,
            More::None => {
                let fault = Fault::ShortHeader;
                self.end(fault.number());
                Answer::Broken(fault)
            }
        }
    }
}
