//! The limit of rows of a decoder in pieces.

ghost use Rattle.std.specs.Prelude.{◌≡◌, ◌≢◌};
ghost use Rattle.libt85.specs.DecoderSteps.{IsMoreTold, IsOverLimit, IsRowTold, IsToldOf};
ghost use Rattle.libt85.specs.declared.decoder.Answer.TheVariants as answer;

use crate::decoder::{Answer, T85Decoder};
use t85_core::Outcome;

impl T85Decoder {
    /// The result for one of the engine after which this many rows are certain, unless they exceed the limit.
    pub(super) fn limited_answer(&mut self, outcome: Outcome, certain: u32) -> Answer
        requires version { self.old.version ≡ 2 }
        ensures told { IsToldOf outcome self.old self.new certain result }
        ensures same_header { self.new.header ≡ self.old.header }
        ensures limit { self.new.max_rows ≡ self.old.max_rows }
        ensures no_header { result ≢ answer.Header }
    {
        match outcome {
            Outcome::Row => self.count_row(certain),
            Outcome::More => self.ask(certain),
            Outcome::Done(_) => {
                self.end(0);
                Answer::Done
            }
            Outcome::Broken(fault) => {
                self.end(fault.number());
                Answer::Broken(fault)
            }
        }
    }

    /// Returns a row, unless it or the certain rows exceed the limit.
    fn count_row(&mut self, certain: u32) -> Answer
        requires version { self.old.version ≡ 2 }
        ensures told { IsRowTold self.old self.new certain result }
        ensures same_header { self.new.header ≡ self.old.header }
        ensures limit { self.new.max_rows ≡ self.old.max_rows }
        ensures no_header { result ≢ answer.Header }
    {
        if certain > self.max_rows || self.given >= self.max_rows {
            return self.stop_at_limit();
        }
        self.given += 1;
        Answer::Row
    }

    /// Asks for more bytes, unless the certain rows exceed the limit.
    fn ask(&mut self, certain: u32) -> Answer
        requires version { self.old.version ≡ 2 }
        ensures told { IsMoreTold self.old self.new certain result }
        ensures same_header { self.new.header ≡ self.old.header }
        ensures limit { self.new.max_rows ≡ self.old.max_rows }
        ensures no_header { result ≢ answer.Header }
    {
        if certain > self.max_rows {
            return self.stop_at_limit();
        }
        Answer::More
    }

    /// Rejects the stream, since its image has more rows than the limit.
    fn stop_at_limit(&mut self) -> Answer
        ensures over { IsOverLimit self.old self.new result }
        ensures same_header { self.new.header ≡ self.old.header }
    {
        self.end(24);
        Answer::TooManyRows
    }
}
