//! Encodes a stripe without output, to count its bytes.

use crate::encoding::rows::take_row;
use crate::encoding::steps::count_row;
use crate::laws::writing_laws;
use pbm_core::{Size, row_bytes};
use qm_core::{CodeSink, Encoder, Learned, SinkFault};
use raster_core::{Kept, Shape, Tally, Window, encode_row};

/// A sink that counts the bytes and discards them.
#[derive(Drop)]
pub struct ByteCount {
    pub bytes: u64,
}

impl CodeSink for ByteCount {
    ghost use Rattle.std.specs.Prelude.{◌≡◌, ◌+◌, ◌%◌, ◌^◌};

    ghost took = { λ s byte t. t.bytes ≡ (s.bytes + 1) % 2 ^ 64 };

    ghost refused = { λ s t. ⊥ };

    ghost failed = { λ s. 0 };

    fn push(&mut self, _byte: u8) -> Result<(), SinkFault> {
        self.bytes = self.bytes.wrapping_add(1);
        Ok(())
    }

    fn failures(&self) -> u64 {
        0
    }
}

/// A stripe that is encoded without output.
#[derive(Drop)]
pub struct Trial {
    pub kept: Kept,
    pub learned: Learned,
    pub encoder: Encoder,
    pub sink: ByteCount,
    pub tally: Tally,
    /// Whether the rows that are not typical are counted in the tally.
    pub is_counted: bool,
}

/// The result of a trial.
#[derive(Clone, Copy)]
pub struct Tried {
    /// The number of bytes of the code.
    pub bytes: u64,
    /// The lag that the counted rows choose.
    pub lag: Option<u8>,
}

impl Trial {
    ghost use Rattle.std.specs.Prelude.{ℕ, ◌≡◌, ◌≤◌, ◌<◌, ◌+◌, ◌*◌, ◌/◌, ◌%◌, ◌^◌, List, Bool, [], length, true, false, None, Some, IfSome};
    ghost use Rattle.pbm_core.specs.Pbm.{bytes_of_row};
    ghost use Rattle.qm_core.specs.Encoder.{has_failed};
    ghost use Rattle.raster_core.specs.Packed.{Held};
    ghost use Rattle.raster_core.specs.Window.{held};
    ghost use Rattle.raster_core.specs.Tally.{is_two_line, most_of};
    ghost use Rattle.t85_core.specs.RowImage.{may_name};
    ghost use Rattle.t85_core.specs.States.ByRow.{IsLined};
    ghost use Rattle.t85_core.specs.Private.RowCalls.{HasRows};
    ghost use Rattle.t85_core.specs.Private.Trial.{CountsAsBefore, IsTried, MayTry, TrialOf, TriesRow, TriesRows, tried_code, tried_lag};
    ghost use Rattle.t85_core.specs.States.Trial.{all_rows_in};

    /// Encodes the window's current row, and counts it unless it is typical.
    fn code(&mut self, shape: Shape, window: &Window<'_>)
        requires ready { MayTry shape self.old window.now (2 ^ 55) }
        requires lined { IsLined (held window.now) }
        ensures row { TriesRow shape (held window.now) self.old self.new }
        ensures going { (events : ℕ) → MayTry shape self.old window.now events →
            MayTry shape self.new window.now (events + (shape.width + 1)) }
        ensures offset { self.new.kept.offset ≡ self.old.kept.offset }
        ensures tally { CountsAsBefore self.old.tally self.new.tally }
        ensures is_counted { self.new.is_counted ≡ self.old.is_counted }
    {
        // The sink accepts every byte.
        let _ = encode_row(
            shape,
            &mut self.kept,
            window,
            &mut self.learned,
            &mut self.encoder,
            &mut self.sink,
        );
        let counted = self.counted();
        count_row(counted, window, &mut self.tally);
    }

    /// The offset with which the row just encoded is counted, if it is counted.
    fn counted(&self) -> Option<u8>
        ensures typical { self.now.kept.previous_typical ≡ true → result ≡ None }
        ensures plain { self.now.is_counted ≡ true → self.now.kept.previous_typical ≡ false →
            result ≡ Some 0 }
        ensures small { IfSome result (λ offset. offset ≤ 127) }
    {
        if self.is_counted && !self.kept.previous_typical {
            Some(0)
        } else {
            None
        }
    }

    /// Encodes rows, each below the one before in the window.
    pub fn code_rows(&mut self, shape: Shape, size: Size, rows: &[u8], window: &mut Window<'_>)
        requires ready { MayTry shape self.old window.old 0 }
        requires lined { HasRows size.width window.old }
        requires whole { length rows.now % bytes_of_row size.width ≡ 0 }
        requires few { length rows.now / bytes_of_row size.width < 2 ^ 32 }
        ensures rows { TriesRows shape (all_rows_in size.width rows.now) (held window.old)
            (held window.new) self.old self.new }
        ensures going { has_failed self.new.encoder ≡ false }
        ensures tally { CountsAsBefore self.old.tally self.new.tally }
        ensures is_counted { self.new.is_counted ≡ self.old.is_counted }
    {
        let long = row_bytes(size.width);
        let count = rows.len() / long;
        for k in 0..count {
            let start = k * long;
            take_row(&rows[start..start + long], size, window);
            self.code(shape, window);
        }
    }

    /// Ends the code.
    pub fn finish(self) -> Tried
        requires going { has_failed self.encoder ≡ false }
        ensures bytes { (t : TrialOf) (part : List (List Bool)) (width : ℕ) (window : Held) →
            IsTried t part width self window → result.bytes ≡ length (tried_code t part) % 2 ^ 64 }
        ensures lag { (t : TrialOf) (part : List (List Bool)) (width : ℕ) (window : Held) →
            IsTried t part width self window → self.is_counted ≡ true →
            result.lag ≡ tried_lag t part }
        ensures range { IfSome result.lag (λ lag. may_name (is_two_line self.tally)
            (most_of self.tally) lag ≡ true) }
    {
        // The proof uses these laws of the coder.
        writing_laws();
        let Trial {
            encoder,
            mut sink,
            tally,
            ..
        } = self;
        // The sink accepts every byte.
        let _ = encoder.finish(&mut sink);
        Tried {
            bytes: sink.bytes,
            lag: tally.best(),
        }
    }
}
