//! Finds the offset of the adaptive pixel that gives the next stripe the fewest bytes.

use crate::encoding::by_row::RowEncoder;
use crate::encoding::by_row::trial::{ByteCount, Trial, Tried};
use crate::encoding::learning::Learning;
use crate::encoding::rows::clear_padding;
use pbm_core::row_bytes;
use qm_core::{Encoder, laws as coder};
use raster_core::{Kept, Tally, Window};

/// An offset, and the number of bytes that the stripe has with it.
#[derive(Clone, Copy)]
pub struct Choice {
    pub offset: u8,
    pub bytes: u64,
}

impl Choice {
    ghost use Rattle.std.specs.Prelude.{◌≡◌, ◌≤◌, ◌<◌, ◌⊎◌};

    /// The one with fewer bytes; if both have as many, the one with the lesser offset.
    fn or(self, other: Choice) -> Choice
        ensures one { (result ≡ self) ⊎ (result ≡ other) }
        ensures than_self { (result.bytes < self.bytes) ⊎ ((result.bytes ≡ self.bytes) ×
            (result.offset ≤ self.offset)) }
        ensures than_other { (result.bytes < other.bytes) ⊎ ((result.bytes ≡ other.bytes) ×
            (result.offset ≤ other.offset)) }
    {
        let is_tie = other.bytes == self.bytes;
        if other.bytes < self.bytes || (is_tie && other.offset < self.offset) {
            other
        } else {
            self
        }
    }
}

impl RowEncoder {
    ghost use Rattle.std.specs.Prelude.{◌≡◌, ◌≤◌, ◌<◌, ◌*◌, ◌⊎◌, length, true, IfSome, is_some, ◌==◌, if◌then◌else◌};
    ghost use Rattle.std.specs.Int.{div_ceil};
    ghost use Rattle.raster_core.specs.Window.{held, width_of};
    ghost use Rattle.t85_core.specs.RowImage.{may_name};
    ghost use Rattle.t85_core.specs.States.ByRow.{MayGoOn, view_of};
    ghost use Rattle.t85_core.specs.States.RowCalls.{takes_name};
    ghost use Rattle.t85_core.specs.States.RowSteps.{IsGoing};
    ghost use Rattle.t85_core.specs.States.State.{StripeStart};
    ghost use Rattle.t85_core.specs.Private.Trial.{Chooses, IsCarriedTo, trial_from, trial_length, tried_lag};
    ghost use Rattle.t85_core.specs.States.Trial.{FindsOffset, all_rows_in, are_stripe_rows, may_come_next};

    /// For the stripe that begins with the next row: the offset of the adaptive pixel that gives it the fewest bytes,
    /// of the offset in use, the nominal one, and the lag at which the most pixels of its rows that are not typical
    /// equal the pixel so far to their left. If several give as few bytes, it returns the least of them.
    ///
    /// `rows` are all rows of the stripe, packed, one after the other. It returns `None` within a stripe, after the end
    /// or a failed write, and if `rows` are not whole rows or not as many as the stripe has; if the image may end early,
    /// there may be fewer. The encoder and its memory stay the same. `scratch` has the size of the window's memory, and
    /// is overwritten.
    pub fn best_offset(
        &self,
        rows: &[u8],
        window: &Window<'_>,
        learning: &Learning,
        scratch: &mut [u8],
    ) -> Option<u8>
        requires width { width_of window.now ≡ self.now.size.width }
        requires ready { IsGoing self.now → MayGoOn self.now }
        requires room { length scratch.old ≡ 3 * div_ceil self.now.size.width 8 }
        ensures best { FindsOffset (all_rows_in self.now.size.width rows.now)
            (view_of self.now learning.now) (held window.now) result }
        ensures named { takes_name self.now self.now.kept.offset ≡ true →
            IfSome result (λ offset. takes_name self.now offset ≡ true) }
        ensures applies { is_some result ≡ are_stripe_rows self.now (length rows.now) }
    {
        if !self.are_stripe_rows(rows.len()) {
            return None;
        }
        // The proof uses these laws about the length of a code.
        coder::lengths();
        let current = self.kept.offset;
        let tried = self.try_offset(current, true, rows, window, learning, scratch);
        let first = Choice {
            offset: current,
            bytes: tried.bytes,
        };
        let second = self.compare(first, 0, rows, window, learning, scratch);
        let best = match tried.lag {
            Some(lag) => self.compare(second, lag, rows, window, learning, scratch),
            None => second,
        };
        Some(best.offset)
    }

    /// Whether this number of bytes may be the rows of the stripe that begins with the next row.
    fn are_stripe_rows(&self, count: usize) -> bool
        requires within { IsGoing self.now → self.now.rows ≤ self.now.size.height }
        ensures { result ≡ are_stripe_rows self.now count }
    {
        let long = row_bytes(self.size.width);
        !self.is_closed
            && self.in_stripe == 0
            && count % long == 0
            && self.may_come_next(count / long)
    }

    /// Whether a stripe with this number of rows may come next.
    fn may_come_next(&self, count: usize) -> bool
        requires within { self.now.rows ≤ self.now.size.height }
        ensures { result ≡ may_come_next self.now count }
    {
        let most = self.stripe_rows.min(self.left()) as usize;
        1 <= count && (count == most || (self.may_end && count <= most))
    }

    /// The better one of an offset that was tried and this one.
    fn compare(
        &self,
        best: Choice,
        offset: u8,
        rows: &[u8],
        window: &Window<'_>,
        learning: &Learning,
        scratch: &mut [u8],
    ) -> Choice
        requires width { width_of window.now ≡ self.now.size.width }
        requires ready { MayGoOn self.now }
        requires offset { offset ≤ 127 }
        requires rows { are_stripe_rows self.now (length rows.now) ≡ true }
        requires room { length scratch.old ≡ 3 * div_ceil self.now.size.width 8 }
        ensures chooses { (carry : StripeStart) → IsCarriedTo self.now learning.now.learned
            (held window.now) carry → best.bytes ≡ trial_length self.now carry (all_rows_in
            self.now.size.width rows.now) best.offset → Chooses (trial_length self.now carry
            (all_rows_in self.now.size.width rows.now)) best.offset offset result }
        ensures one { (result.offset ≡ best.offset) ⊎ (result.offset ≡ offset) }
    {
        if offset == best.offset {
            return best;
        }
        let tried = self.try_offset(offset, false, rows, window, learning, scratch);
        best.or(Choice {
            offset,
            bytes: tried.bytes,
        })
    }

    /// Encodes the stripe with this offset, and counts its rows if asked.
    fn try_offset(
        &self,
        offset: u8,
        is_counted: bool,
        rows: &[u8],
        window: &Window<'_>,
        learning: &Learning,
        scratch: &mut [u8],
    ) -> Tried
        requires width { width_of window.now ≡ self.now.size.width }
        requires ready { MayGoOn self.now }
        requires offset { offset ≤ 127 }
        requires rows { are_stripe_rows self.now (length rows.now) ≡ true }
        requires room { length scratch.old ≡ 3 * div_ceil self.now.size.width 8 }
        ensures bytes { (carry : StripeStart) → IsCarriedTo self.now learning.now.learned
            (held window.now) carry → result.bytes ≡ trial_length self.now carry (all_rows_in
            self.now.size.width rows.now) offset }
        ensures lag { (carry : StripeStart) → IsCarriedTo self.now learning.now.learned
            (held window.now) carry → is_counted ≡ true → result.lag ≡ tried_lag
            (trial_from self.now carry offset) (all_rows_in self.now.size.width rows.now) }
        ensures range { IfSome result.lag (λ lag. may_name self.now.shape.two_line
            self.now.most_offset lag ≡ true) }
    {
        scratch.copy_from_slice(&*window.rows);
        let mut copy = Window::resume(scratch, self.size.width, window.place());
        clear_padding(self.size, &mut copy);
        let mut trial = Trial {
            kept: Kept {
                offset,
                previous_typical: self.kept.previous_typical,
            },
            learned: learning.learned.copy(),
            encoder: Encoder::start(),
            sink: ByteCount { bytes: 0 },
            tally: Tally::new(self.shape.two_line, self.most_offset),
            is_counted,
        };
        trial.code_rows(self.shape, self.size, rows, &mut copy);
        let tried = trial.finish();
        Tried {
            bytes: tried.bytes.wrapping_add(self.other_bytes(offset)),
            lag: tried.lag,
        }
    }

    /// The number of bytes of a stripe besides its code: its end marker, and its move unless this offset is in use.
    fn other_bytes(&self, offset: u8) -> u64
        ensures { result ≡ (if offset == self.now.kept.offset then 2 else 10) }
    {
        if offset == self.kept.offset { 2 } else { 10 }
    }
}
