//! The order of the reasons to reject a call.

ghost use Rattle.std.specs.Prelude.{◌≡◌, ◌≤◌, ◌<◌, length, false, true, Some, None, MatchResult, IfOk};
ghost use Rattle.t85_core.specs.Jbg.{head_of, is_low};
ghost use Rattle.t85_core.specs.Options.{settings_of};
ghost use Rattle.t85_core.specs.States.RowCalls.{takes_name};
ghost use Rattle.libt85.specs.Decoded.{window_bytes as window_of};
ghost use Rattle.libt85.specs.Encoded.{settings_chosen};
ghost use Rattle.libt85.specs.Encoder.{name_refusal, end_refusal, head_length, row_refusal, start_call, start_refusal};
ghost use Rattle.libt85.specs.EncoderSteps.{AwaitsCall, RefusesCall};

use crate::encoder::{LEAST, MOST, T85Encoder};
use crate::encoding::judge;
use crate::options::T85Options;
use crate::status::{
    FULL, IN_STRIPE, NO_MORE_ROWS, OTHER_VERSION, ROWS_MISSING, SHORT_ROW, SHORT_WINDOW,
};
use pbm_core::{Size, row_bytes};
use raster_core::window_bytes;
use t85_core::{Fault, Options, RowEncoder};

impl T85Encoder {
    /// The engine's encoder, or the status of the first error, for a row, a window and an output buffer of these
    /// lengths.
    pub(super) fn judge_row(&self, row: usize, window: usize, room: usize) -> Result<RowEncoder, u8>
        ensures ready { MatchResult result (λ e. AwaitsCall self.now e)
            (λ status. RefusesCall self.now (row_refusal self.now row window room) status) }
        ensures enough { IfOk result (λ _. row_refusal self.now row window room ≡ None) }
    {
        let engine = match self.engine() {
            Ok(engine) => engine,
            Err(status) => return Err(status),
        };
        if self.rows == self.height {
            return Err(NO_MORE_ROWS);
        }
        if row < row_bytes(self.width) {
            return Err(SHORT_ROW);
        }
        if window < window_bytes(self.width) {
            return Err(SHORT_WINDOW);
        }
        if (room as u64) < engine.most_row_bytes() {
            return Err(FULL);
        }
        Ok(engine)
    }

    /// The same for an offset that is named.
    pub(super) fn judge_name(&self, offset: u8) -> Result<RowEncoder, u8>
        ensures ready { MatchResult result (λ e. AwaitsCall self.now e)
            (λ status. RefusesCall self.now (name_refusal self.now offset) status) }
        ensures enough { IfOk result (λ _. name_refusal self.now offset ≡ None) }
        ensures may { IfOk result (λ e. takes_name e offset ≡ true) }
    {
        let engine = match self.engine() {
            Ok(engine) => engine,
            Err(status) => return Err(status),
        };
        if self.height == self.rows {
            return Err(NO_MORE_ROWS);
        }
        if self.in_stripe != 0 {
            return Err(IN_STRIPE);
        }
        if !engine.offers(offset) {
            return Err(Fault::MoveLarge.number());
        }
        Ok(engine)
    }

    /// The same for the end.
    pub(super) fn judge_end(&self, window: usize, room: usize) -> Result<RowEncoder, u8>
        ensures ready { MatchResult result (λ e. AwaitsCall self.now e)
            (λ status. RefusesCall self.now (end_refusal self.now window room) status) }
        ensures enough { IfOk result (λ _. end_refusal self.now window room ≡ None) }
    {
        let engine = match self.engine() {
            Ok(engine) => engine,
            Err(status) => return Err(status),
        };
        if self.rows == 0 || self.announces_height == 0 && self.rows != self.height {
            return Err(ROWS_MISSING);
        }
        if window < window_bytes(self.width) {
            return Err(SHORT_WINDOW);
        }
        if engine.most_row_bytes() > room as u64 {
            return Err(FULL);
        }
        Ok(engine)
    }
}

/// The size and the options of a stream to be started, or the status of the first error.
pub(super) fn judge_start<'a>(
    size: usize,
    width: u32,
    height: u32,
    choice: &T85Options,
    comment: &'a [u8],
    window: usize,
    room: usize,
) -> Result<(Size, Options<'a>), u8>
    ensures judged { MatchResult result
        (λ _. start_refusal (start_call size width height choice.now comment.now) window room
        ≡ None)
        (λ status. start_refusal (start_call size width height choice.now comment.now) window room
        ≡ Some status) }
    ensures width { IfOk result (λ job. job.0.width ≡ width) }
    ensures height { IfOk result (λ job. job.0.height ≡ height) }
    ensures held { IfOk result (λ job. settings_of job.1 ≡ settings_chosen choice.now comment.now) }
    ensures not_low { IfOk result (λ job. is_low (settings_of job.1) height ≡ false) }
    ensures enough { IfOk result (λ _. window_of width ≤ window) }
    ensures room { IfOk result (λ job. length (head_of (settings_of job.1) width height) ≤ room) }
{
    if size < LEAST || size > MOST {
        return Err(OTHER_VERSION);
    }
    let job = judge(width, height, row_bytes(width), choice, comment, window)?;
    if room < head_length(choice, comment) {
        return Err(FULL);
    }
    Ok(job)
}

/// The number of bytes before the first stripe.
fn head_length(choice: &T85Options, comment: &[u8]) -> usize
    ensures { result ≡ head_length choice.now (length comment.now) }
{
    if choice.has_comment {
        26 + comment.len()
    } else {
        20
    }
}
