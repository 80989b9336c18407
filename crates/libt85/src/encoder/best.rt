//! Finds the best offset for the next stripe, whose rows the C caller has.

ghost use Rattle.std.specs.Prelude.{◌≡◌, ◌≤◌, ◌*◌, length, true, MatchResult, IfOk, None};
ghost use Rattle.std.specs.Int.{div_ceil};
ghost use Rattle.t85_core.specs.States.RowCalls.{takes_name};
ghost use Rattle.t85_core.specs.States.Trial.{all_rows_in, are_stripe_rows};
ghost use Rattle.libt85.specs.BestOffset.{FindsBest, IsBestNext, are_too_few, best_memory, best_refusal, most_rows, stripe_rows_in};
ghost use Rattle.libt85.specs.Decoded.{window_bytes as window_of};
ghost use Rattle.libt85.specs.Encoder.{encoder_hold};
ghost use Rattle.libt85.specs.EncoderSteps.{AwaitsCall, RefusesCall};

use crate::encoder::T85Encoder;
use crate::status::{IN_STRIPE, NO_MORE_ROWS, ROWS_MISSING, SHORT_WINDOW};
use pbm_core::row_bytes;
use raster_core::{Window, window_bytes};
use t85_core::RowEncoder;

/// For a caller that has all rows of the stripe that begins with the next row: finds the offset of the adaptive
/// template pixel that gives this stripe the fewest bytes. It tries the offset in use, 0, and the one that most pixels
/// of the stripe suggest. The caller may then name the offset with `t85_encode_offset`.
///
/// `rows` contains packed rows one after the other, from the next row on. Rows behind the stripe, and an incomplete last
/// row, are ignored. `window` is the encoder's window. `scratch` is memory of the same size.
///
/// Returns 0, or the first of these errors that applies, with nothing changed: 53 if the encoder was not initialized; 54
/// if all rows were passed, or the stream was ended; 56 if a stripe is in progress; 36 if `rows` contains no whole row,
/// or fewer rows than the stripe has and no height was announced; 19 if `window` or `scratch` is shorter than
/// `t85_window_bytes` of the width.
///
/// After 0, `offset` is the best offset, and the first `t85_window_bytes` bytes of `scratch` have unspecified contents.
/// The encoder and the window are never changed.
#[unsafe(no_mangle)]
pub extern "C" fn t85_best_offset(
    encoder: &T85Encoder,
    rows: &[u8],
    window: &mut [u8],
    scratch: &mut [u8],
    offset: &mut u8,
) -> u8
    ensures { FindsBest encoder.now rows.now (best_memory window.old scratch.old offset.old)
        (best_memory window.new scratch.new offset.new) result }
{
    let engine = match encoder.judge_best(rows.len(), window.len(), scratch.len()) {
        Ok(engine) => engine,
        Err(status) => return status,
    };
    let used = encoder.stripe_bytes(rows.len());
    let needed = window_bytes(encoder.width);
    *offset = encoder.find_best(
        engine,
        &rows[..used],
        &mut window[..needed],
        &mut scratch[..needed],
    );
    0
}

impl T85Encoder {
    /// The greatest number of rows that the next stripe may have.
    fn most_rows(&self) -> u32
        ensures { result ≡ most_rows self.now }
    {
        self.stripe_rows.min(self.height.saturating_sub(self.rows))
    }

    /// The number of bytes of the next stripe's rows, if there are this many bytes of rows.
    fn stripe_bytes(&self, rows: usize) -> usize
        requires some { 1 ≤ self.now.width }
        ensures is { result ≡ stripe_rows_in self.now rows * div_ceil self.now.width 8 }
        ensures within { result ≤ rows }
    {
        let long = row_bytes(self.width);
        (rows / long).min(self.most_rows() as usize) * long
    }

    /// Whether this many bytes of rows are too few for the next stripe.
    fn are_too_few(&self, rows: usize) -> bool
        requires some { 1 ≤ self.now.width }
        ensures { result ≡ are_too_few self.now rows }
    {
        let count = rows / row_bytes(self.width);
        count == 0 || self.announces_height == 0 && count < self.most_rows() as usize
    }

    /// The engine's encoder, or the status of the first error, for rows, a window and scratch memory of these lengths.
    fn judge_best(&self, rows: usize, window: usize, scratch: usize) -> Result<RowEncoder, u8>
        ensures ready { MatchResult result (λ e. AwaitsCall self.now e)
            (λ status. RefusesCall self.now (best_refusal self.now rows window scratch) status) }
        ensures enough { IfOk result (λ _. best_refusal self.now rows window scratch ≡ None) }
    {
        let engine = match self.engine() {
            Ok(engine) => engine,
            Err(status) => return Err(status),
        };
        if self.height == self.rows {
            return Err(NO_MORE_ROWS);
        }
        if self.in_stripe != 0 {
            return Err(IN_STRIPE);
        }
        if self.are_too_few(rows) {
            return Err(ROWS_MISSING);
        }
        let needed = window_bytes(self.width);
        if window < needed || scratch < needed {
            return Err(SHORT_WINDOW);
        }
        Ok(engine)
    }

    /// The best offset for a stripe of these rows, with a window and scratch memory of exactly three rows.
    fn find_best(
        &self,
        engine: RowEncoder,
        rows: &[u8],
        memory: &mut [u8],
        scratch: &mut [u8],
    ) -> u8
        requires long { length memory.old ≡ window_of self.now.width }
        requires room { length scratch.old ≡ window_of self.now.width }
        requires ready { AwaitsCall self.now engine }
        requires rows { are_stripe_rows engine (length rows.now) ≡ true }
        ensures best { IsBestNext (encoder_hold self.now memory.old)
            (all_rows_in self.now.width rows.now) result }
        ensures named { takes_name engine engine.kept.offset ≡ true →
            takes_name engine result ≡ true }
        ensures same { memory.new ≡ memory.old }
    {
        let window = Window::resume(memory, self.width, self.place);
        let best = engine.best_offset(rows, &window, &self.learning, scratch);
        best.unwrap_or(0)
    }
}
