//! Encodes an image row by row.

mod again;
mod best_offset;
mod ending;
pub mod numbers;
mod offset;
mod stripes;
mod trial;

use crate::encoding::learning::Learning;
use crate::encoding::rows::{clear_padding, start_held, take_row};
use crate::encoding::steps::has_candidates;
use crate::fault::Fault;
use crate::laws::fronts;
use crate::options::Options;
use crate::output_buffer::{OutputBuffer, ROW_HELD};
use crate::state::START;
use devices::Output;
use pbm_core::Size;
use qm_core::Encoder;
use raster_core::{Kept, Shape, Window};

/// An encoder for an image whose rows are passed one by one. It owns no memory: each call borrows the window with the
/// three rows, and the context states and counts.
#[derive(Drop)]
pub struct RowEncoder {
    /// The width, and the greatest number of rows.
    size: Size,
    shape: Shape,
    stripe_rows: u32,
    /// The height in the header.
    announced: u32,
    /// Whether the image may end early, because a height was announced.
    may_end: bool,
    /// Whether there are offsets to choose from.
    has_candidates: bool,
    /// The greatest offset.
    most_offset: u8,
    reset: bool,
    kept: Kept,
    encoder: Encoder,
    /// The number of rows encoded.
    rows: u32,
    /// The number of those that belong to the current stripe.
    in_stripe: u32,
    /// Whether the rows of the current stripe are counted in the tally.
    is_counted: bool,
    /// The offset that the caller named for the stripe that begins next.
    named: Option<u8>,
    /// Whether the stream was ended, or a write failed.
    is_closed: bool,
}

impl RowEncoder {
    ghost use Rattle.std.specs.Prelude.{◌≡◌, ◌≤◌, ◌<◌, ◌+◌, ◌-◌, ◌*◌, ◌⊎◌, true, false};
    ghost use Rattle.t85_core.specs.Jbg.{is_low};
    ghost use Rattle.t85_core.specs.Options.{settings_of};
    ghost use Rattle.t85_core.specs.MostBytes.{most_end_bytes, most_row_bytes};
    ghost use Rattle.t85_core.specs.declared.encoding.learning.Learning.{Learning};
    ghost use Rattle.t85_core.specs.States.ByRow.{plan_of, view_of, IsPlan, lent_to};
    ghost use Rattle.t85_core.specs.RowImage.{image_for};
    ghost use Rattle.t85_core.specs.States.RowCalls.{HasNoRows, MayEnd};
    ghost use Rattle.t85_core.specs.Private.RowSteps.{IsUntaught, StandsFirst};

    /// An encoder before the first row of an image. The caller writes the head of the stream.
    #[inline(always)]
    pub(crate) fn new(size: Size, options: &Options<'_>) -> RowEncoder
        requires { is_low (settings_of options.now) size.height ≡ false }
        ensures plan { IsPlan (image_for options.now size) (plan_of result) }
        ensures first { (learning : Learning) → IsUntaught (settings_of options.now) learning →
            StandsFirst (image_for options.now size) (view_of result learning) }
        ensures begins { HasNoRows size result }
    {
        let shape = options.header(size).shape();
        RowEncoder {
            size,
            shape,
            stripe_rows: options.stripe_rows,
            announced: options.announced.unwrap_or(size.height),
            may_end: options.announced.is_some(),
            has_candidates: has_candidates(shape, options.most_offset),
            most_offset: options.most_offset,
            reset: options.reset,
            kept: START,
            encoder: Encoder::start(),
            rows: 0,
            in_stripe: 0,
            is_counted: false,
            named: None,
            is_closed: false,
        }
    }

    /// The number of further rows that are accepted.
    pub fn left(&self) -> u32
        requires within { self.now.rows ≤ self.now.size.height }
        ensures { result + self.now.rows ≡ self.now.size.height }
    {
        self.size.height - self.rows
    }

    /// Whether nothing more is accepted, because a write failed or the stream was ended.
    pub fn is_closed(&self) -> bool
        ensures { result ≡ self.now.is_closed }
    {
        self.is_closed
    }

    /// Whether the image may end here.
    pub fn may_finish(&self) -> bool
        ensures yes { result ≡ true → MayEnd self.now }
        ensures all { 0 < self.now.rows →
            (self.now.may_end ≡ true) ⊎ (self.now.rows ≡ self.now.size.height) → result ≡ true }
    {
        self.rows > 0 && (self.may_end || self.rows == self.size.height)
    }

    /// An upper bound on the bytes that the encoder writes for the next row.
    pub fn most_row_bytes(&self) -> u64
        ensures { result ≡ most_row_bytes self.now }
    {
        2 * self.encoder.waiting() + 4 * (u64::from(self.size.width) + 1) + 10
    }

    /// An upper bound on the bytes that it writes if the stream ends here.
    pub fn most_end_bytes(&self) -> u64
        ensures { result ≡ most_end_bytes self.now }
    {
        2 * self.encoder.waiting() + 10
    }
}

impl RowEncoder {
    ghost use Rattle.std.specs.Prelude.{◌≡◌, ◌<◌, ◌-◌, [], ◌⊎◌, OnOk, OnErr, IfOk, IfErr, IsErrOf, length, Err, true};
    ghost use Rattle.std.specs.Io.KnownBytes.{Keeps};
    ghost use Rattle.devices.specs.Device.{AppendsBeginning};
    ghost use Rattle.pbm_core.specs.Pbm.{bytes_of_row};
    ghost use Rattle.raster_core.specs.Window.{current_place, held, width_of};
    ghost use Rattle.t85_core.specs.Lent.{KeepsWindow, StaysWindow};
    ghost use Rattle.raster_core.specs.Packed.{next_place};
    ghost use Rattle.t85_core.specs.Jbg.{head_of, is_low};
    ghost use Rattle.t85_core.specs.Options.{settings_of};
    ghost use Rattle.t85_core.specs.Failures.{OnlyWrites};
    ghost use Rattle.t85_core.specs.MostBytes.{AppendsRow, AppendsEnd};
    ghost use Rattle.t85_core.specs.States.RowSteps.{IsGoing, given_row};
    ghost use Rattle.t85_core.specs.Private.RowSteps.{TakesBelow, CutsBelow};
    ghost use Rattle.t85_core.specs.States.Sent.{here};
    ghost use Rattle.t85_core.specs.States.Views.{text_taken};
    ghost use Rattle.t85_core.specs.Private.Views.{WritesBehind};
    ghost use Rattle.t85_core.specs.States.RowCalls.{HasNoRows, LeavesClosed, TakesRow, MayEnd, MayTakeRow};
    ghost use Rattle.t85_core.specs.Private.RowCalls.{HasRows};
    ghost use Rattle.t85_core.specs.declared.encoding.learning.Learning.{Learning};
    ghost use Rattle.t85_core.specs.declared.fault.Fault.TheVariants.{Write, AnnouncedLow};
    ghost use Rattle.t85_core.specs.States.ByRow.{view_of, MayGoOn, Stands, TakesNextRow, CutsRow, EndsImage, CutsImage, lent_to};
    ghost use Rattle.t85_core.specs.RowImage.{image_for};

    /// Starts a stream: writes its head, makes the window white, and resets the contexts and counts.
    pub fn start<W: Output>(
        size: Size,
        options: &Options<'_>,
        window: &mut Window<'_>,
        learning: &mut Learning,
        output: &mut W,
    ) -> Result<RowEncoder, Fault>
        requires width { width_of window.old ≡ size.width }
        ensures begun { IfOk result (λ e. Stands (image_for options.now size) []
            (view_of e learning.new) (held window.new) (here (W.view output.old).contents)
            (W.view output.new).contents) }
        ensures begins { IfOk result (HasNoRows size) }
        ensures window { StaysWindow window.old window.new }
        ensures refused { is_low (settings_of options.now) size.height ≡ true →
            result ≡ Err AnnouncedLow }
        ensures low { IsErrOf result AnnouncedLow → (is_low (settings_of options.now) size.height ≡
            true) × Keeps (W.view output.old).contents (W.view output.new).contents }
        ensures cut { IsErrOf result Write → AppendsBeginning (W.view output.old).contents (W.view
            output.new).contents (head_of (settings_of options.now) size.width size.height) }
        ensures err { IfErr result (λ f. (f ≡ Write) ⊎ (f ≡ AnnouncedLow)) }
        ensures writes { OnlyWrites (W.view output.old) (W.view output.new) result }
    {
        if options.is_low(size) {
            return Err(Fault::AnnouncedLow);
        }
        let mut buffer = OutputBuffer::new(output);
        start_held(size, options, window, learning, &mut buffer)
    }

    /// Encodes the next row: its pixels, packed, in a whole number of bytes; bits after the last pixel are ignored.
    /// After a failed write, and after the end, it does nothing. The borrowed memory may contain anything; the contract
    /// says what is written only if it is as the last call left it.
    pub fn put_row<W: Output>(
        &mut self,
        row: &[u8],
        window: &mut Window<'_>,
        learning: &mut Learning,
        output: &mut W,
    ) -> Result<(), Fault>
        requires width { width_of window.old ≡ self.old.size.width }
        requires whole { length row.now ≡ bytes_of_row self.old.size.width }
        requires ready { IsGoing self.old → MayTakeRow self.old }
        ensures ok { OnOk result (TakesNextRow (given_row self.old row.now)
            (lent_to self.old learning.old (held window.old) (W.view output.old).contents)
            (lent_to self.new learning.new (held window.new) (W.view output.new).contents)) }
        ensures cut { IsGoing self.old → OnErr result (CutsRow (given_row self.old row.now)
            (view_of self.old learning.old) (held window.old) (W.view output.old).contents
            (W.view output.new).contents) }
        ensures closed { self.old.is_closed ≡ true → (result ≡ Err Write) × (self.new ≡ self.old) ×
            (learning.new ≡ learning.old) × (output.new ≡ output.old) }
        ensures few { AppendsRow self.old (W.view output.old).contents
            (W.view output.new).contents }
        ensures goes_on { TakesRow self.old self.new result }
        ensures window { KeepsWindow window.old window.new }
        ensures place { OnOk result (current_place window.new ≡
            next_place (next_place (current_place window.old))) }
        ensures writes { IsGoing self.old → OnlyWrites (W.view output.old) (W.view output.new)
            result }
    {
        if self.is_closed {
            return Err(Fault::Write);
        }
        clear_padding(self.size, window);
        take_row(row, self.size, window);
        let mut buffer = OutputBuffer::new(output);
        self.put_held(window, learning, &mut buffer)
    }

    /// Encodes the window's current row, and writes the buffer.
    fn put_held<W: Output>(
        &mut self,
        window: &mut Window<'_>,
        learning: &mut Learning,
        buffer: &mut OutputBuffer<'_, W, ROW_HELD>,
    ) -> Result<(), Fault>
        requires lined { HasRows self.old.size.width window.old }
        requires open_ { IsGoing self.old }
        requires ready { MayTakeRow self.old }
        ensures ok { OnOk result (TakesBelow (view_of self.old learning.old)
            (view_of self.new learning.new) (held window.old) (held window.new)
            (text_taken buffer.old) (W.view buffer.new.output.now).contents) }
        ensures cut { OnErr result (CutsBelow (view_of self.old learning.old) (held window.old)
            (text_taken buffer.old) (text_taken buffer.new)) }
        ensures few { AppendsRow self.old (text_taken buffer.old) (text_taken buffer.new) }
        ensures goes_on { TakesRow self.old self.new result }
        ensures window { StaysWindow window.old window.new }
        ensures writes { WritesBehind buffer.old buffer.new result }
    {
        // The proof uses these laws about the output after some rows.
        fronts();
        self.put_taken(window, learning, buffer)?;
        match buffer.write_held() {
            Ok(()) => Ok(()),
            Err(fault) => {
                self.is_closed = true;
                Err(fault)
            }
        }
    }

    /// Ends the stream, with a new height if the image is lower than announced. Nothing is accepted after this.
    pub fn finish<W: Output>(
        &mut self,
        window: &mut Window<'_>,
        learning: &mut Learning,
        output: &mut W,
    ) -> Result<(), Fault>
        requires width { width_of window.old ≡ self.old.size.width }
        requires ready { IsGoing self.old → MayEnd self.old × MayGoOn self.old }
        ensures ok { OnOk result (EndsImage (view_of self.old learning.old) (held window.old)
            (W.view output.old).contents (W.view output.new).contents) }
        ensures cut { IsGoing self.old → OnErr result (CutsImage (view_of self.old learning.old)
            (held window.old) (W.view output.old).contents (W.view output.new).contents) }
        ensures closed { self.old.is_closed ≡ true → (result ≡ Err Write) × (self.new ≡ self.old) ×
            (learning.new ≡ learning.old) × (output.new ≡ output.old) }
        ensures few { AppendsEnd self.old (W.view output.old).contents
            (W.view output.new).contents }
        ensures ended { LeavesClosed self.old self.new result }
        ensures window { KeepsWindow window.old window.new }
        ensures writes { IsGoing self.old → OnlyWrites (W.view output.old) (W.view output.new)
            result }
    {
        if self.is_closed {
            return Err(Fault::Write);
        }
        clear_padding(self.size, window);
        let mut buffer = OutputBuffer::new(output);
        self.end_held(window, learning, &mut buffer)
    }
}
