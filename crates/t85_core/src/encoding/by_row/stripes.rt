//! The steps of a row encoder: a row, together with the stripe that it begins or ends, and the end of the image.

use crate::encoding::by_row::RowEncoder;
use crate::encoding::learning::Learning;
use crate::encoding::segments::write_ending;
use crate::encoding::steps::{code_row, count_row, end_entity, move_pixel};
use crate::fault::Fault;
use crate::laws::writing_laws;
use crate::output_buffer::ByteTarget;
use crate::state::next_stripe;
use raster_core::Window;

impl RowEncoder {
    ghost use Rattle.std.specs.Prelude.{◌≡◌, ◌≤◌, ◌<◌, ◌+◌, ◌-◌, [], List, Option, Bool, OnOk, OnErr, IfSome, Err, true, false};
    ghost use Rattle.raster_core.specs.Window.{held, width_of};
    ghost use Rattle.t85_core.specs.Lent.{StaysWindow};
    ghost use Rattle.raster_core.specs.Packed.{Held};
    ghost use Rattle.t85_core.specs.Private.Buffers.{WritesOrFails};
    ghost use Rattle.t85_core.specs.RowSink.{WritesOn};
    ghost use Rattle.t85_core.specs.MostBytes.{AppendsAtMost, AppendsRow, AppendsEnd, CodesFew, most_code_bytes};
    ghost use Rattle.t85_core.specs.declared.fault.Fault.TheVariants.{Write};
    ghost use Rattle.t85_core.specs.declared.encoding.learning.Learning.{Learning};
    ghost use Rattle.t85_core.specs.States.ByRow.{view_of, counted_of, IsAble, MayGoOn, IsLined, CutsRow, EndsImage, CutsImage};
    ghost use Rattle.t85_core.specs.Private.RowCalls.{AddsRow, HasRows};
    ghost use Rattle.t85_core.specs.States.RowCalls.{LeavesClosed, TakesRow, CodesNothing, KeepsRows, MayEnd, MayTakeRow};
    ghost use Rattle.t85_core.specs.States.RowSteps.{IsGoing};
    ghost use Rattle.t85_core.specs.Private.RowSteps.{TakesBelow, CutsBelow, StandsToRun, WaitsToRun, CutsMove, CodesRow, CutsCode, RunsToStand, CutsRunning, EndsStripe, CutsStripe, EndsStripes};

    /// Encodes the window's current row. After a failed write, and after the end, it does nothing.
    pub(crate) fn put_taken<P: ByteTarget>(
        &mut self,
        window: &mut Window<'_>,
        learning: &mut Learning,
        target: &mut P,
    ) -> Result<(), Fault>
        requires width { width_of window.old ≡ self.old.size.width }
        requires lined { IsGoing self.old → IsLined (held window.old) }
        requires ready { IsGoing self.old → MayTakeRow self.old }
        ensures ok { OnOk result (TakesBelow (view_of self.old learning.old)
            (view_of self.new learning.new) (held window.old) (held window.new)
            (P.view target.old).text (P.view target.new).text) }
        ensures cut { IsGoing self.old → OnErr result (CutsBelow (view_of self.old learning.old)
            (held window.old) (P.view target.old).text (P.view target.new).text) }
        ensures closed { self.old.is_closed ≡ true → (result ≡ Err Write) × (self.new ≡ self.old) ×
            (learning.new ≡ learning.old) × (target.new ≡ target.old) }
        ensures few { AppendsRow self.old (P.view target.old).text (P.view target.new).text }
        ensures goes_on { TakesRow self.old self.new result }
        ensures lined { OnOk result (IsLined (held window.new)) }
        ensures window { StaysWindow window.old window.new }
        ensures writes { IsGoing self.old → WritesOn (P.view target.old) (P.view target.new)
            result }
    {
        if self.is_closed {
            return Err(Fault::Write);
        }
        self.is_closed = true;
        self.begin_where_due(learning, target)?;
        self.code(window, learning, target)?;
        self.end_where_due(window, learning, target)?;
        self.is_closed = false;
        Ok(())
    }

    /// Begins a stripe, unless one is in progress.
    fn begin_where_due<P: ByteTarget>(
        &mut self,
        learning: &mut Learning,
        target: &mut P,
    ) -> Result<(), Fault>
        requires left { self.old.rows < self.old.size.height }
        requires able { IsAble self.old }
        ensures ok { OnOk result (StandsToRun (view_of self.old learning.old)
            (view_of self.new learning.new) (P.view target.old).text (P.view target.new).text) }
        ensures cut { OnErr result ((row : List Bool) (before : Held) → CutsRow row (view_of
            self.old learning.old) before (P.view target.old).text (P.view target.new).text) }
        ensures few { AppendsAtMost 8 (P.view target.old).text (P.view target.new).text }
        ensures able { OnOk result (IsAble self.new) }
        ensures keeps { CodesNothing self.old self.new }
        ensures fails { WritesOrFails (P.view target.old) (P.view target.new) result }
    {
        if self.in_stripe == 0 {
            self.begin_stripe(learning, target)
        } else {
            Ok(())
        }
    }

    /// Begins a stripe.
    fn begin_stripe<P: ByteTarget>(
        &mut self,
        learning: &mut Learning,
        target: &mut P,
    ) -> Result<(), Fault>
        requires left { self.old.rows < self.old.size.height }
        requires able { IsAble self.old }
        ensures ok { OnOk result (WaitsToRun (view_of self.old learning.old)
            (view_of self.new learning.new) (P.view target.old).text (P.view target.new).text) }
        ensures cut { OnErr result (CutsMove (view_of self.old learning.old)
            (P.view target.old).text (P.view target.new).text) }
        ensures few { AppendsAtMost 8 (P.view target.old).text (P.view target.new).text }
        ensures able { OnOk result (IsAble self.new) }
        ensures keeps { CodesNothing self.old self.new }
        ensures fails { WritesOrFails (P.view target.old) (P.view target.new) result }
    {
        let named = self.named;
        self.named = None;
        let has_candidates = self.has_candidates;
        move_pixel(
            &mut self.kept,
            named,
            has_candidates,
            &learning.tally,
            target,
        )?;
        self.is_counted = self.is_followed();
        if self.is_counted {
            learning.tally.restart();
        }
        Ok(())
    }

    /// Whether another stripe follows the one that begins, and there are offsets to choose from for it.
    fn is_followed(&self) -> bool
        requires { self.now.rows ≤ self.now.size.height }
        ensures { self.now.stripe_rows < self.now.size.height - self.now.rows →
            self.now.has_candidates ≡ true → result ≡ true }
    {
        self.has_candidates && self.stripe_rows < self.size.height - self.rows
    }

    /// Encodes the window's current row within a stripe.
    fn code<P: ByteTarget>(
        &mut self,
        window: &Window<'_>,
        learning: &mut Learning,
        target: &mut P,
    ) -> Result<(), Fault>
        requires lined { HasRows self.old.size.width window.now }
        requires ready { MayTakeRow self.old }
        ensures ok { OnOk result (CodesRow (view_of self.old learning.old) (view_of self.new
            learning.new) (held window.now) (P.view target.old).text (P.view target.new).text) }
        ensures cut { OnErr result (CutsCode (view_of self.old learning.old) (held window.now)
            (P.view target.old).text (P.view target.new).text) }
        ensures few { CodesFew self.old self.new (P.view target.old).text (P.view target.new).text
            result }
        ensures able { OnOk result (IsAble self.new) }
        ensures counts { AddsRow self.old self.new }
        ensures fails { WritesOrFails (P.view target.old) (P.view target.new) result }
    {
        // The proof uses these laws of the coder.
        writing_laws();
        self.rows += 1;
        self.in_stripe += 1;
        code_row(
            self.shape,
            window,
            &mut self.kept,
            &mut learning.learned,
            &mut self.encoder,
            target,
        )?;
        let counted = self.counted();
        count_row(counted, window, &mut learning.tally);
        Ok(())
    }

    /// The offset with which the rows of this stripe are counted, if they are counted.
    pub(super) fn counted(&self) -> Option<u8>
        ensures is { (learning : Learning) → result ≡ counted_of (view_of self.now learning) }
        ensures small { IfSome result (λ offset. offset ≤ 127) }
    {
        if self.is_counted {
            Some(if self.reset { 0 } else { self.kept.offset })
        } else {
            None
        }
    }

    /// Ends the stripe if all of its rows are encoded.
    fn end_where_due<P: ByteTarget>(
        &mut self,
        window: &mut Window<'_>,
        learning: &mut Learning,
        target: &mut P,
    ) -> Result<(), Fault>
        requires lined { HasRows self.old.size.width window.old }
        requires some { 0 < self.old.in_stripe }
        requires able { IsAble self.old }
        ensures ok { OnOk result (RunsToStand (view_of self.old learning.old)
            (view_of self.new learning.new) (held window.old) (held window.new)
            (P.view target.old).text (P.view target.new).text) }
        ensures cut { OnErr result (CutsRunning (view_of self.old learning.old) (held window.old)
            (P.view target.old).text (P.view target.new).text) }
        ensures few { AppendsAtMost (most_code_bytes self.old + 2) (P.view target.old).text
            (P.view target.new).text }
        ensures ready { OnOk result (MayGoOn self.new) }
        ensures keeps { KeepsRows self.old self.new }
        ensures lined { OnOk result (IsLined (held window.new)) }
        ensures window { StaysWindow window.old window.new }
        ensures fails { WritesOrFails (P.view target.old) (P.view target.new) result }
    {
        if self.in_stripe == self.stripe_rows {
            self.end_stripe(window, learning, target)
        } else {
            Ok(())
        }
    }

    /// Ends the current stripe, and writes the buffer.
    fn end_stripe<P: ByteTarget>(
        &mut self,
        window: &mut Window<'_>,
        learning: &mut Learning,
        target: &mut P,
    ) -> Result<(), Fault>
        requires lined { HasRows self.old.size.width window.old }
        requires some { 0 < self.old.in_stripe }
        requires able { IsAble self.old }
        ensures ok { OnOk result (EndsStripe (view_of self.old learning.old)
            (view_of self.new learning.new) (held window.old) (held window.new)
            (P.view target.old).text (P.view target.new).text) }
        ensures cut { OnErr result (CutsStripe (view_of self.old learning.old) (held window.old)
            (P.view target.old).text (P.view target.new).text) }
        ensures few { AppendsAtMost (most_code_bytes self.old + 2) (P.view target.old).text
            (P.view target.new).text }
        // No byte of a finished stripe remains buffered.
        ensures sent { OnOk result ((P.view target.new).held ≡ []) }
        ensures able { OnOk result (IsAble self.new) }
        ensures none { OnOk result (self.new.in_stripe ≡ 0) }
        ensures keeps { KeepsRows self.old self.new }
        ensures lined { OnOk result (IsLined (held window.new)) }
        ensures window { StaysWindow window.old window.new }
        ensures fails { WritesOrFails (P.view target.old) (P.view target.new) result }
    {
        // The proof uses these laws of the coder.
        writing_laws();
        end_entity(&mut self.encoder, self.reset, target)?;
        self.in_stripe = 0;
        next_stripe(self.reset, window, &mut self.kept, &mut learning.learned);
        target.write_held()
    }

    /// Ends the stream, with a new height if the image is lower than announced.
    pub(crate) fn end<P: ByteTarget>(
        &mut self,
        window: &mut Window<'_>,
        learning: &mut Learning,
        target: &mut P,
    ) -> Result<(), Fault>
        requires width { width_of window.old ≡ self.old.size.width }
        requires lined { IsGoing self.old → IsLined (held window.old) }
        requires ready { IsGoing self.old → MayEnd self.old × MayGoOn self.old }
        ensures ok { OnOk result (EndsImage (view_of self.old learning.old) (held window.old)
            (P.view target.old).text (P.view target.new).text) }
        ensures cut { IsGoing self.old → OnErr result (CutsImage (view_of self.old learning.old)
            (held window.old) (P.view target.old).text (P.view target.new).text) }
        ensures closed { self.old.is_closed ≡ true → (result ≡ Err Write) × (self.new ≡ self.old) ×
            (learning.new ≡ learning.old) × (target.new ≡ target.old) }
        ensures few { AppendsEnd self.old (P.view target.old).text (P.view target.new).text }
        ensures ended { LeavesClosed self.old self.new result }
        ensures window { StaysWindow window.old window.new }
        ensures writes { IsGoing self.old → WritesOn (P.view target.old) (P.view target.new)
            result }
    {
        if self.is_closed {
            return Err(Fault::Write);
        }
        self.is_closed = true;
        self.end_last(window, learning, target)?;
        write_ending(self.rows, self.announced, self.reset, target)
    }

    /// Ends the last stripe, if it is still in progress.
    fn end_last<P: ByteTarget>(
        &mut self,
        window: &mut Window<'_>,
        learning: &mut Learning,
        target: &mut P,
    ) -> Result<(), Fault>
        requires lined { HasRows self.old.size.width window.old }
        requires ready { MayEnd self.old × IsAble self.old }
        ensures ok { OnOk result (EndsStripes (view_of self.old learning.old) (view_of self.new
            learning.new) (held window.old) (P.view target.old).text (P.view target.new).text) }
        ensures cut { OnErr result (CutsImage (view_of self.old learning.old) (held window.old)
            (P.view target.old).text (P.view target.new).text) }
        ensures few { AppendsAtMost (most_code_bytes self.old + 2) (P.view target.old).text
            (P.view target.new).text }
        ensures keeps { KeepsRows self.old self.new }
        ensures window { StaysWindow window.old window.new }
        ensures fails { WritesOrFails (P.view target.old) (P.view target.new) result }
    {
        if self.in_stripe == 0 {
            Ok(())
        } else {
            self.end_stripe(window, learning, target)
        }
    }
}
