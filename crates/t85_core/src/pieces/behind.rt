//! The steps of a decoder where a height may arrive next: before the first stripe, or behind an end marker.

ghost use Rattle.t85_core.specs.declared.fault.Fault.TheVariants.{Truncated};
ghost use Rattle.std.specs.Prelude.{◌≡◌, ◌<◌, ◌++◌, ℕ, Bool, List, None, IfErr, IfOk, min, true, false};
ghost use Rattle.qm_core.specs.Place.{Estimate};
ghost use Rattle.raster_core.specs.Packed.{Held};
ghost use Rattle.t85_core.specs.Lent.{KeepsLent, decoder_lent as over, decoder_view, phase_lent, phase_view, stage_lent};

use crate::fault::Fault;
use crate::laws::coder_laws;
use crate::lent::Lent;
use crate::pieces::code::InCode;
use crate::pieces::course::Stage;
use crate::pieces::head::{Head, SegmentPlace};
use crate::pieces::phase::{Behind, Phase};
use crate::pieces::piece::Piece;
use crate::pieces::{Outcome, PieceDecoder};
use crate::segments::{Code, Next, Place};
use qm_core::Decoder;

impl PieceDecoder {
    ghost use Rattle.t85_core.specs.Phases.{phase_waits};
    ghost use Rattle.t85_core.specs.declared.pieces.course.Stage.TheVariants as stage_type;
    ghost use Rattle.t85_core.specs.declared.pieces.phase.Behind.{Behind};
    ghost use Rattle.t85_core.specs.declared.pieces.phase.Phase.TheVariants as phase;
    ghost use Rattle.t85_core.specs.Options.{fields_of};
    ghost use Rattle.t85_core.specs.Private.Behind.{StopsBehind};
    ghost use Rattle.t85_core.specs.States.Behind.{behind_at};
    ghost use Rattle.t85_core.specs.States.PieceStands.{place_at};
    ghost use Rattle.t85_core.specs.States.Segments.{IsByteOrMarker, code_bytes};
    ghost use Rattle.t85_core.specs.Private.PieceSteps.{is_last_of, place_after, GivesBelow, HeightComes, Lowers, SomeStand, StepLeaves};

    /// Reads the marker segments before the first stripe, of which these have arrived.
    pub(super) fn step_first(
        &mut self,
        head: Head,
        piece: &mut Piece<'_>,
        is_all: bool,
    ) -> Option<Outcome>
        requires open { self.old.image.height ≡ self.old.image.header.yd }
        requires none { self.old.course.entities ≡ 0 }
        ensures leaves { (rows : Held) (learned : List Estimate) → StepLeaves is_all (phase_view
            self.old (phase.First head) rows learned) (decoder_view self.new rows learned)
            piece.old.rest.now piece.new.rest.now result }
        ensures lowers { Lowers true (phase_waits self.new.phase) piece.old.rest.now
            piece.new.rest.now result }
    {
        // The proof uses these laws of the coder.
        coder_laws();
        let mut head = head;
        let at = SegmentPlace {
            header: &self.image.header,
            place: self.place_of(self.course.entities),
            is_last: false,
        };
        match head.pass(at, piece) {
            Ok(coming) => {
                piece.rest = coming.rest;
                match coming.next {
                    Next::Height(height) => {
                        self.course.left = height;
                        self.course.given = true;
                        self.image.height = height;
                        self.phase = Phase::Known(Stage::Head(head));
                        None
                    }
                    Next::Code(code) => {
                        self.course.decoder = Decoder::start();
                        self.phase = Phase::Code(InCode::start(head.at, code));
                        None
                    }
                }
            }
            Err(fault) => {
                self.phase = Phase::First(head);
                if is_open_end(fault, is_all) {
                    return Some(Outcome::More);
                }
                Some(Outcome::Broken(fault))
            }
        }
    }

    /// Continues behind an end marker.
    pub(super) fn step_behind(
        &mut self,
        behind: Behind,
        lent: &mut Lent<'_, '_>,
        piece: &mut Piece<'_>,
        is_all: bool,
    ) -> Option<Outcome>
        requires open { self.old.image.height ≡ self.old.image.header.yd }
        ensures leaves { StepLeaves is_all (phase_lent self.old (phase.Behind behind) lent.old)
            (over self.new lent.new) piece.old.rest.now piece.new.rest.now result }
        ensures lowers { Lowers true (phase_waits self.new.phase) piece.old.rest.now
            piece.new.rest.now result }
        ensures lent { KeepsLent lent.old lent.new }
    {
        let mut behind = behind;
        let at = SegmentPlace {
            header: &self.image.header,
            place: self.place_behind(),
            is_last: self.is_last(),
        };
        match behind.head.pass(at, piece) {
            Ok(coming) => match coming.next {
                Next::Height(height) => {
                    self.take_height(behind, height, coming.rest, lent, piece)
                }
                Next::Code(code) => {
                    self.go_past(behind, Ok((code, coming.rest)), lent, piece, is_all)
                }
            },
            Err(fault) => {
                if is_open_end(fault, is_all) {
                    self.phase = Phase::Behind(behind);
                    return Some(Outcome::More);
                }
                self.go_past(behind, Err(fault), lent, piece, is_all)
            }
        }
    }

    /// The position of marker segments behind this many stripe data entities.
    fn place_of(&self, entities: u32) -> Place
        ensures { result ≡ place_at self.now.image.header.yd entities }
    {
        Place {
            height: self.image.header.yd,
            entities,
            given: false,
        }
    }

    /// The position behind the end marker of the stripe.
    fn place_behind(&self) -> Place
        ensures { (behind : Behind) → result ≡ place_after self.now behind }
    {
        self.place_of(self.course.entities + 1)
    }

    /// Whether the stripe is the last that the header's height implies.
    fn is_last(&self) -> bool
        ensures { (behind : Behind) → result ≡ is_last_of self.now behind }
    {
        self.course.left <= self.image.header.l0
    }

    /// Handles a valid height that comes next: it becomes the current height, after the rows of the previous stripe
    /// that it includes; or the image ends there.
    fn take_height<'c>(
        &mut self,
        behind: Behind,
        height: u32,
        rest: &'c [u8],
        lent: &mut Lent<'_, '_>,
        piece: &mut Piece<'c>,
    ) -> Option<Outcome>
        requires open { self.old.image.height ≡ self.old.image.header.yd }
        requires between { behind.head.comment ≡ None }
        requires comes { HeightComes (fields_of self.old.image.header) (stage_lent self.old.course
            (stage_type.Code behind.code) lent.old) height piece.old.rest.now rest.now }
        ensures leaves { (is_all : Bool) → StepLeaves is_all (phase_lent self.old (phase.Behind
            behind) lent.old) (over self.new lent.new) piece.old.rest.now piece.new.rest.now
            result }
        ensures lowers { Lowers true (phase_waits self.new.phase) piece.old.rest.now
            piece.new.rest.now result }
        ensures lent { KeepsLent lent.old lent.new }
    {
        // The proof uses these laws of the coder.
        coder_laws();
        let left = self.course.left - (self.image.header.yd - height);
        if behind.code.row < left.min(self.image.header.l0) {
            self.give_row(behind, lent);
            return Some(Outcome::Row);
        }
        piece.rest = rest;
        if left <= self.image.header.l0 {
            self.course.left = left;
            self.image.height = height;
            self.phase = Phase::Late;
            return Some(Outcome::Done(height));
        }
        let reset = behind.code.resets();
        let _follows = self.course.end_stripe(&self.image, reset, lent);
        self.course.left = left - self.image.header.l0;
        self.course.given = true;
        self.image.height = height;
        self.phase = Phase::Known(Stage::Head(behind.head));
        None
    }

    /// No height comes next, but a code, or an error, which may be the end of the stream. After the remaining rows of the
    /// previous stripe, the image ends if that was the last; otherwise the code begins the next stripe, or the error is
    /// reported.
    fn go_past<'c>(
        &mut self,
        behind: Behind,
        next: Result<(Code, &'c [u8]), Fault>,
        lent: &mut Lent<'_, '_>,
        piece: &mut Piece<'c>,
        is_all: bool,
    ) -> Option<Outcome>
        requires open { self.old.image.height ≡ self.old.image.header.yd }
        requires code { IfOk next (λ ahead. (behind.head.comment ≡ None) × IsByteOrMarker ahead.0 ×
            (piece.old.rest.now ≡ code_bytes ahead.0 ++ ahead.1.now)) }
        requires fault { IfErr next (λ fault. (fault ≡ Truncated → is_all ≡ true) × StopsBehind
            (fields_of self.old.image.header) (behind_at (place_after self.old behind)
            (is_last_of self.old behind)) behind.head piece.old.rest.now fault) }
        ensures leaves { StepLeaves is_all (phase_lent self.old (phase.Behind behind) lent.old)
            (over self.new lent.new) piece.old.rest.now piece.new.rest.now result }
        ensures lowers { Lowers true (phase_waits self.new.phase) piece.old.rest.now
            piece.new.rest.now result }
        ensures lent { KeepsLent lent.old lent.new }
    {
        // The proof uses these laws of the coder.
        coder_laws();
        if behind.code.row < self.course.left.min(self.image.header.l0) {
            self.give_row(behind, lent);
            return Some(Outcome::Row);
        }
        let reset = behind.code.resets();
        let follows = self.course.end_stripe(&self.image, reset, lent);
        if !follows {
            self.phase = Phase::Known(Stage::Done);
            return Some(Outcome::Done(self.image.height));
        }
        match next {
            Ok((code, rest)) => {
                piece.rest = rest;
                self.course.decoder = Decoder::start();
                self.phase = Phase::Code(InCode::start(behind.head.at, code));
                None
            }
            Err(fault) => {
                self.phase = Phase::Known(Stage::Head(behind.head));
                Some(Outcome::Broken(fault))
            }
        }
    }

    /// Decodes the next row of the stripe before an end marker. It was held back because only the marker determines it.
    fn give_row(&mut self, behind: Behind, lent: &mut Lent<'_, '_>)
        requires open { self.old.image.height ≡ self.old.image.header.yd }
        requires left { behind.code.row < min self.old.course.left self.old.image.header.l0 }
        ensures gives { (limit : ℕ) → behind.code.row < limit → SomeStand (phase_lent self.old
            (phase.Behind behind) lent.old) → GivesBelow (phase_lent self.old (phase.Behind behind)
            lent.old) (over self.new lent.new) limit }
        ensures same { (self.new.image.header ≡ self.old.image.header) × (self.new.end ≡
            self.old.end) }
        ensures lent { KeepsLent lent.old lent.new }
    {
        let mut behind = behind;
        let mut none = Piece { rest: &[] };
        // The end marker has been read, so the row ends.
        let _ = behind
            .code
            .next_row(&self.image, false, &mut self.course, lent, &mut none);
        self.phase = Phase::Behind(behind);
    }
}

/// Whether bytes have ended that are not the last.
fn is_open_end(fault: Fault, is_all: bool) -> bool
    ensures yes { result ≡ true → (fault ≡ Truncated) × (is_all ≡ false) }
    ensures no { result ≡ false → fault ≡ Truncated → is_all ≡ true }
{
    match fault {
        Fault::Truncated => !is_all,
        _ => false,
    }
}
