//! The steps of a decoder in pieces.

ghost use Rattle.std.specs.Prelude.{◌≡◌, ◌≢◌, ◌≤◌, ℕ, length, Some, true, false};
ghost use Rattle.t85_core.specs.declared.pieces.Outcome.TheVariants as outcome;
ghost use Rattle.t85_core.specs.declared.fault.Fault.{Fault};
ghost use Rattle.t85_core.specs.declared.fault.Fault.TheVariants.{Truncated};
ghost use Rattle.t85_core.specs.Lent.{KeepsLent, decoder_lent as over};

use crate::fault::Fault;
use crate::lent::Lent;
use crate::pieces::phase::{Behind, Phase};
use crate::pieces::piece::Piece;
use crate::pieces::{Outcome, PieceDecoder};

impl PieceDecoder {
    ghost use Rattle.t85_core.specs.Phases.{phase_waits};
    ghost use Rattle.t85_core.specs.Private.PieceSteps.{Lowers, StepLeaves};

    /// Continues up to the next row or the end, or as far as the bytes allow.
    #[inline(always)]
    pub(super) fn go_on(
        &mut self,
        lent: &mut Lent<'_, '_>,
        piece: &mut Piece<'_>,
        is_all: bool,
    ) -> Outcome
        ensures leaves { StepLeaves is_all (over self.old lent.old) (over self.new
            lent.new) piece.old.rest.now piece.new.rest.now (Some result) }
        ensures no_more { length piece.new.rest.now ≤ length piece.old.rest.now }
        ensures lent { KeepsLent lent.old lent.new }
    {
        'steps: loop {
            if let Some(outcome) = self.step(lent, piece, is_all) {
                return outcome;
            }
        }
    }

    /// Takes one step: to a row, to the end, to where more input is needed, or to where another step can be taken.
    #[inline(always)]
    fn step(
        &mut self,
        lent: &mut Lent<'_, '_>,
        piece: &mut Piece<'_>,
        is_all: bool,
    ) -> Option<Outcome>
        ensures leaves { StepLeaves is_all (over self.old lent.old) (over self.new
            lent.new) piece.old.rest.now piece.new.rest.now result }
        ensures lowers { Lowers (phase_waits self.old.phase) (phase_waits self.new.phase)
            piece.old.rest.now piece.new.rest.now result }
        ensures lent { KeepsLent lent.old lent.new }
    {
        match &mut self.phase {
            Phase::Known(stage) => match self.course.next(stage, &self.image, lent, piece) {
                Ok(true) => Some(Outcome::Row),
                Ok(false) => Some(Outcome::Done(self.image.height)),
                Err(fault) => Some(outcome_of(fault, is_all)),
            },
            Phase::First(head) => {
                let head = *head;
                self.step_first(head, piece, is_all)
            }
            Phase::Code(code) => {
                if code.end_marker().is_some() {
                    self.phase = Phase::Behind(Behind::start(*code));
                    return None;
                }
                match code.row_before_marker(&self.image, &mut self.course, lent, piece) {
                    Ok(true) => Some(Outcome::Row),
                    Ok(false) => {
                        self.phase = Phase::Behind(Behind::start(*code));
                        None
                    }
                    Err(fault) => Some(outcome_of(fault, is_all)),
                }
            }
            Phase::Behind(behind) => {
                let behind = *behind;
                self.step_behind(behind, lent, piece, is_all)
            }
            Phase::Late => Some(Outcome::Done(self.image.height)),
        }
    }
}

/// The outcome for an error: the end of the bytes is an error only if they are the last.
fn outcome_of(fault: Fault, is_all: bool) -> Outcome
    ensures more { result ≡ outcome.More → (fault ≡ Truncated) × (is_all ≡ false) }
    ensures broken { (f : Fault) → result ≡ outcome.Broken f → (f ≡ fault) × (f ≡ Truncated → is_all
        ≡ true) }
    ensures row { result ≢ outcome.Row }
    ensures done { (n : ℕ) → result ≢ outcome.Done n }
{
    match fault {
        Fault::Truncated => {
            if is_all {
                Outcome::Broken(fault)
            } else {
                Outcome::More
            }
        }
        _ => Outcome::Broken(fault),
    }
}
