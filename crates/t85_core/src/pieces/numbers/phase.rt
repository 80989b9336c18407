//! The phase of a decoder in pieces as numbers.

ghost use Rattle.std.specs.Prelude.{◌≡◌, Some, IfSome};
ghost use Rattle.t85_core.specs.Numbers.{AreHeadNumbers, ArePhaseNumbers, AreStageNumbers, StageFits, waits_number};
ghost use Rattle.t85_core.specs.Options.{fields_of};
ghost use Rattle.t85_core.specs.Phases.{phase_stage};
ghost use Rattle.t85_core.specs.declared.pieces.phase.Phase.{Phase};

use crate::header::Header;
use crate::pieces::code::InCode;
use crate::pieces::course::Stage;
use crate::pieces::head::Head;
use crate::pieces::numbers::PieceNumbers;
use crate::pieces::phase::{Behind, Phase};

/// The number of a phase while a height may arrive.
pub(super) fn number_of_waits(phase: &Phase) -> u8
    ensures { result ≡ waits_number phase.now }
{
    match phase {
        Phase::First(_) => 1,
        Phase::Behind(_) => 1,
        Phase::Late => 2,
        _ => 0,
    }
}

impl PieceNumbers {
    ghost use Rattle.std.specs.Prelude.{◌⊎◌};
    ghost use Rattle.t85_core.specs.Stages.{head_start};
    ghost use Rattle.t85_core.specs.declared.pieces.head.Head.{Head};
    ghost use Rattle.t85_core.specs.declared.pieces.phase.Phase.TheVariants as phase;

    /// Whether a height may still arrive in a stream with this header, and what comes next.
    #[inline(always)]
    pub(super) fn phase(&self, header: &Header) -> Option<Phase>
        ensures all { (phase : Phase) → ArePhaseNumbers self.now phase → AreStageNumbers
            self.now.stage (phase_stage phase) → StageFits (fields_of header.now) self.now.left
            (phase_stage phase) → result ≡ Some phase }
        ensures is { IfSome result (λ phase. ArePhaseNumbers self.now phase × AreStageNumbers
            self.now.stage (phase_stage phase) × StageFits (fields_of header.now) self.now.left
            (phase_stage phase)) }
    {
        let stage = self.stage.stage(header, self.left)?;
        if self.is_open == 0 {
            return Some(Phase::Known(stage));
        }
        match stage {
            Stage::Head(head) => self.first(head),
            Stage::Code(code) => self.phase_in(code),
            Stage::Done => {
                if self.waits == 2 {
                    Some(Phase::Late)
                } else {
                    None
                }
            }
        }
    }

    /// Before the first stripe, if this stage contains no marker segments: those that have arrived are stored separately.
    #[inline(always)]
    fn first(&self, head: Head) -> Option<Phase>
        ensures all { (other : Head) → self.now.waits ≡ 1 → head ≡ head_start → AreHeadNumbers
            self.now.behind other → result ≡ Some (phase.First other) }
        ensures is { IfSome result (λ p. (other : Head) × (p ≡ phase.First other) × (head ≡
            head_start) × (self.now.waits ≡ 1) × AreHeadNumbers self.now.behind other) }
    {
        let is_start = head.at.is_none() && head.comment.is_none();
        if self.waits != 1 || !is_start {
            return None;
        }
        Some(Phase::First(self.behind.head()?))
    }

    /// In this code, or behind its end marker.
    #[inline(always)]
    fn phase_in(&self, code: InCode) -> Option<Phase>
        ensures code { self.now.waits ≡ 0 → result ≡ Some (phase.Code code) }
        ensures behind { (head : Head) → self.now.waits ≡ 1 → AreHeadNumbers self.now.behind head →
            result ≡ Some (phase.Behind (record { code = code; head = head })) }
        ensures is { IfSome result (λ p. ((p ≡ phase.Code code) × (self.now.waits ≡ 0)) ⊎ ((head :
            Head) × (p ≡ phase.Behind (record { code = code; head = head })) × (self.now.waits ≡ 1)
            × AreHeadNumbers self.now.behind head)) }
    {
        match self.waits {
            0 => Some(Phase::Code(code)),
            1 => {
                let head = self.behind.head()?;
                Some(Phase::Behind(Behind { code, head }))
            }
            _ => None,
        }
    }
}
