//! The next item in a stream as numbers.

ghost use Rattle.std.specs.Prelude.{◌≡◌, ◌<◌, Bool, Option, Some, None, ℕ, IfSome};
ghost use Rattle.raster_core.specs.declared.place.RowPlace.{RowPlace};
ghost use Rattle.t85_core.specs.Numbers.{AreCodeNumbers, AreMoveNumbers, AreStageNumbers, IsCodeNext, StageFits, code_number, marker_number, place_numbers, stage_numbers};
ghost use Rattle.t85_core.specs.declared.pieces.code.InCode.{InCode};
ghost use Rattle.t85_core.specs.Options.{fields_of};
ghost use Rattle.t85_core.specs.Phases.{phase_stage};
ghost use Rattle.t85_core.specs.declared.pieces.course.Stage.{Stage};
ghost use Rattle.t85_core.specs.declared.pieces.course.Stage.TheVariants as stage_type;
ghost use Rattle.t85_core.specs.declared.segments.atmove.Move.{Move};
ghost use Rattle.t85_core.specs.declared.segments.Code.{Code};
ghost use Rattle.t85_core.specs.declared.segments.Code.TheVariants as code;

use crate::header::Header;
use crate::pieces::code::InCode;
use crate::pieces::course::Stage;
use crate::pieces::head::Head;
use crate::pieces::numbers::{MoveNumbers, StageNumbers};
use crate::pieces::phase::Phase;
use crate::segments::Code;
use raster_core::{RowPlace, RowPlaceNumbers};

fn number_of_code(code: Option<Code>) -> u16
    ensures { result ≡ code_number code }
{
    match code {
        None => 0,
        Some(Code::Marker(reset)) => { if reset { 2 } else { 1 } }
        Some(Code::Byte(byte)) => 256 + u16::from(byte),
    }
}

/// The byte or marker read ahead, or none, that has this number.
fn code_of(number: u16) -> Option<Option<Code>>
    ensures all { (ahead : Option Code) → ((b : ℕ) → ahead ≡ Some (code.Byte b) → b < 256) →
        number ≡ code_number ahead → result ≡ Some ahead }
    ensures is { IfSome result (λ ahead. number ≡ code_number ahead) }
    ensures small { IfSome result (λ ahead. (b : ℕ) → ahead ≡ Some (code.Byte b) → b < 256) }
{
    match number {
        0 => Some(None),
        1 => Some(Some(Code::Marker(false))),
        2 => Some(Some(Code::Marker(true))),
        256..=511 => Some(Some(Code::Byte((number - 256) as u8))),
        _ => None,
    }
}

fn number_of_marker(marker: Option<bool>) -> u8
    ensures { result ≡ marker_number marker }
{
    match marker {
        None => 0,
        Some(false) => 1,
        Some(true) => 2,
    }
}

/// The end marker that was read, or none, that has this number.
fn marker_of(number: u8) -> Option<Option<bool>>
    ensures all { (marker : Option Bool) → number ≡ marker_number marker → result ≡ Some marker }
    ensures is { IfSome result (λ marker. number ≡ marker_number marker) }
{
    match number {
        0 => Some(None),
        1 => Some(Some(false)),
        2 => Some(Some(true)),
        _ => None,
    }
}

/// The numbers of no place in a row.
fn no_place() -> RowPlaceNumbers
    ensures { result ≡ place_numbers None }
{
    RowPlaceNumbers {
        is_begun: 0,
        done: 0,
        past_high: 0,
        past_low: 0,
    }
}

impl StageNumbers {
    /// Nothing comes next.
    #[inline(always)]
    pub(super) fn done() -> StageNumbers
        ensures { result ≡ stage_numbers stage_type.Done }
    {
        StageNumbers {
            at: MoveNumbers::none(),
            comment: 0,
            row: 0,
            place: no_place(),
            ahead: 0,
            marker: 0,
            next: 4,
        }
    }

    /// Stores the next item, apart from marker segments among which a height may arrive.
    #[inline(always)]
    pub(super) fn store(&mut self, phase: &Phase)
        ensures { self.new ≡ stage_numbers (phase_stage phase.now) }
    {
        match phase {
            Phase::Known(stage) => self.store_stage(stage),
            Phase::First(_) => self.store_head(Head::start()),
            Phase::Code(code) => self.store_code(code),
            Phase::Behind(behind) => self.store_code(&behind.code),
            Phase::Late => *self = StageNumbers::done(),
        }
    }

    /// Stores the next item if the height is known.
    #[inline(always)]
    fn store_stage(&mut self, stage: &Stage)
        ensures { self.new ≡ stage_numbers stage.now }
    {
        match stage {
            Stage::Head(head) => self.store_head(*head),
            Stage::Code(code) => self.store_code(code),
            Stage::Done => *self = StageNumbers::done(),
        }
    }

    /// Stores the marker segments of a stripe.
    #[inline(always)]
    fn store_head(&mut self, head: Head)
        ensures { self.new ≡ stage_numbers (stage_type.Head head) }
    {
        self.at.store(head.at);
        self.comment = head.comment.unwrap_or(0);
        self.row = 0;
        self.place = no_place();
        self.ahead = 0;
        self.marker = 0;
        self.next = u8::from(head.comment.is_some());
    }

    /// Stores the code of a stripe.
    #[inline(always)]
    fn store_code(&mut self, code: &InCode)
        ensures { self.new ≡ stage_numbers (stage_type.Code code.now) }
    {
        self.at.store(code.at);
        self.comment = 0;
        self.row = code.row;
        self.ahead = number_of_code(code.first);
        self.marker = number_of_marker(code.marker);
        match code.begun {
            None => {
                self.place = no_place();
                self.next = 2;
            }
            Some(place) => {
                self.place = place.numbers();
                self.next = 3;
            }
        }
    }

    /// The next item that has these numbers, if there is one where so many rows are left of an image with this header.
    #[inline(always)]
    pub(super) fn stage(&self, header: &Header, left: u32) -> Option<Stage>
        ensures all { (stage : Stage) → AreStageNumbers self.now stage → StageFits (fields_of
            header.now) left stage → result ≡ Some stage }
        ensures is { IfSome result (λ stage. AreStageNumbers self.now stage × StageFits (fields_of
            header.now) left stage) }
    {
        let rows = left.min(header.l0);
        match self.next {
            0 => Some(Stage::Head(self.head(None)?)),
            1 => Some(Stage::Head(self.head(Some(self.comment))?)),
            2 if self.row <= rows => Some(Stage::Code(self.code(None)?)),
            3 if self.row < rows && self.place.done < header.xd => {
                let place = RowPlace::from_numbers(self.place)?;
                Some(Stage::Code(self.code(Some(place))?))
            }
            4 => Some(Stage::Done),
            _ => None,
        }
    }

    /// The marker segments of a stripe, with this many bytes of a comment still to come.
    #[inline(always)]
    fn head(&self, comment: Option<u32>) -> Option<Head>
        ensures all { (at : Option Move) → AreMoveNumbers self.now.at at →
            result ≡ Some (record { at = at; comment = comment }) }
        ensures is { IfSome result (λ head. AreMoveNumbers self.now.at head.at ×
            (head.comment ≡ comment)) }
    {
        Some(Head {
            at: self.at.at()?,
            comment,
        })
    }

    /// The code of a stripe, the next row of which is decoded so far.
    #[inline(always)]
    fn code(&self, begun: Option<RowPlace>) -> Option<InCode>
        ensures all { (c : InCode) → c.begun ≡ begun → AreCodeNumbers self.now c →
            result ≡ Some c }
        ensures is { IsCodeNext self.now begun → IfSome result (AreCodeNumbers self.now) }
    {
        let first = code_of(self.ahead)?;
        let marker = marker_of(self.marker)?;
        if first.is_some() && marker.is_some() {
            return None;
        }
        Some(InCode {
            at: self.at.at()?,
            row: self.row,
            begun,
            first,
            marker,
        })
    }
}
