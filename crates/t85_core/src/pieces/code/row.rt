//! Decodes a row of a stripe.

ghost use Rattle.std.specs.Prelude.{◌≡◌, ◌≤◌, ◌<◌, ◌+◌, ℕ, List, [], None, Ok, Some, true, false, length, min};
ghost use Rattle.qm_core.specs.Place.{Estimate};
ghost use Rattle.raster_core.specs.Row.{IsRowStart};
ghost use Rattle.raster_core.specs.Window.{held, width_of};
ghost use Rattle.raster_core.specs.declared.place.RowPlace.{RowPlace};
ghost use Rattle.t85_core.specs.Lent.{KeepsWindow, KeepsLent, code_lent as over, code_view};
ghost use Rattle.t85_core.specs.declared.pieces.course.Course.{Course};
ghost use Rattle.t85_core.specs.States.PieceCode.{MarkerRead};
ghost use Rattle.t85_core.specs.Private.Pieces.{KeepsStripes, SomeStands};
ghost use Rattle.t85_core.specs.States.Pieces.{WalkStands};
ghost use Rattle.t85_core.specs.Private.RowTurns.{BegunLeaves, BegunStep, CodeGoes};
ghost use Rattle.t85_core.specs.States.SizedImage.{sized, sized_of};
ghost use Rattle.t85_core.specs.Header.{Fields};

use crate::fault::Fault;
use crate::header::SizedImage;
use crate::laws::coder_laws;
use crate::lent::Lent;
use crate::pieces::code::InCode;
use crate::pieces::code::rows::offset_in;
use crate::pieces::course::Course;
use crate::pieces::piece::{Piece, PieceCode};
use crate::segments::Code;
use qm_core::Decoder;
use raster_core::{Kept, RowPlace, Window, go_on_row};
use std::mem::replace;

/// A whole row, and the rest of a row: each is compiled separately.
const WHOLE_ROW: usize = 0;

const REST_OF_ROW: usize = 1;

/// A row that has begun.
#[derive(Clone, Copy)]
struct BegunRow {
    /// How far it is decoded.
    place: RowPlace,
    /// Whether it waits at the end marker of its code.
    waits: bool,
}

impl InCode {
    ghost use Rattle.t85_core.specs.declared.pieces.code.InCode.{InCode};

    /// Continues to the end of the next row, and returns true; or returns false at the end marker, if it `waits` there.
    pub fn next_row(
        &mut self,
        image: &SizedImage,
        waits: bool,
        course: &mut Course,
        lent: &mut Lent<'_, '_>,
        piece: &mut Piece<'_>,
    ) -> Result<bool, Fault>
        requires left { self.old.row < min course.old.left image.now.header.l0 }
        ensures step { BegunStep (sized_of image.now) (over course.old self.old lent.old)
            (over course.new self.new lent.new) piece.old.rest.now piece.new.rest.now result }
        ensures leaves { SomeStands (sized_of image.now) (over course.old self.old lent.old) →
            BegunLeaves waits (over course.old self.old lent.old) (over course.new self.new
            lent.new) result }
        ensures stripe { KeepsStripes course.old course.new }
        ensures no_more { length piece.new.rest.now ≤ length piece.old.rest.now }
        ensures lent { KeepsLent lent.old lent.new }
    {
        // No call leaves a position that is not in a row of this width, but a caller may store one. The row ends.
        let reached = self.begun.unwrap_or(RowPlace::start());
        if reached.done() >= lent.window.width() {
            self.begun = None;
            self.row += 1;
            return Ok(true);
        }
        match self.begun {
            Some(place) => {
                let begun = BegunRow { place, waits };
                self.finish_row::<REST_OF_ROW>(image, begun, course, lent, piece)
            }
            None => {
                self.enter_row(&mut course.kept, lent.window);
                let place = RowPlace::start();
                let begun = BegunRow { place, waits };
                self.finish_row::<WHOLE_ROW>(image, begun, course, lent, piece)
            }
        }
    }

    /// While a height may still arrive: continues to the end of the next row of the stripe and returns true, or reads
    /// the end marker ahead and returns false. A row that only the marker determines is not decoded.
    pub fn row_before_marker(
        &mut self,
        image: &SizedImage,
        course: &mut Course,
        lent: &mut Lent<'_, '_>,
        piece: &mut Piece<'_>,
    ) -> Result<bool, Fault>
        ensures goes { (MarkerRead self.old.marker self.old.first → ⊥) → CodeGoes (sized_of
            image.now) (over course.old self.old lent.old) (over course.new self.new lent.new)
            piece.old.rest.now piece.new.rest.now result }
        ensures stripe { KeepsStripes course.old course.new }
        ensures no_more { length piece.new.rest.now ≤ length piece.old.rest.now }
        ensures lent { KeepsLent lent.old lent.new }
    {
        if self.row < course.left.min(image.header.l0) {
            return self.next_row(image, true, course, lent, piece);
        }
        self.find_end(image, piece)?;
        Ok(false)
    }

    /// Moves down to the next row of a stripe, and performs its move.
    fn enter_row(&self, kept: &mut Kept, window: &mut Window<'_>)
        ensures enters { (h : Fields) (height : ℕ) (course : Course) (place : RowPlace) (learned :
            List Estimate) (text out : List ℕ) → self.now.begun ≡ None → self.now.row < min
            course.left h.l0 → IsRowStart place → place.done < h.xd → WalkStands (sized h height)
            (code_view (record course { kept = kept.old }) self.now (held window.old) learned) text
            out → WalkStands (sized h height) (code_view (record course { kept = kept.new }) (record
            self.now { begun = Some place }) (held window.new) learned) text out }
        ensures window { KeepsWindow window.old window.new }
    {
        kept.offset = offset_in(self.at, self.row, kept.offset);
        window.turn();
    }

    /// Continues decoding a row of a stripe, of which this much is decoded. `PART` says whether the row has just begun.
    #[inline(always)]
    fn finish_row<const PART: usize>(
        &mut self,
        image: &SizedImage,
        row: BegunRow,
        course: &mut Course,
        lent: &mut Lent<'_, '_>,
        piece: &mut Piece<'_>,
    ) -> Result<bool, Fault>
        requires inside { row.place.done < width_of lent.old.window.now }
        requires left { self.old.row < min course.old.left image.now.header.l0 }
        ensures step { BegunStep (sized_of image.now) (over course.old (record self.old {
          begun =
              Some row.place;
        }) lent.old) (over course.new self.new lent.new) piece.old.rest.now
            piece.new.rest.now result }
        ensures leaves { SomeStands (sized_of image.now) (over course.old (record self.old {
          begun =
              Some row.place;
        }) lent.old) → BegunLeaves row.waits (over course.old (record self.old
            { begun = Some row.place }) lent.old) (over course.new self.new lent.new) result }
        ensures stripe { KeepsStripes course.old course.new }
        ensures no_more { length piece.new.rest.now ≤ length piece.old.rest.now }
        ensures lent { KeepsLent lent.old lent.new }
    {
        // The proof uses these laws of the coder.
        coder_laws();
        // Both are local until the row ends or waits, so that the compiler keeps them in registers.
        let mut place = row.place;
        let mut local = replace(&mut course.decoder, Decoder::start());
        local.resume();
        let mut code: PieceCode<'_, PART> = PieceCode {
            piece: Piece { rest: piece.rest },
            first: self.first,
            marker: self.marker,
            waits: row.waits,
            fault: None,
            failures: 0,
        };
        let mut shape = image.header.shape();
        shape.width = lent.window.width();
        let went = go_on_row(
            shape,
            &mut place,
            &mut course.kept,
            lent.window,
            lent.learned,
            &mut local,
            &mut code,
        );
        let is_whole = went.is_ok();
        let answer = code.row_result(is_whole);
        course.decoder = local;
        self.first = code.first;
        self.marker = code.marker;
        piece.rest = code.piece.rest;
        if answer.unwrap_or(false) {
            self.begun = None;
            self.row += 1;
        } else {
            self.begun = Some(place);
        }
        answer
    }
}
