//! The code of a stripe that arrives in pieces.

ghost use Rattle.std.specs.Prelude.{◌≡◌, ◌<◌, Bool, ℕ, None, Some};
ghost use Rattle.t85_core.specs.declared.segments.Code.TheVariants as code;

mod find;
mod row;
mod rows;

use crate::fault::Fault;
use crate::header::SizedImage;
use crate::laws::coder_laws;
use crate::lent::Lent;
use crate::pieces::code::find::find_marker;
use crate::pieces::code::rows::is_settled;
use crate::pieces::course::Course;
use crate::pieces::piece::Piece;
use crate::segments::{Code, Move};
use raster_core::{RowPlace, skip_rows};

/// The state in the code of a stripe.
#[derive(Clone, Copy, Drop)]
pub struct InCode {
    /// The move of the stripe.
    pub at: Option<Move>,
    /// The number of rows of the stripe that are decoded.
    pub row: u32,
    /// How far the next row is decoded, if it has begun.
    pub begun: Option<RowPlace>,
    /// The byte or marker that was read ahead of the rows.
    pub first: Option<Code>,
    /// Whether the end marker resets, once a row has read it.
    pub marker: Option<bool>,
    ghost small: { (b : ℕ) → first ≡ Some (code.Byte b) → b < 256 },
    ghost behind: { (r : Bool) → marker ≡ Some r → first ≡ None },
}

impl InCode {
    ghost use Rattle.std.specs.Prelude.{◌≢◌, ◌≤◌, ◌++◌, List, length, IfErr, IfOk, OnOk};
    ghost use Rattle.raster_core.specs.Window.{held};
    ghost use Rattle.t85_core.specs.declared.fault.Fault.TheVariants.{Changed};
    ghost use Rattle.t85_core.specs.Lent.{KeepsLent, code_lent};
    ghost use Rattle.t85_core.specs.Options.{fields_of};
    ghost use Rattle.t85_core.specs.Repeats.{RowsCanRepeat};
    ghost use Rattle.t85_core.specs.Stages.{StartsCode};
    ghost use Rattle.t85_core.specs.RowSink.{copies};
    ghost use Rattle.t85_core.specs.Private.InTime.{ReachesMarker};
    ghost use Rattle.t85_core.specs.States.PieceCode.{MarkerIs, MarkerRead};
    ghost use Rattle.t85_core.specs.Private.Pieces.{AfterRows, KeepsStripes, SomeStands, Step};
    ghost use Rattle.t85_core.specs.States.Pieces.{WalkStands};
    ghost use Rattle.t85_core.specs.States.SizedImage.{sized_of};

    /// Before the first row of a stripe with this move. The first element of its code has been read.
    pub fn start(at: Option<Move>, first: Code) -> InCode
        ensures { StartsCode at first result }
    {
        InCode {
            at,
            row: 0,
            begun: None,
            first: Some(first),
            marker: None,
        }
    }

    /// Whether the end marker resets, once it has been read.
    pub fn end_marker(&self) -> Option<bool>
        ensures some { (reset : Bool) → result ≡ Some reset →
            MarkerIs reset self.now.marker self.now.first }
        ensures none { result ≡ None → MarkerRead self.now.marker self.now.first → ⊥ }
    {
        match self.first {
            Some(Code::Marker(reset)) => Some(reset),
            _ => self.marker,
        }
    }

    /// Whether the end marker resets, given that it has been read.
    pub fn resets(&self) -> bool
        ensures { (reset : Bool) → MarkerIs reset self.now.marker self.now.first → reset ≡ result }
    {
        matches!(self.end_marker(), Some(true))
    }

    /// Decodes rows of the stripe that equal the one before, as long as the bits already read determine them, but at most
    /// `most`, and returns how many. The window contains the last of them.
    #[inline(always)]
    pub fn repeat(
        &mut self,
        image: &SizedImage,
        course: &mut Course,
        lent: &mut Lent<'_, '_>,
        most: u32,
    ) -> u32
        ensures on { (text out : List ℕ) → WalkStands (sized_of image.now) (code_lent course.old
            self.old lent.old) text out → WalkStands (sized_of image.now) (code_lent course.new
            self.new lent.new) text (out ++ copies result (held lent.new.window.now).current) }
        ensures few { result ≤ most }
        ensures all { result < most → RowsCanRepeat (fields_of image.now.header) (code_lent
            course.new self.new lent.new) → ⊥ }
        ensures begun { 0 < result → self.new.begun ≡ None }
        ensures row { (held lent.new.window.now).current ≡ (held lent.old.window.now).current }
        ensures same { (self.new.first ≡ self.old.first) × (self.new.marker ≡ self.old.marker) ×
            (course.new.given ≡ course.old.given) }
        ensures stripe { KeepsStripes course.old course.new }
        ensures none { result ≡ 0 → (self.new ≡ self.old) × (course.new ≡ course.old) ×
            (lent.new.window.now ≡ lent.old.window.now) ×
            (lent.new.learned.now ≡ lent.old.learned.now) }
        ensures lent { KeepsLent lent.old lent.new }
    {
        // Most rows that do not repeat end here.
        if !course.kept.previous_typical {
            return 0;
        }
        let rows = course.left.min(image.header.l0);
        if self.begun.is_some() || self.row >= rows || !is_settled(self.at, self.row) {
            return 0;
        }
        let (shape, left) = (image.header.shape(), (rows - self.row).min(most));
        let count = skip_rows(shape, course.kept, lent.learned, &mut course.decoder, left);
        if count == 0 {
            return 0;
        }
        lent.window.repeat();
        self.row += count;
        count
    }

    /// Skips the rest of the code, after the last row, up to its end marker, and returns whether that resets. Reads the
    /// marker ahead. If it has not arrived yet, skips the bytes that have.
    pub fn find_end(&mut self, image: &SizedImage, piece: &mut Piece<'_>) -> Result<bool, Fault>
        ensures step { AfterRows image.now.header.l0 (λ w w'. Step (sized_of image.now) w w'
            piece.old.rest.now piece.new.rest.now result) self.old self.new }
        ensures in_time { (MarkerRead self.old.marker self.old.first → ⊥) → AfterRows
            image.now.header.l0 (λ w w'. OnOk result (ReachesMarker (sized_of image.now) w
            piece.old.rest.now piece.new.rest.now)) self.old self.new }
        ensures other { AfterRows image.now.header.l0 (λ w w'. SomeStands (sized_of image.now) w →
            IfErr result (λ f. f ≢ Changed)) self.old self.new }
        ensures same { (self.new.at ≡ self.old.at) × (self.new.row ≡ self.old.row) ×
            (self.new.begun ≡ self.old.begun) × (self.new.marker ≡ self.old.marker) }
        ensures marked { IfOk result (λ reset. MarkerIs reset self.new.marker self.new.first) }
        ensures none { IfErr result (λ _. (self.new.first ≡ None) × (self.new.marker ≡ None)) }
        ensures no_more { length piece.new.rest.now ≤ length piece.old.rest.now }
    {
        // The proof uses these laws of the coder.
        coder_laws();
        if let Some(reset) = self.end_marker() {
            return Ok(reset);
        }
        let reset = find_marker(&mut self.first, self.marker, piece)?;
        self.first = Some(Code::Marker(reset));
        Ok(reset)
    }
}
