//! The stripes of an image that are decoded.

ghost use Rattle.std.specs.Prelude.{◌≡◌, ◌≤◌, ◌<◌, ◌+◌, ◌^◌, false};

use crate::fault::Fault;
use crate::header::SizedImage;
use crate::laws::coder_laws;
use crate::lent::Lent;
use crate::pieces::code::InCode;
use crate::pieces::head::{Head, SegmentPlace};
use crate::pieces::piece::Piece;
use crate::segments::{Code, Next, Place};
use crate::state::{START, next_stripe, restart};
use qm_core::Decoder;
use raster_core::Kept;

/// The next item in a stream, and what has been read of it.
#[derive(Clone, Copy, Drop)]
pub enum Stage {
    /// The marker segments of a stripe, or its code.
    Head(Head),
    /// A row of a stripe, or the rest of its code.
    Code(InCode),
    /// Nothing: the image is complete.
    Done,
}

impl Stage {
    ghost use Rattle.t85_core.specs.Stages.{stage_behind};

    /// The stage behind the end marker of a stripe, which another one follows or not.
    fn behind(follows: bool) -> Stage
        ensures { result ≡ stage_behind follows }
    {
        if follows {
            Stage::Head(Head::start())
        } else {
            Stage::Done
        }
    }
}

/// The current stripe of an image, or the last if the image is complete, and the state carried from row to row.
#[derive(Drop)]
pub struct Course {
    pub kept: Kept,
    pub decoder: Decoder,
    /// The number of stripe data entities before this stripe.
    pub entities: u32,
    /// The number of rows that are not in those.
    pub left: u32,
    /// Whether a NEWLEN gave a height.
    pub given: bool,
    ghost few: { entities + left < 2 ^ 32 },
    ghost some: { 1 ≤ left },
}

impl Course {
    ghost use Rattle.std.specs.Prelude.{◌≡◌, ◌≤◌, ◌<◌, ◌-◌, ◌*◌, [], List, Ok, length, true, OnOk, nat_eq};
    ghost use Rattle.qm_core.specs.Place.{Estimate};
    ghost use Rattle.raster_core.specs.Packed.{Held};
    ghost use Rattle.raster_core.specs.Window.{width_of};
    ghost use Rattle.t85_core.specs.Stages as kind;
    ghost use Rattle.t85_core.specs.declared.pieces.code.InCode.{InCode};
    ghost use Rattle.t85_core.specs.declared.pieces.course.Stage.TheVariants as stage_type;
    ghost use Rattle.t85_core.specs.Lent.{KeepsLent, stage_view, stage_lent as over};
    ghost use Rattle.t85_core.specs.States.Pieces.{WalkStands};
    ghost use Rattle.t85_core.specs.Private.Pieces.{IsFirstWalk, CountsOn, EndsCount, KeepsStripes, SomeStands, Step, Turn};
    ghost use Rattle.t85_core.specs.Stages.{head_start, stage_behind, stage_read};
    ghost use Rattle.t85_core.specs.States.SizedImage.{sized_of};
    ghost use Rattle.t85_core.specs.Private.StripeEnds.{EndsAtMarker};

    /// The state before the first byte after the header. Makes the window white, and resets the contexts.
    pub fn start(image: &SizedImage, lent: &mut Lent<'_, '_>) -> Course
        requires width { width_of lent.old.window.now ≡ image.now.header.xd }
        ensures stands { WalkStands (sized_of image.now) (over result (stage_type.Head head_start)
            lent.new) [] [] }
        ensures first { IsFirstWalk (over result (stage_type.Head head_start) lent.new) }
        ensures counts { (result.entities ≡ 0) × (result.left ≡ image.now.height) }
        ensures lent { KeepsLent lent.old lent.new }
    {
        let mut kept = START;
        restart(lent.window, &mut kept, lent.learned);
        Course {
            kept,
            decoder: Decoder::start(),
            entities: 0,
            left: image.height,
            given: false,
        }
    }

    /// Decodes the next row, from this stage on. Returns false if the image is complete.
    #[inline(always)]
    pub fn next(
        &mut self,
        stage: &mut Stage,
        image: &SizedImage,
        lent: &mut Lent<'_, '_>,
        piece: &mut Piece<'_>,
    ) -> Result<bool, Fault>
        ensures step { Turn (sized_of image.now) (over self.old stage.old lent.old)
            (over self.new stage.new lent.new) piece.old.rest.now piece.new.rest.now result }
        ensures code { SomeStands (sized_of image.now) (over self.old stage.old lent.old) →
            result ≡ Ok true → (over self.new stage.new lent.new).stage ≡ kind.Code }
        ensures counts { CountsOn (sized_of image.now) self.old self.new }
        ensures no_more { length piece.new.rest.now ≤ length piece.old.rest.now }
        ensures lent { KeepsLent lent.old lent.new }
    {
        'steps: loop {
            match &mut *stage {
                Stage::Head(head) => {
                    let next = self.read_head(head, image, piece)?;
                    *stage = next;
                }
                Stage::Code(code) => {
                    if code.row < self.left.min(image.header.l0) {
                        code.next_row(image, false, self, lent, piece)?;
                        return Ok(true);
                    }
                    let reset = code.find_end(image, piece)?;
                    let follows = self.end_stripe(image, reset, lent);
                    *stage = Stage::behind(follows);
                }
                Stage::Done => return Ok(false),
            }
        }
    }

    /// Reads the marker segments of a stripe, of which these have arrived, and the height or the first element of the
    /// code that follows them. Returns the stage after that.
    #[inline(always)]
    fn read_head(
        &mut self,
        head: &mut Head,
        image: &SizedImage,
        piece: &mut Piece<'_>,
    ) -> Result<Stage, Fault>
        ensures step { (rows : Held) (learned : List Estimate) → Step (sized_of image.now)
            (stage_view self.old (stage_type.Head head.old) rows learned) (stage_view self.new
            (stage_read head.new result) rows learned) piece.old.rest.now piece.new.rest.now
            result }
        ensures counts { KeepsStripes self.old self.new }
        ensures lowers { OnOk result (length piece.new.rest.now < length piece.old.rest.now) }
        ensures no_more { length piece.new.rest.now ≤ length piece.old.rest.now }
    {
        // The proof uses these laws of the coder.
        coder_laws();
        let place = Place {
            height: image.height,
            entities: self.entities,
            given: self.given,
        };
        let at = SegmentPlace {
            header: &image.header,
            place,
            is_last: false,
        };
        let coming = head.pass(at, piece)?;
        match coming.next {
            Next::Height(height) => {
                if height != image.height {
                    return Err(Fault::Changed);
                }
                self.given = true;
                piece.rest = coming.rest;
                Ok(Stage::Head(*head))
            }
            Next::Code(code) => {
                self.decoder = Decoder::start();
                piece.rest = coming.rest;
                Ok(Stage::Code(InCode::start(head.at, code)))
            }
        }
    }

    /// Moves to the next stripe after the end marker of a code, all of whose rows are decoded. Returns false, and stays
    /// in the stripe, if it was the last.
    pub fn end_stripe(&mut self, image: &SizedImage, reset: bool, lent: &mut Lent<'_, '_>) -> bool
        ensures counts { EndsCount image.now.header.l0 result self.old self.new }
        ensures ends { (c : InCode) → EndsAtMarker (sized_of image.now) reset (over self.old
            (stage_type.Code c) lent.old) (over self.new (stage_behind result) lent.new) }
        ensures lent { KeepsLent lent.old lent.new }
    {
        // The proof uses these laws of the coder.
        coder_laws();
        next_stripe(reset, lent.window, &mut self.kept, lent.learned);
        if self.left <= image.header.l0 {
            return false;
        }
        self.left -= image.header.l0;
        self.entities += 1;
        true
    }

    /// Whether its counts are those of this image.
    #[inline(always)]
    pub fn fits(&self, image: &SizedImage) -> bool
        ensures { result ≡ nat_eq self.now.left (image.now.height - self.now.entities *
            image.now.header.l0) }
    {
        let before = u64::from(self.entities) * u64::from(image.header.l0);
        let height = u64::from(image.height);
        if before < height {
            u64::from(self.left) == height - before
        } else {
            self.left == 0
        }
    }
}
