//! The position and state of decoding in a stream whose height is known.

use crate::header::SizedImage;
use crate::lent::Lent;
use crate::pieces::course::{Course, Stage};
use crate::pieces::head::Head;

/// How far a stream has been decoded.
#[derive(Drop)]
pub struct Walk {
    pub course: Course,
    pub stage: Stage,
}

impl Walk {
    ghost use Rattle.std.specs.Prelude.{◌≡◌, ◌<◌, ◌++◌, [], ℕ, List};
    ghost use Rattle.raster_core.specs.Window.{held, width_of};
    ghost use Rattle.t85_core.specs.Stages as stage;
    ghost use Rattle.t85_core.specs.Lent.{KeepsLent, walk_lent as over};
    ghost use Rattle.t85_core.specs.RowSink.{copies};
    ghost use Rattle.t85_core.specs.States.Pieces.{WalkStands};
    ghost use Rattle.t85_core.specs.States.SizedImage.{sized_of};

    /// The state before the first byte after the header. Makes the window white, and resets the contexts.
    pub fn start(image: &SizedImage, lent: &mut Lent<'_, '_>) -> Walk
        requires width { width_of lent.old.window.now ≡ image.now.header.xd }
        ensures stands { WalkStands (sized_of image.now) (over result lent.new) [] [] }
        ensures lent { KeepsLent lent.old lent.new }
    {
        Walk {
            course: Course::start(image, lent),
            stage: Stage::Head(Head::start()),
        }
    }

    /// Decodes rows that equal the one before, if the bits already read determine them, and returns how many. The
    /// window contains the last of them.
    #[inline(always)]
    pub fn repeat_rows(&mut self, image: &SizedImage, lent: &mut Lent<'_, '_>) -> u32
        ensures on { (text out : List ℕ) → WalkStands (sized_of image.now) (over self.old lent.old)
            text out → WalkStands (sized_of image.now) (over self.new lent.new) text (out ++ copies
            result (held lent.new.window.now).current) }
        ensures code { 0 < result → (over self.new lent.new).stage ≡ stage.Code }
    {
        match &mut self.stage {
            Stage::Code(code) => code.repeat(image, &mut self.course, lent, u32::MAX),
            _ => 0,
        }
    }
}
