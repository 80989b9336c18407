//! The context states and counts of an image while it is encoded.

ghost use Rattle.std.specs.Prelude.{◌≡◌, ℕ, [], false};
ghost use Rattle.qm_core.specs.Place.{fresh};
ghost use Rattle.raster_core.specs.Tally.{CountsLines};
ghost use Rattle.t85_core.specs.Jbg.{is_low};
ghost use Rattle.t85_core.specs.Options.{settings_of};

use crate::options::Options;
use pbm_core::Size;
use qm_core::Learned;
use raster_core::Tally;

/// The memory of a `RowEncoder`: the adaptive state of each context, and the counts from which the offset of the
/// adaptive pixel is chosen. Each call borrows it, as the last one left it; `RowEncoder::start` accepts any, and resets
/// it. It may be in caller-supplied memory with arbitrary contents: each call is safe then, too.
#[repr(C)]
#[derive(Drop)]
pub struct Learning {
    // The arrays are adjacent, so that they are filled with zeros once and together.
    pub(crate) tally: Tally,
    pub(crate) learned: Learned,
}

impl Learning {
    ghost use Rattle.t85_core.specs.Private.RowSteps.{IsUntaught};

    /// Initial context states and counts, for any image.
    pub fn new() -> Learning
        ensures learned { result.learned ≡ fresh }
        ensures counts { (width current : ℕ) → CountsLines result.tally width current [] }
    {
        Learning {
            tally: Tally::new(false, 0),
            learned: Learned::new(),
        }
    }

    /// Initial context states and counts for an image of this size.
    #[inline(always)]
    pub(crate) fn first(size: Size, options: &Options<'_>) -> Learning
        requires { is_low (settings_of options.now) size.height ≡ false }
        ensures { IsUntaught (settings_of options.now) result }
    {
        let shape = options.header(size).shape();
        Learning {
            tally: Tally::new(shape.two_line, options.most_offset),
            learned: Learned::new(),
        }
    }
}
