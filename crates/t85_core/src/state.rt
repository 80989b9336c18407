//! The state that encoder and decoder carry from row to row and from stripe to stripe.

ghost use Rattle.std.specs.Prelude.{◌≡◌, ◌<◌, if◌then◌else◌};
ghost use Rattle.raster_core.specs.Window.{held, width_of};
ghost use Rattle.t85_core.specs.States.State.{RowStart, first_row_start, next_stripe_start};
ghost use Rattle.t85_core.specs.Lent.{StaysWindow, carried_by};
ghost use Rattle.t85_core.specs.States.DecodeRows.{IsCarried};
ghost use Rattle.t85_core.specs.Private.DecodeRows.{IsFirst};
ghost use Rattle.t85_core.specs.States.ByRow.{IsLined};

use qm_core::Learned;
use raster_core::{Kept, Window};

/// The state at the top of an image.
pub const START: Kept = Kept {
    offset: 0,
    previous_typical: false,
};

/// Prepares for the next stripe after an end marker: everything stays as it is or, if the marker resets, returns to its
/// state at the top of an image.
pub fn next_stripe(reset: bool, window: &mut Window<'_>, kept: &mut Kept, learned: &mut Learned)
    ensures next { (last : RowStart) → IsCarried last (carried_by window.old kept.old learned.old) →
        IsCarried (first_row_start (next_stripe_start (width_of window.old) reset last)) (carried_by
        window.new kept.new learned.new) }
    ensures window { StaysWindow window.old window.new }
    ensures offset { kept.new.offset ≡ if reset then 0 else kept.old.offset }
    ensures lined { IsLined (held window.old) → IsLined (held window.new) }
{
    if reset {
        restart(window, kept, learned);
    }
}

/// Resets to the top of an image: makes the window white, and resets the contexts.
pub fn restart(window: &mut Window<'_>, kept: &mut Kept, learned: &mut Learned)
    ensures first { IsFirst (carried_by window.new kept.new learned.new) }
    ensures window { StaysWindow window.old window.new }
    ensures offset { kept.new.offset ≡ 0 }
{
    window.clear();
    *kept = START;
    *learned = Learned::new();
}
