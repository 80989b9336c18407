//! Codes several more probable symbols of one context at once.

ghost use Rattle.std.specs.Prelude.{◌≡◌, ◌+◌, ◌*◌, ◌≤◌, ℕ, None, Some, true, false};
ghost use Rattle.qm_core.specs.Place.{Place, state_of};
ghost use Rattle.qm_core.specs.Puts.{event_of};
ghost use Rattle.qm_core.specs.Skipping.{has_room, upper_size};

use crate::context::Context;
use crate::entries::entry_of;
use crate::learned::Learned;

/// The rest of the interval's size, times 128, after `count` more probable symbols of a context; `None` if the pixel is
/// the less probable symbol, or the interval would be doubled.
#[inline(always)]
pub(crate) fn left_of(
    learned: &Learned,
    cx: Context,
    pixel: bool,
    count: u32,
    span: u32,
) -> Option<u32>
    requires few { count ≤ 64 }
    ensures none { (p : Place) → span ≡ 128 * p.size → result ≡ None →
        has_room (state_of p learned.now) (event_of cx pixel) count ≡ false }
    ensures some { (p : Place) (left : ℕ) → span ≡ 128 * p.size → result ≡ Some left →
        has_room (state_of p learned.now) (event_of cx pixel) count ≡ true }
    ensures left { (left : ℕ) → result ≡ Some left →
        span ≡ left + 128 * (count * upper_size learned.now cx.number) }
    ensures large { (left : ℕ) → result ≡ Some left → 0x40_0000 ≤ left }
{
    let cell = learned.cell(cx);
    let upper = count * entry_of(cell).span;
    if pixel != (cell % 2 == 1) {
        return None;
    }
    if span < 0x40_0000 + upper {
        return None;
    }
    Some(span - upper)
}
