//! The rows of a stripe, apart from their code.

ghost use Rattle.std.specs.Prelude.{◌≡◌, ◌≤◌, ◌↔◌, IsTrue, option_map};
ghost use Rattle.t85_core.specs.Repeats.{IsSettled};
ghost use Rattle.t85_core.specs.States.State.{offset_at};
ghost use Rattle.t85_core.specs.States.DecodeRows.{pair_of};

use crate::segments::Move;

/// Whether no move takes place from this row of a stripe on.
pub fn is_settled(at: Option<Move>, row: u32) -> bool
    ensures { IsTrue result ↔ IsSettled at row }
{
    match at {
        Some(to) => to.row < row,
        None => true,
    }
}

/// The offset in a row of a stripe, given the offset in the row before.
pub fn offset_in(at: Option<Move>, row: u32, before: u8) -> u8
    requires before { before ≤ 127 }
    ensures bound { result ≤ 127 }
    ensures is { result ≡ offset_at (option_map pair_of at) row before }
{
    match at {
        Some(to) if to.row == row => to.offset,
        _ => before,
    }
}
