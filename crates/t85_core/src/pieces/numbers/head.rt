//! Marker segments as numbers.

ghost use Rattle.std.specs.Prelude.{◌≡◌, Option, Some, None, IfSome};
ghost use Rattle.t85_core.specs.Numbers.{AreHeadNumbers, AreMoveNumbers, head_numbers, move_numbers};
ghost use Rattle.t85_core.specs.declared.pieces.head.Head.{Head};
ghost use Rattle.t85_core.specs.declared.segments.atmove.Move.{Move};

use crate::pieces::head::Head;
use crate::pieces::numbers::{HeadNumbers, MOST_OFFSET, MoveNumbers};
use crate::segments::Move;

impl MoveNumbers {
    /// The numbers of no move.
    #[inline(always)]
    pub(super) fn none() -> MoveNumbers
        ensures { result ≡ move_numbers None }
    {
        MoveNumbers {
            row: 0,
            offset: 0,
            is_there: 0,
        }
    }

    /// Stores a move, or none.
    #[inline(always)]
    pub(super) fn store(&mut self, at: Option<Move>)
        ensures { self.new ≡ move_numbers at }
    {
        match at {
            None => *self = MoveNumbers::none(),
            Some(to) => {
                self.row = to.row;
                self.offset = to.offset;
                self.is_there = 1;
            }
        }
    }

    /// The move or none that has these numbers, unless its offset is too large.
    #[inline(always)]
    pub(super) fn at(&self) -> Option<Option<Move>>
        ensures all { (at : Option Move) → AreMoveNumbers self.now at → result ≡ Some at }
        ensures is { IfSome result (AreMoveNumbers self.now) }
    {
        if self.is_there == 0 {
            return Some(None);
        }
        if self.offset > MOST_OFFSET {
            return None;
        }
        Some(Some(Move {
            row: self.row,
            offset: self.offset,
        }))
    }
}

impl HeadNumbers {
    /// Stores the marker segments that have arrived.
    #[inline(always)]
    pub(super) fn store(&mut self, head: Head)
        ensures { self.new ≡ head_numbers head }
    {
        self.at.store(head.at);
        self.comment = head.comment.unwrap_or(0);
        self.has_comment = u8::from(head.comment.is_some());
    }

    /// The marker segments that have these numbers, unless an offset is too large.
    #[inline(always)]
    pub(super) fn head(&self) -> Option<Head>
        ensures all { (head : Head) → AreHeadNumbers self.now head → result ≡ Some head }
        ensures is { IfSome result (AreHeadNumbers self.now) }
    {
        let at = self.at.at()?;
        if self.has_comment == 0 {
            return Some(Head { at, comment: None });
        }
        Some(Head {
            at,
            comment: Some(self.comment),
        })
    }
}
