//! Reads the marker segments of a stripe.

ghost use Rattle.std.specs.Prelude.{◌≡◌, ◌≤◌, ◌<◌, ◌∷◌, ℕ, Bool, List, None, length, true, false, IfErr, IfOk, OnOk};
ghost use Rattle.t85_core.specs.Options.{fields_of};
ghost use Rattle.t85_core.specs.Stages.{head_start};
ghost use Rattle.t85_core.specs.Private.Behind.{BehindOn, ComesBehind, StopsBehind};
ghost use Rattle.t85_core.specs.States.Behind.{move_came, behind_at, head_at};

use crate::fault::Fault;
use crate::header::Header;
use crate::pieces::piece::Piece;
use crate::segments::{self, COMMENT, ESCAPE, Move, Next, Place, next_element, number};

/// The marker segments of a stripe, as far as they have arrived.
#[derive(Clone, Copy, Drop)]
pub struct Head {
    /// The move of the stripe.
    pub at: Option<Move>,
    /// The number of bytes still to come of a comment that has begun.
    pub comment: Option<u32>,
}

/// A position before marker segments.
#[derive(Clone, Copy)]
pub struct SegmentPlace<'h> {
    pub header: &'h Header,
    /// The stripe data entities before them.
    pub place: Place,
    /// Whether the last stripe is among these. No move is allowed behind it.
    pub is_last: bool,
}

/// The height or the code that follows marker segments, and the bytes after it.
#[derive(Clone, Copy)]
pub struct Coming<'a> {
    pub next: Next,
    pub rest: &'a [u8],
}

impl Head {
    /// Nothing has arrived yet.
    pub fn start() -> Head
        ensures { result ≡ head_start }
    {
        Head {
            at: None,
            comment: None,
        }
    }

    /// Whether an ATMOVE is not allowed: there was one already, or the last stripe is over.
    fn is_moved(&self, is_last: bool) -> bool
        ensures { result ≡ move_came is_last self.now.at }
    {
        is_last || self.at.is_some()
    }

    /// Consumes comments and a move, up to a height or a code, which it inspects but does not consume.
    #[inline(always)]
    pub fn pass<'a>(
        &mut self,
        at: SegmentPlace<'_>,
        piece: &mut Piece<'a>,
    ) -> Result<Coming<'a>, Fault>
        ensures on { (before : Bool) → BehindOn (fields_of at.entry.header.now)
            (head_at at.entry.place at.entry.is_last before) self.old self.new
            piece.old.rest.now piece.new.rest.now }
        ensures ok { IfOk result (λ coming. (self.new.comment ≡ None) × ComesBehind (fields_of
            at.entry.header.now) at.entry.place coming.next piece.new.rest.now coming.rest.now) }
        ensures lowers { IfOk result (λ coming. length coming.rest.now <
            length piece.old.rest.now) }
        ensures err { IfErr result (StopsBehind (fields_of at.entry.header.now)
            (behind_at at.entry.place at.entry.is_last) self.new piece.new.rest.now) }
        ensures no_more { length piece.new.rest.now ≤ length piece.old.rest.now }
    {
        'segments: loop {
            self.leave_comment(at, piece)?;
            if is_comment(piece.rest) {
                self.enter_comment(at, piece)?;
            } else {
                let mut ahead = Piece { rest: piece.rest };
                match next_element(at.header, at.place, self.is_moved(at.is_last), &mut ahead)? {
                    segments::Element::Move(to) => {
                        self.at = Some(to);
                        piece.rest = ahead.rest;
                    }
                    segments::Element::Comment => piece.rest = ahead.rest,
                    segments::Element::NewLength(height) => {
                        return Ok(Coming {
                            next: Next::Height(height),
                            rest: ahead.rest,
                        });
                    }
                    segments::Element::Code(code) => {
                        return Ok(Coming {
                            next: Next::Code(code),
                            rest: ahead.rest,
                        });
                    }
                }
            }
        }
    }

    /// Skips the rest of a comment, if one has begun.
    #[inline(always)]
    fn leave_comment(&mut self, at: SegmentPlace<'_>, piece: &mut Piece<'_>) -> Result<(), Fault>
        ensures on { (before : Bool) → BehindOn (fields_of at.entry.header.now)
            (head_at at.entry.place at.entry.is_last before) self.old self.new
            piece.old.rest.now piece.new.rest.now }
        ensures ok { OnOk result (self.new.comment ≡ None) }
        ensures err { IfErr result (StopsBehind (fields_of at.entry.header.now)
            (behind_at at.entry.place at.entry.is_last) self.new piece.new.rest.now) }
        ensures no_more { length piece.new.rest.now ≤ length piece.old.rest.now }
    {
        let left = match self.comment {
            Some(left) => left,
            None => return Ok(()),
        };
        let len = piece.rest.len().min(left as usize);
        let (_, rest) = piece.rest.split_at(len);
        piece.rest = rest;
        if len < left as usize {
            self.comment = Some(left - len as u32);
            return Err(Fault::Truncated);
        }
        self.comment = None;
        Ok(())
    }

    /// Reads the length of a comment.
    fn enter_comment(&mut self, at: SegmentPlace<'_>, piece: &mut Piece<'_>) -> Result<(), Fault>
        requires between { self.old.comment ≡ None }
        requires comment { (rest : List ℕ) × (piece.old.rest.now ≡ 255 ∷ 7 ∷ rest) }
        ensures on { (before : Bool) → BehindOn (fields_of at.entry.header.now)
            (head_at at.entry.place at.entry.is_last before) self.old self.new
            piece.old.rest.now piece.new.rest.now }
        ensures err { IfErr result (StopsBehind (fields_of at.entry.header.now)
            (behind_at at.entry.place at.entry.is_last) self.new piece.new.rest.now) }
        ensures lowers { OnOk result (length piece.new.rest.now < length piece.old.rest.now) }
        ensures no_more { length piece.new.rest.now ≤ length piece.old.rest.now }
    {
        let bytes = piece.rest;
        let (_, rest) = bytes.split_at(2);
        piece.rest = rest;
        match number(piece) {
            Ok(len) => {
                self.comment = Some(len);
                Ok(())
            }
            Err(fault) => {
                piece.rest = bytes;
                Err(fault)
            }
        }
    }
}

/// Whether a COMMENT segment comes next.
fn is_comment(bytes: &[u8]) -> bool
    ensures yes { result ≡ true → (rest : List ℕ) × (bytes.now ≡ 255 ∷ 7 ∷ rest) }
    ensures no { result ≡ false → (rest : List ℕ) → bytes.now ≡ 255 ∷ 7 ∷ rest → ⊥ }
{
    bytes.len() >= 2 && bytes[0] == ESCAPE && bytes[1] == COMMENT
}
