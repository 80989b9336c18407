//! Decodes a stream that arrives in pieces, row by row.

ghost use Rattle.std.specs.Prelude.{◌-◌, ◌*◌, ◌≡◌, [], List, None, IfSome, true, false};
ghost use Rattle.qm_core.specs.Place.{Estimate};
ghost use Rattle.raster_core.specs.Packed.{Held};
ghost use Rattle.raster_core.specs.Window.{width_of};
ghost use Rattle.t85_core.specs.Outcomes.{end_in};
ghost use Rattle.t85_core.specs.Phases.{phase_is_first, phase_looks};

mod behind;
pub mod code;
pub mod course;
pub mod head;
pub mod held;
pub mod numbers;
pub mod phase;
pub mod piece;
mod repeat;
pub mod steps;
pub mod walk;

use crate::fault::Fault;
use crate::header::{Header, SizedImage};
use crate::lent::Lent;
use crate::pieces::course::Course;
use crate::pieces::phase::Phase;
use crate::pieces::piece::Piece;
use qm_core::Learned;
use raster_core::Window;

/// Whether bytes of the stream follow a piece.
#[derive(Clone, Copy, Debug, PartialEq, Eq)]
pub enum More {
    /// More bytes may follow.
    Comes,
    /// The piece is the last.
    None,
}

/// The result of a call with a piece.
#[derive(Clone, Copy, Debug, PartialEq, Eq)]
pub enum Outcome {
    /// A row was decoded. Read it from the window, and call again with the rest of the piece.
    Row,
    /// No further row can be decoded. Call again with the unconsumed bytes, at most seven, followed by more; or, if
    /// there are no more, with `More::None`.
    More,
    /// The image is complete, with this height: it is the first rows of those returned, as many as the height.
    Done(u32),
    /// The stream is broken. All rows that it determines have been returned.
    Broken(Fault),
}

/// How a stream has ended.
#[derive(Clone, Copy)]
pub enum End {
    /// The image is complete, with the current height.
    Done,
    /// The stream is broken.
    Broken(Fault),
}

/// The result of a call with a piece, and the number of bytes consumed.
#[derive(Clone, Copy, Debug, PartialEq, Eq)]
pub struct Progress {
    pub outcome: Outcome,
    pub taken: usize,
}

/// A decoder for a stream whose bytes after the header arrive in pieces, at any time. It owns no memory: each call
/// borrows the window with the rows, and the contexts, as the previous call left them.
///
/// While a new height may still arrive (T.82, 6.2.6.2), rows that only the end of a code determines are held back until
/// the bytes behind its end marker are known, since a height there may cut them off. All other rows are returned as
/// soon as the bytes determine them: a call that asks for more bytes has returned every row that the bytes so far
/// determine or, behind an end marker, that the bytes before the marker determine.
#[derive(Drop)]
pub struct PieceDecoder {
    /// The current height is the header's, until another has arrived.
    image: SizedImage,
    course: Course,
    phase: Phase,
    /// How the stream has ended, if it has.
    end: Option<End>,
    ghost first: { phase_looks phase ≡ true → image.height ≡ image.header.yd },
    ghost none: { phase_is_first phase ≡ true → course.entities ≡ 0 },
    ghost counts: { course.left ≡ image.height - course.entities * image.header.l0 },
}

impl PieceDecoder {
    ghost use Rattle.t85_core.specs.Lent.{KeepsWindow, KeepsLent, decoder_lent, decoder_over, decoder_view};
    ghost use Rattle.t85_core.specs.Numbers.{ArePieceNumbers};
    ghost use Rattle.t85_core.specs.Options.{fields_of};
    ghost use Rattle.t85_core.specs.Pieces.{HasDecoded, IsCall, AreCertain, call_of, is_last_piece};
    ghost use Rattle.t85_core.specs.declared.pieces.PieceDecoder.{PieceDecoder};
    ghost use Rattle.t85_core.specs.declared.pieces.numbers.PieceNumbers.{PieceNumbers};

    /// A decoder before the first byte after the header. Makes the window white, and resets the contexts.
    pub fn start(header: Header, window: &mut Window<'_>, learned: &mut Learned) -> PieceDecoder
        requires width { width_of window.old ≡ header.xd }
        ensures stream { result.image.header ≡ header }
        ensures none { HasDecoded (decoder_over result window.new learned.new) [] [] }
        ensures window { KeepsWindow window.old window.new }
    {
        let mut lent = Lent { window, learned };
        let image = SizedImage {
            header,
            height: header.yd,
        };
        PieceDecoder {
            image,
            course: Course::start(&image, &mut lent),
            phase: Phase::first(&header),
            end: None,
        }
    }

    /// Decodes these bytes, up to the end of the next row or as far as possible. The row is the window's current row.
    /// Call it again with the unconsumed bytes as long as it returns rows.
    pub fn next(
        &mut self,
        window: &mut Window<'_>,
        learned: &mut Learned,
        piece: &[u8],
        more: More,
    ) -> Progress
        ensures call { IsCall (decoder_over self.old window.old learned.old) (call_of piece.now
            (is_last_piece more) result (decoder_over self.new window.new learned.new)) }
        ensures window { KeepsWindow window.old window.new }
    {
        let mut lent = Lent { window, learned };
        match more {
            More::Comes => self.take(&mut lent, piece, false),
            More::None => self.take(&mut lent, piece, true),
        }
    }

    /// Decodes these bytes; `is_all` says whether they are the last.
    #[inline(always)]
    fn take(&mut self, lent: &mut Lent<'_, '_>, piece: &[u8], is_all: bool) -> Progress
        ensures call { IsCall (decoder_lent self.old lent.old)
            (call_of piece.now is_all result (decoder_lent self.new lent.new)) }
        ensures lent { KeepsLent lent.old lent.new }
    {
        if let Some(end) = self.end {
            return Progress {
                outcome: end.outcome(self.image.height),
                taken: 0,
            };
        }
        let mut rest = Piece { rest: piece };
        let outcome = self.go_on(lent, &mut rest, is_all);
        self.end = end_of(outcome);
        Progress {
            outcome,
            taken: piece.len() - rest.rest.len(),
        }
    }

    /// The number of first rows that belong to the image, whatever bytes follow: no height that arrives later is below
    /// this.
    #[inline(always)]
    pub fn certain(&self) -> u32
        // It depends only on the header and the numbers.
        ensures certain { self.now.end ≡ None → (d : PieceDecoder) (numbers : PieceNumbers)
            (rows : Held) (learned : List Estimate) → fields_of d.image.header ≡
            fields_of self.now.image.header → ArePieceNumbers numbers d →
            ArePieceNumbers numbers self.now → AreCertain (decoder_view d rows learned) result }
        ensures own { (rows : Held) (learned : List Estimate) →
            AreCertain (decoder_view self.now rows learned) result }
        ensures ended { IfSome self.now.end (λ _. result ≡ self.now.image.height) }
    {
        if !self.phase.looks() || self.end.is_some() {
            return self.image.height;
        }
        // Each stripe that has begun contains a row of the image.
        self.image.header.yd - self.course.left + 1
    }

    /// The current height: the header's, until another has arrived.
    pub fn height(&self) -> u32
        ensures { result ≡ self.now.image.height }
    {
        self.image.height
    }
}

impl End {
    ghost use Rattle.t85_core.specs.Outcomes.{end_told};

    /// The outcome that reports this end at this height.
    fn outcome(self, height: u32) -> Outcome
        ensures { result ≡ end_told self height }
    {
        match self {
            End::Done => Outcome::Done(height),
            End::Broken(fault) => Outcome::Broken(fault),
        }
    }
}

/// The end that an outcome reports, if any.
fn end_of(outcome: Outcome) -> Option<End>
    ensures { result ≡ end_in outcome }
{
    match outcome {
        Outcome::Row | Outcome::More => None,
        Outcome::Done(_) => Some(End::Done),
        Outcome::Broken(fault) => Some(End::Broken(fault)),
    }
}
