//! A decoder in pieces that consumes all input, and stores the bytes that it cannot decode yet.

ghost use Rattle.std.specs.Prelude.{◌≡◌, ◌≤◌, ◌+◌, ◌++◌, [], length, take, true, false};
ghost use Rattle.t85_core.specs.declared.pieces.Outcome.TheVariants as outcome;

use crate::lent::Lent;
use crate::pieces::{More, Outcome, PieceDecoder, Progress};
use qm_core::Learned;
use raster_core::Window;

/// The greatest number of stored bytes.
const MOST: usize = 7;

/// This many bytes of a piece, after the stored bytes, are enough to decode all stored bytes.
const FRONT: usize = 8;

/// Bytes of a stream that were consumed but cannot be decoded yet: the beginning of an escape code or of a marker
/// segment. Any contents are safe, but decoding continues correctly only with what the last call left here.
#[derive(Clone, Copy, PartialEq, Eq, Debug)]
pub struct HeldBytes {
    pub bytes: [u8; MOST],
    /// The number of stored bytes; a value above seven means seven.
    pub len: u8,
}

impl HeldBytes {
    ghost use Rattle.t85_core.specs.Feeds.{held_bytes};
    ghost use Rattle.t85_core.specs.Private.Feeds.{Settles};

    /// No stored bytes, as before the first byte.
    pub fn none() -> HeldBytes
        ensures { held_bytes result ≡ [] }
    {
        HeldBytes {
            bytes: [0; MOST],
            len: 0,
        }
    }

    /// The number of stored bytes.
    fn count(&self) -> usize
        ensures count { result ≡ length (held_bytes self.now) }
        ensures front { take result self.now.bytes ≡ held_bytes self.now }
        ensures few { result ≤ 7 }
    {
        usize::from(self.len).min(MOST)
    }

    /// Stores these bytes, and no others.
    #[inline(always)]
    fn keep(&mut self, bytes: &[u8])
        requires few { length bytes.now ≤ 7 }
        ensures { held_bytes self.new ≡ bytes.now }
    {
        if bytes.is_empty() {
            *self = HeldBytes::none();
            return;
        }
        let mut kept = [0; MOST];
        kept[..bytes.len()].copy_from_slice(bytes);
        *self = HeldBytes {
            bytes: kept,
            len: bytes.len() as u8,
        };
    }

    /// Writes the stored bytes followed by these bytes, and returns how many that are.
    fn join(&self, front: &[u8], joined: &mut [u8; MOST + FRONT]) -> usize
        requires few { length front.now ≤ 8 }
        ensures joined { take result joined.new ≡ held_bytes self.now ++ front.now }
        ensures within { result ≤ 15 }
    {
        let count = self.count();
        joined[..count].copy_from_slice(&self.bytes[..count]);
        let len = count + front.len();
        joined[count..len].copy_from_slice(front);
        len
    }

    /// After a call that consumed some of these bytes, the first `count` of which were stored before: stores the
    /// unconsumed bytes, if more input is needed, and otherwise only the unconsumed ones of the first `count`. Returns
    /// the number of bytes consumed after the first `count`.
    #[inline(always)]
    fn settle(&mut self, bytes: &[u8], count: usize, call: Progress) -> Progress
        requires within { count ≤ length bytes.now }
        requires few { count ≤ 7 }
        requires bound { call.taken ≤ length bytes.now }
        requires few_left { call.outcome ≡ outcome.More → length bytes.now ≤ call.taken + 7 }
        ensures { Settles bytes.now count call result (held_bytes self.new) }
    {
        match call.outcome {
            Outcome::More => {
                let (_, left) = bytes.split_at(call.taken);
                self.keep(left);
                Progress {
                    outcome: Outcome::More,
                    taken: bytes.len() - count,
                }
            }
            outcome => {
                let (held, _) = bytes.split_at(count);
                let taken = call.taken.min(count);
                let (_, left) = held.split_at(taken);
                self.keep(left);
                Progress {
                    outcome,
                    taken: call.taken - taken,
                }
            }
        }
    }
}

impl PieceDecoder {
    ghost use Rattle.t85_core.specs.Lent.{KeepsWindow, KeepsLent, decoder_lent, decoder_over};
    ghost use Rattle.t85_core.specs.Pieces.{call_of, is_last_piece};
    ghost use Rattle.t85_core.specs.Feeds.{held_bytes, IsFeed};

    /// Decodes the stored bytes followed by these bytes, as `next` does. If it needs more input, it has consumed all
    /// bytes.
    #[inline(always)]
    pub fn feed(
        &mut self,
        window: &mut Window<'_>,
        learned: &mut Learned,
        held: &mut HeldBytes,
        piece: &[u8],
        more: More,
    ) -> Progress
        ensures feed { IsFeed (decoder_over self.old window.old learned.old) (held_bytes held.old)
            (held_bytes held.new) (call_of piece.now (is_last_piece more) result
            (decoder_over self.new window.new learned.new)) }
        ensures window { KeepsWindow window.old window.new }
    {
        let mut lent = Lent { window, learned };
        match more {
            More::Comes => self.feed_some(&mut lent, held, piece, false),
            More::None => self.feed_some(&mut lent, held, piece, true),
        }
    }

    /// Decodes the stored bytes followed by these bytes; `is_all` says whether they are the last.
    #[inline(always)]
    fn feed_some(
        &mut self,
        lent: &mut Lent<'_, '_>,
        held: &mut HeldBytes,
        piece: &[u8],
        is_all: bool,
    ) -> Progress
        ensures feed { IsFeed (decoder_lent self.old lent.old) (held_bytes held.old) (held_bytes
            held.new) (call_of piece.now is_all result (decoder_lent self.new lent.new)) }
        ensures lent { KeepsLent lent.old lent.new }
    {
        if held.count() == 0 {
            return self.feed_piece(lent, held, piece, is_all);
        }
        self.feed_held(lent, held, piece, is_all)
    }

    /// The same, also if bytes are stored.
    #[inline(never)]
    fn feed_held(
        &mut self,
        lent: &mut Lent<'_, '_>,
        held: &mut HeldBytes,
        piece: &[u8],
        is_all: bool,
    ) -> Progress
        ensures feed { IsFeed (decoder_lent self.old lent.old) (held_bytes held.old) (held_bytes
            held.new) (call_of piece.now is_all result (decoder_lent self.new lent.new)) }
        ensures lent { KeepsLent lent.old lent.new }
    {
        let count = held.count();
        let (front, back) = piece.split_at(piece.len().min(FRONT));
        let mut bytes = [0; MOST + FRONT];
        let len = held.join(front, &mut bytes);
        let (joined, _) = bytes.split_at(len);
        let call = self.take(lent, joined, ends_there(is_all, back));
        if !goes_on(call.outcome, back) {
            return held.settle(joined, count, call);
        }
        let (_, rest) = piece.split_at(call.taken - count);
        let last = self.feed_piece(lent, held, rest, is_all);
        Progress {
            outcome: last.outcome,
            taken: piece.len() - rest.len() + last.taken,
        }
    }

    /// Decodes these bytes, if none are stored.
    #[inline(always)]
    fn feed_piece(
        &mut self,
        lent: &mut Lent<'_, '_>,
        held: &mut HeldBytes,
        piece: &[u8],
        is_all: bool,
    ) -> Progress
        ensures feed { IsFeed (decoder_lent self.old lent.old) [] (held_bytes held.new) (call_of
            piece.now is_all result (decoder_lent self.new lent.new)) }
        ensures lent { KeepsLent lent.old lent.new }
    {
        let call = self.take(lent, piece, is_all);
        held.settle(piece, 0, call)
    }
}

/// Whether bytes followed by `back` are the last ones.
fn ends_there(is_all: bool, back: &[u8]) -> bool
    ensures yes { result ≡ true → (is_all ≡ true) × (back.now ≡ []) }
    ensures no { result ≡ false → is_all ≡ true → back.now ≡ [] → ⊥ }
{
    is_all && back.is_empty()
}

/// Whether a call needs more input, and there is more.
fn goes_on(answer: Outcome, back: &[u8]) -> bool
    ensures yes { result ≡ true → (answer ≡ outcome.More) × (1 ≤ length back.now) }
    ensures no { result ≡ false → answer ≡ outcome.More → back.now ≡ [] }
{
    match answer {
        Outcome::More => !back.is_empty(),
        _ => false,
    }
}
