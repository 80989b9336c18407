//! Decodes a stream that arrives in pieces.

ghost use Rattle.std.specs.Prelude.{◌≡◌, ◌++◌, IfOk, OnErr};
ghost use Rattle.raster_core.specs.Window.{width_of};
ghost use Rattle.t85_core.specs.Options.{fields_of};
ghost use Rattle.t85_core.specs.Lent.{decoder_over};
ghost use Rattle.t85_core.specs.Pieces.{call_of, is_last_piece, stream_of};
ghost use Rattle.examples.specs.Pieces.{BodyRead, PieceRead, TextRead, SomeRead, gathered};

use qm_core::Learned;
use raster_core::Window;
use std::alloc::{AllocError, Global};
use t85_core::{Header, More, Outcome, PieceDecoder, Progress};

/// Appends the packed rows of a body that arrives in two pieces.
pub fn rows_of_body(
    alloc: Global,
    header: Header,
    first: &[u8],
    second: &[u8],
    window: &mut Window<'_>,
    rows: &mut Vec<u8>,
) -> Result<Outcome, AllocError>
    requires { width_of window.old ≡ header.xd }
    ensures { IfOk result (λ answer. BodyRead (fields_of header) (first.now ++ second.now) answer
        (gathered rows.old.items rows.new.items)) }
{
    let mut learned = Learned::new();
    let mut decoder = PieceDecoder::start(header, window, &mut learned);
    rows_of_two(
        alloc,
        &mut decoder,
        window,
        &mut learned,
        (first, second),
        usize::MAX,
        rows,
    )
}

/// Appends the packed rows of a text that arrives in two pieces and is the whole stream. The decoder leaves some bytes
/// of the first piece: these are passed again, followed by the second.
///
/// The result is `Row` if a piece returned `limit` rows and more may follow. Otherwise it describes the rows.
pub fn rows_of_two(
    alloc: Global,
    decoder: &mut PieceDecoder,
    window: &mut Window<'_>,
    learned: &mut Learned,
    pieces: (&[u8], &[u8]),
    limit: usize,
    rows: &mut Vec<u8>,
) -> Result<Outcome, AllocError>
    ensures read { IfOk result (λ answer. TextRead (decoder_over decoder.old window.old learned.old)
        (decoder_over decoder.new window.new learned.new)
        (pieces.entry.0.now ++ pieces.entry.1.now) limit answer
        (gathered rows.old.items rows.new.items)) }
    ensures short { OnErr result (SomeRead (decoder_over decoder.old window.old learned.old)
        (gathered rows.old.items rows.new.items)) }
{
    let (first, second) = pieces;
    let begun = rows_of_piece(decoder, window, learned, first, More::Comes, limit, rows)?;
    match begun.outcome {
        Outcome::More => {
            let mut rest = Vec::from_slice(alloc, &first[begun.taken..])?;
            rest.extend_from_slice(second)?;
            let ended = rows_of_piece(
                decoder,
                window,
                learned,
                rest.as_slice(),
                More::None,
                limit,
                rows,
            )?;
            Ok(ended.outcome)
        }
        outcome => Ok(outcome),
    }
}

/// Appends the packed rows of a piece: it requests one after the other, up to the first result
/// that is not a row, or until there are `limit`. The caller passes the unconsumed bytes again, followed by more.
pub fn rows_of_piece(
    decoder: &mut PieceDecoder,
    window: &mut Window<'_>,
    learned: &mut Learned,
    piece: &[u8],
    more: More,
    limit: usize,
    rows: &mut Vec<u8>,
) -> Result<Progress, AllocError>
    ensures same { stream_of (decoder_over decoder.new window.new learned.new) ≡
        stream_of (decoder_over decoder.old window.old learned.old) }
    ensures read { IfOk result (λ progress. PieceRead
        (decoder_over decoder.old window.old learned.old) (call_of piece.now (is_last_piece more)
        progress (decoder_over decoder.new window.new learned.new)) limit
        (gathered rows.old.items rows.new.items)) }
    ensures short { OnErr result (SomeRead (decoder_over decoder.old window.old learned.old)
        (gathered rows.old.items rows.new.items)) }
{
    let mut taken = 0;
    'calls: for _ in 0..limit {
        let step = decoder.next(window, learned, &piece[taken..], more);
        taken += step.taken;
        match step.outcome {
            Outcome::Row => rows.extend_from_slice(window.row(0))?,
            outcome => return Ok(Progress { outcome, taken }),
        }
    }
    Ok(Progress {
        outcome: Outcome::Row,
        taken,
    })
}
