//! Decodes a stream that arrives in pieces, and stores only numbers of the decoder between calls.

ghost use Rattle.std.specs.Prelude.{◌≡◌, ◌<◌, ◌*◌, length};
ghost use Rattle.std.specs.Int.{div_ceil};

use crate::in_pieces::{Cuts, Feed, Given, call, most_calls};
use pbm_core::row_bytes;
use qm_core::Learned;
use raster_core::{Window, window_bytes};
use std::alloc::Global;
use std::test::Fail;
use t85_core::{Header, Outcome, PieceDecoder, PieceNumbers};

/// The stored state of a decoder between calls, without its contexts and the memory of its window.
#[derive(Drop)]
struct Kept {
    numbers: PieceNumbers,
    place: u8,
    ghost within: { place < 3 },
}

/// Rebuilds the stored decoder, passes it the bytes that have arrived and were not consumed, and stores it again.
/// Appends the row that it returns.
fn call_kept(
    header: Header,
    kept: &mut Kept,
    lent: &mut [u8],
    learned: &mut Learned,
    feed: &mut Feed<'_>,
    told: bool,
    rows: &mut Vec<u8>,
) -> Result<Outcome, Fail> {
    if lent.len() != window_bytes(header.xd) {
        return Err("memory of another size")?;
    }
    let mut window = Window::resume(lent, header.xd, kept.place);
    let mut decoder = match PieceDecoder::resume(header, &kept.numbers) {
        Some(decoder) => decoder,
        None => return Err("numbers of no decoder")?,
    };
    let outcome = call(&mut decoder, &mut window, learned, &mut None, feed, told);
    if outcome == Outcome::Row {
        rows.extend_from_slice(window.row(0))?;
    }
    let numbers = decoder.numbers();
    let place = window.place();
    *kept = Kept { numbers, place };
    Ok(outcome)
}

/// The result of a stream that arrives in pieces, if only numbers are stored between calls.
pub fn take_pieces_kept(
    alloc: Global,
    header: Header,
    body: &[u8],
    cuts: &mut Cuts<'_>,
) -> Result<Option<Given>, Fail> {
    let mut lent = Vec::from_elem(alloc, 0u8, window_bytes(header.xd))?;
    let mut learned = Learned::new();
    let mut kept = first_kept(header, lent.as_mut_slice(), &mut learned);
    let mut feed = Feed::new(body);
    let mut rows = Vec::new(alloc);
    let mut told = false;
    'calls: for _ in 0..most_calls(&header, body) {
        let lent = lent.as_mut_slice();
        match call_kept(
            header,
            &mut kept,
            lent,
            &mut learned,
            &mut feed,
            told,
            &mut rows,
        )? {
            Outcome::Row => {}
            Outcome::More if told => return Ok(None),
            Outcome::More => {
                feed.come(cuts.next());
                told = feed.is_all();
            }
            end => {
                if let Outcome::Done(height) = end {
                    rows.truncate(row_bytes(header.xd).saturating_mul(height as usize));
                }
                return Ok(Some(Given { rows, end }));
            }
        }
    }
    Ok(None)
}

/// A decoder before the first byte, as stored.
fn first_kept(header: Header, lent: &mut [u8], learned: &mut Learned) -> Kept
    requires { length lent.old ≡ 3 * div_ceil header.xd 8 }
{
    let mut window = Window::over(lent, header.xd);
    let decoder = PieceDecoder::start(header, &mut window, learned);
    let numbers = decoder.numbers();
    let place = window.place();
    Kept { numbers, place }
}
