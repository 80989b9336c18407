//! Compares streams that arrive in pieces with `decode` of the whole stream.

ghost use Rattle.std.specs.Prelude.{◌≤◌, length};

mod answers;
mod at_random;
mod cuts;
mod ends;
mod kept;

pub use self::cuts::Cuts;
pub use self::ends::Ends;
use crate::in_pieces::kept::take_pieces_kept;
use pbm_core::trial::Pieces;
use pbm_core::{ToWrite, row_bytes};
use qm_core::Learned;
use raster_core::{Window, window_bytes};
use std::alloc::Global;
use std::test::Fail;
use t85_core::{Header, HeldBytes, More, Outcome, PieceDecoder, Progress, decode, find_height};

/// The number of bytes of a piece that may be left when more are needed: all but the last of a move.
const MOST_LEFT: usize = 7;

/// The unconsumed bytes of a stream, and how many of them have arrived.
#[derive(Drop)]
struct Feed<'a> {
    rest: &'a [u8],
    come: usize,
    ghost within: { come ≤ length rest.now },
}

impl<'a> Feed<'a> {
    fn new(bytes: &'a [u8]) -> Feed<'a> {
        Feed {
            rest: bytes,
            come: 0,
        }
    }

    fn shown(&self) -> &[u8] {
        &self.rest[..self.come]
    }

    /// Whether all have arrived.
    fn is_all(&self) -> bool {
        self.come == self.rest.len()
    }

    /// Consumes this many of those that have arrived.
    fn take(&mut self, count: usize) {
        let taken = count.min(self.come);
        self.rest = &self.rest[taken..];
        self.come -= taken;
    }

    /// This many more arrive.
    fn come(&mut self, count: usize) {
        self.come = self.come.saturating_add(count).min(self.rest.len());
    }
}

/// The rows of a stream, packed, and its end.
#[derive(Drop, Debug, PartialEq, Eq)]
pub struct Given {
    rows: Vec<u8>,
    end: Outcome,
}

/// The result of `decode` at this height.
fn decoded(alloc: Global, header: &Header, height: u32, body: &[u8]) -> Result<Given, Fail>
    requires from { 1 ≤ height }
    requires to { height ≤ header.now.yd }
{
    let mut lent = Vec::from_elem(alloc, 0u8, window_bytes(header.xd))?;
    let mut window = Window::over(lent.as_mut_slice(), header.xd);
    let mut source = Pieces::new(body, 4096, None);
    let mut bytes = Vec::new(alloc);
    let mut output = ToWrite::new(&mut bytes);
    let answer = decode(header, height, &mut window, &mut source, &mut output);
    let head = format!(in alloc; "P4\n{} {height}\n", header.xd)?;
    let rows = bytes.as_slice().get(head.len()..).ok_or("no head")?;
    Ok(Given {
        rows: rows.to_vec(alloc)?,
        end: match answer {
            Ok(()) => Outcome::Done(height),
            Err(fault) => Outcome::Broken(fault),
        },
    })
}

/// Continues with a piece, which is the last if the end is signalled: by `feed` if bytes may be stored, and otherwise
/// by `next`.
fn go_on(
    decoder: &mut PieceDecoder,
    window: &mut Window<'_>,
    learned: &mut Learned,
    held: &mut Option<HeldBytes>,
    piece: &[u8],
    told: bool,
) -> Progress {
    let more = if told { More::None } else { More::Comes };
    match held {
        Some(held) => decoder.feed(window, learned, held, piece, more),
        None => decoder.next(window, learned, piece, more),
    }
}

/// Continues with the bytes that have arrived and were not consumed.
fn call(
    decoder: &mut PieceDecoder,
    window: &mut Window<'_>,
    learned: &mut Learned,
    held: &mut Option<HeldBytes>,
    feed: &mut Feed<'_>,
    told: bool,
) -> Outcome {
    let progress = go_on(decoder, window, learned, held, feed.shown(), told);
    feed.take(progress.taken);
    progress.outcome
}

/// Whether later calls consume nothing and return the same end: on the unconsumed bytes, and on other bytes.
fn answers_again(
    decoder: &mut PieceDecoder,
    window: &mut Window<'_>,
    learned: &mut Learned,
    held: &mut Option<HeldBytes>,
    end: Outcome,
    rest: &[u8],
) -> bool {
    let other = [0xFF, 2, 0xFF, 5, 0];
    let again = Progress {
        outcome: end,
        taken: 0,
    };
    let before = *held;
    go_on(decoder, window, learned, held, rest, false) == again
        && go_on(decoder, window, learned, held, &other, true) == again
        && *held == before
}

/// The greatest number of calls up to the end: each consumes a byte, returns a row, or signals the end, once more.
fn most_calls(header: &Header, body: &[u8]) -> u64 {
    (body.len() as u64)
        .saturating_add(u64::from(header.yd))
        .saturating_add(3)
}

/// The result of a stream that arrives in pieces, with bytes stored or not. There is none if no end is reached, a call
/// after the end returns something else, more is requested after the last byte, more of a piece is left than allowed,
/// or rows that were certain are later not certain, or not the image's.
fn take_pieces(
    alloc: Global,
    header: Header,
    body: &[u8],
    mut held: Option<HeldBytes>,
    cuts: &mut Cuts<'_>,
) -> Result<Option<Given>, Fail> {
    let most_left = if held.is_some() { 0 } else { MOST_LEFT };
    let mut lent = Vec::from_elem(alloc, 0u8, window_bytes(header.xd))?;
    let mut window = Window::over(lent.as_mut_slice(), header.xd);
    let mut learned = Learned::new();
    let mut decoder = PieceDecoder::start(header, &mut window, &mut learned);
    let mut feed = Feed::new(body);
    let mut rows = Vec::new(alloc);
    let by_itself = cuts.ends_by_itself();
    let mut told = false;
    let mut certain = 0;
    'calls: for _ in 0..most_calls(&header, body) {
        let answer = call(
            &mut decoder,
            &mut window,
            &mut learned,
            &mut held,
            &mut feed,
            told,
        );
        if decoder.certain() < certain {
            return Ok(None);
        }
        certain = decoder.certain();
        match answer {
            Outcome::Row => rows.extend_from_slice(window.row(0))?,
            Outcome::More if told || feed.come > most_left => return Ok(None),
            Outcome::More if feed.is_all() => told = true,
            Outcome::More => {
                feed.come(cuts.next());
                told = feed.is_all() && !by_itself;
            }
            end => {
                let stays = certain == decoder.height()
                    && answers_again(
                        &mut decoder,
                        &mut window,
                        &mut learned,
                        &mut held,
                        end,
                        feed.rest,
                    );
                if let Outcome::Done(height) = end {
                    rows.truncate(row_bytes(header.xd).saturating_mul(height as usize));
                }
                return Ok(stays.then_some(Given { rows, end }));
            }
        }
    }
    Ok(None)
}

/// A stream after its header, and the result of the whole.
#[derive(Drop)]
pub struct Case<'a> {
    header: Header,
    body: &'a [u8],
    whole: Given,
}

impl<'a> Case<'a> {
    pub fn new(alloc: Global, header: Header, body: &'a [u8]) -> Result<Case<'a>, Fail> {
        let found = find_height(&header, &mut Pieces::new(body, 4096, None))?;
        if found == 0 || found > header.yd {
            return Err("a height beyond the header's")?;
        }
        Ok(Case {
            header,
            body,
            whole: decoded(alloc, &header, found, body)?,
        })
    }

    /// Whether the stream has the same result in these pieces.
    pub fn is_given(
        &self,
        alloc: Global,
        cuts: &mut Cuts<'_>,
        ends: &mut Ends,
    ) -> Result<bool, Fail> {
        ends.count(&self.header, self.whole.end);
        let given = take_pieces(alloc, self.header, self.body, None, cuts)?;
        Ok(given.as_ref() == Some(&self.whole))
    }

    /// The same if each piece is passed to `feed`, and consumed whole when more is needed.
    pub fn is_fed(&self, alloc: Global, cuts: &mut Cuts<'_>) -> Result<bool, Fail> {
        let held = Some(HeldBytes::none());
        let given = take_pieces(alloc, self.header, self.body, held, cuts)?;
        Ok(given.as_ref() == Some(&self.whole))
    }

    /// The same if only numbers of the decoder are stored.
    fn is_given_again(&self, alloc: Global, cuts: &mut Cuts<'_>) -> Result<bool, Fail> {
        let given = take_pieces_kept(alloc, self.header, self.body, cuts)?;
        Ok(given.as_ref() == Some(&self.whole))
    }
}
