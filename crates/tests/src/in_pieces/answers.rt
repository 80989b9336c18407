//! Compares the result of each call with one worked out by hand.

use crate::in_pieces::{Feed, call};
use crate::trial::Bytes::Hex;
use pbm_core::trial::Pieces;
use qm_core::Learned;
use raster_core::{Window, window_bytes};
use std::alloc::Global;
use std::process::Abort;
use std::test::Fail;
use t85_core::{Header, Outcome, PieceDecoder};

/// The results of calls, each with this many more bytes, for a stream with one pixel per row: two stripes of one row,
/// of nine that are announced, and the height. A row that only its end marker determines waits until the bytes behind
/// the marker show that no height cuts it off. The last number is how many rows are certain then.
static ANSWERS: [(usize, Outcome, u32); 9] = [
    // The first stripe, and the code of the second.
    (3, Outcome::More, 1),
    (1, Outcome::Row, 1),
    (0, Outcome::More, 2),
    // Its end marker, and the height.
    (2, Outcome::More, 2),
    (2, Outcome::More, 2),
    (3, Outcome::More, 2),
    (1, Outcome::Row, 2),
    (0, Outcome::Done(2), 2),
    (0, Outcome::Done(2), 2),
];

/// The same for rows of eight pixels. Three code bytes determine the first row (T.82, 6.8), so it does not wait for the
/// bytes behind the end marker that comes with them.
static DETERMINED: [(usize, Outcome, u32); 3] = [
    (5, Outcome::Row, 1),
    (0, Outcome::More, 1),
    // The code of the second stripe begins.
    (1, Outcome::More, 2),
];

/// Five rows of one pixel in one stripe, whose code determines them all (T.82, 6.8). Its end marker is in the same
/// piece, and a height behind it may still cut off all but the first; yet no row waits.
static AT_THE_MARKER: [(usize, Outcome, u32); 6] = [
    (6, Outcome::Row, 1),
    (0, Outcome::Row, 1),
    (0, Outcome::Row, 1),
    (0, Outcome::Row, 1),
    (0, Outcome::Row, 1),
    (0, Outcome::More, 1),
];

/// Asserts the results of calls, each with this many more bytes of the stream, and the number of certain rows.
fn assert_answers(
    rt: &impl Abort,
    alloc: Global,
    stream: &[u8],
    answers: &[(usize, Outcome, u32)],
    height: u32,
) -> Result<(), Fail> {
    let mut input = Pieces::new(stream, 4096, None);
    let header = Header::read(&mut input)?;
    let mut lent = Vec::from_elem(alloc, 0u8, window_bytes(header.xd))?;
    let mut window = Window::over(lent.as_mut_slice(), header.xd);
    let mut learned = Learned::new();
    let mut decoder = PieceDecoder::start(header, &mut window, &mut learned);
    let mut feed = Feed::new(input.rest);
    'calls: for &(count, answer, certain) in answers {
        feed.come(count);
        let told = call(
            &mut decoder,
            &mut window,
            &mut learned,
            &mut None,
            &mut feed,
            false,
        );
        assert_eq!(rt; told, answer);
        assert_eq!(rt; decoder.certain(), certain);
    }
    assert_eq!(rt; decoder.height(), height);
    Ok(())
}

#[test]
fn rows_wait_for_a_height(rt: HostRuntime) -> Result<(), Fail> {
    let stream = Hex(
        "00000100 00000001 00000009 00000001 00 0000 20 C0 FF02 C0 FF02 FF05 00000002",
    ).to_vec(rt.alloc())?;
    assert_answers(&rt, rt.alloc(), &stream, &ANSWERS, 2)
}

#[test]
fn determined_rows_do_not_wait(rt: HostRuntime) -> Result<(), Fail> {
    let stream = Hex("00000100 00000008 00000009 00000001 00 0000 20 F00000 FF02 F0").to_vec(
        rt.alloc(),
    )?;
    assert_answers(&rt, rt.alloc(), &stream, &DETERMINED, 9)?;
    let stream = Hex("00000100 00000001 00000005 00000080 00 0000 20 C0000000 FF02").to_vec(
        rt.alloc(),
    )?;
    assert_answers(&rt, rt.alloc(), &stream, &AT_THE_MARKER, 5)
}
