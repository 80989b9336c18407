//! Tests of streams in pieces.

use crate::tests::{DECODED, Decoded, LATE, TWO_ROWS, TWO_STRIPES};
use crate::{T85Decoder, t85_decode_bytes, t85_decode_end, t85_decode_height, t85_decode_start};

/// The results of calls with pieces of a stream: the last status, the rows of one byte that were returned, and their
/// number.
#[derive(Clone, Copy)]
struct Given {
    status: u8,
    rows: [u8; 4],
    count: usize,
}

/// Passes at most `step` bytes of a stream from a position on, or signals the end, and returns the new position.
fn go_on(
    decoder: &mut T85Decoder,
    window: &mut [u8; 24],
    stream: &[u8],
    at: usize,
    step: usize,
    given: &mut Given,
) -> usize {
    if given.status < 60 {
        return at;
    }
    let (_, rest) = stream.split_at(at.min(stream.len()));
    let (piece, _) = rest.split_at(step.min(rest.len()));
    let (mut taken, mut row) = (0, 0);
    given.status = if rest.is_empty() && given.status == 62 {
        t85_decode_end(decoder, window, &mut row)
    } else {
        t85_decode_bytes(decoder, piece, window, &mut taken, &mut row)
    };
    if given.status == 61 && given.count < 4 {
        given.rows[given.count] = window[row.min(23)];
        given.count += 1;
    }
    at.saturating_add(taken)
}

/// The result for a stream in pieces of this many bytes, and the height reported at the end.
fn in_pieces(stream: &[u8], step: usize, max_rows: u32) -> (Given, u32) {
    let mut decoder = T85Decoder::first(0);
    let mut window = [0xaa; 24];
    let mut given = Given {
        status: 62,
        rows: [0; 4],
        count: 0,
    };
    t85_decode_start(&mut decoder, 1280, max_rows);
    let mut at = 0;
    for _ in 0..100 {
        at = go_on(&mut decoder, &mut window, stream, at, step, &mut given);
    }
    (given, t85_decode_height(&decoder))
}

/// Whether a stream in pieces has the status and the rows of an example.
fn gives(example: &Decoded, step: usize) -> bool {
    let (given, _) = in_pieces(example.stream, step, u32::MAX);
    let (_, rows) = example.image.split_at(example.image.len().min(7));
    given.status == example.status && &given.rows[..given.count.min(4)] == rows
}

#[test]
fn streams_in_pieces_are_decoded(rt: HostRuntime) {
    for example in &DECODED {
        assert!(rt; gives(example, 1));
        assert!(rt; gives(example, 5));
        assert!(rt; gives(example, 100));
    }
}

#[test]
fn heights_in_pieces_are_told(rt: HostRuntime) {
    assert!(rt; in_pieces(LATE, 1, 9).1 == 2);
    assert!(rt; in_pieces(TWO_ROWS, 3, 2).1 == 2);
    assert!(rt; in_pieces(&LATE[..19], 3, 9).1 == 0);
    assert!(rt; in_pieces(TWO_ROWS, 3, 1).1 == 0);
    assert!(rt; in_pieces(EARLY, 1, 1).1 == 2);
}

/// Five rows are announced in one stripe, whose code means one row or more, and one arrives.
const ONE_OF_FIVE: &[u8] =
    b"\0\0\x01\0\0\0\0\x01\0\0\0\x05\0\0\0\x80\0\0\0\x20\xc0\xff\x02\xff\x05\0\0\0\x01\xff\x02";
/// The same, but the code contains the zeros that usually follow it unwritten, so it determines further rows by itself.
const WITH_ZEROS: &[u8] =
    b"\0\0\x01\0\0\0\0\x01\0\0\0\x05\0\0\0\x80\0\0\0\x20\xc0\0\0\0\xff\x02\xff\x05\0\0\0\x01\xff\x02";
/// As many rows as the header can announce, in stripes of one row. Two arrive, and then the height.
const TWO_OF_MOST: &[u8] =
    b"\0\0\x01\0\0\0\0\x01\xff\xff\xff\xff\0\0\0\x01\0\0\0\x20\xc0\xff\x02\xc0\xff\x02\xff\x05\0\0\0\x02\xff\x02";
/// Nine rows are announced. The height precedes the first of two stripes.
const EARLY: &[u8] =
    b"\0\0\x01\0\0\0\0\x01\0\0\0\x09\0\0\0\x01\0\0\0\x20\xff\x05\0\0\0\x02\xc0\xff\x02\xc0\xff\x02";
/// The height may change, but it does not.
const UNCHANGED: &[u8] =
    b"\0\0\x01\0\0\0\0\x01\0\0\0\x02\0\0\0\x01\0\0\0\x20\xc0\xff\x02\xc0\xff\x02";

/// Whether a stream ends with this status after this many rows of one black pixel, however it is cut.
fn ends(stream: &[u8], max_rows: u32, status: u8, count: usize) -> bool {
    for step in [1, 2, 3, 5, 7, 100] {
        let (given, _) = in_pieces(stream, step, max_rows);
        let rows = &given.rows[..given.count.min(4)];
        if given.status != status || given.count != count || rows.iter().any(|row| *row != 0x80) {
            return false;
        }
    }
    true
}

#[test]
fn limit_counts_late_where_the_height_may_change(rt: HostRuntime) {
    assert!(rt; ends(TWO_OF_MOST, 0, 24, 0));
    assert!(rt; ends(TWO_OF_MOST, 1, 24, 1));
    assert!(rt; ends(TWO_OF_MOST, 2, 0, 2));
    assert!(rt; ends(TWO_OF_MOST, 9, 0, 2));
    assert!(rt; ends(ONE_OF_FIVE, 0, 24, 0));
    assert!(rt; ends(ONE_OF_FIVE, 1, 0, 1));
    assert!(rt; ends(EARLY, 1, 24, 0));
    assert!(rt; ends(EARLY, 2, 0, 2));
    assert!(rt; ends(UNCHANGED, 1, 24, 1));
    assert!(rt; ends(UNCHANGED, 2, 0, 2));
    assert!(rt; ends(LATE, 1, 24, 1));
    assert!(rt; ends(TWO_STRIPES, 1, 24, 0));
}

#[test]
fn rows_beyond_the_limit_are_not_returned(rt: HostRuntime) {
    assert!(rt; ends(WITH_ZEROS, 1, 24, 1));
    assert!(rt; in_pieces(WITH_ZEROS, 1, 5).0.status == 0);
    assert!(rt; in_pieces(WITH_ZEROS, 1, 5).1 == 1);
}

#[test]
fn cut_streams_are_above_the_limit_once_it_is_certain(rt: HostRuntime) {
    for len in 20..EARLY.len() {
        assert!(rt; ends(&EARLY[..len], 1, if len < 26 { 9 } else { 24 }, 0));
    }
    // The second stripe begins with byte 23.
    for len in 20..TWO_OF_MOST.len() {
        let certain = if len < 24 { 9 } else { 24 };
        assert!(rt;
            ends(
                &TWO_OF_MOST[..len],
                1,
                certain,
                if len < 23 { 0 } else { 1 }
            )
        );
    }
}
