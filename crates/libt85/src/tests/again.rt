//! Tests of rows that are returned again.

use crate::tests::PLAIN;
use crate::{
    T85Decoder, T85Options, t85_decode_again, t85_decode_bytes, t85_decode_end, t85_encode,
};

/// 200 white rows of 64 pixels are announced in one stripe, and 100 are the image. The code contains zeros that usually
/// follow it unwritten, so it determines more rows by itself.
const LATE_WHITE: &[u8] =
    b"\0\0\x01\0\0\0\0\x40\0\0\0\xc8\0\0\0\xc8\0\0\0\x28\0\0\0\0\0\0\0\0\xff\x02\xff\x05\0\0\0\x64\xff\x02";

/// The result of calls with a stream of white rows: the last status, the number of rows, how many of them
/// `t85_decode_again` returned, and whether all were white.
#[derive(Clone, Copy)]
struct Returned {
    status: u8,
    rows: u32,
    again: u32,
    are_white: bool,
}

/// Passes the stream from a position on, or signals its end, and then asks for rows again. Returns the new position.
fn go_on(
    decoder: &mut T85Decoder,
    window: &mut [u8; 24],
    stream: &[u8],
    at: usize,
    given: &mut Returned,
) -> usize {
    let (_, rest) = stream.split_at(at.min(stream.len()));
    let (mut taken, mut row) = (0, 0);
    given.status = if rest.is_empty() && given.status == 62 {
        t85_decode_end(decoder, window, &mut row)
    } else {
        t85_decode_bytes(decoder, rest, window, &mut taken, &mut row)
    };
    let again = t85_decode_again(decoder, window);
    let is_row = given.status == 61;
    given.are_white = given.are_white && (!is_row || *window == [0; 24]) && (is_row || again == 0);
    given.rows = given
        .rows
        .saturating_add(u32::from(is_row))
        .saturating_add(again);
    given.again = given.again.saturating_add(again);
    at.saturating_add(taken)
}

/// The result for a whole stream of white rows.
fn decode(stream: &[u8], max_rows: u32) -> Returned {
    let mut decoder = T85Decoder::first(max_rows);
    let mut window = [0xaa; 24];
    let mut given = Returned {
        status: 62,
        rows: 0,
        again: 0,
        are_white: true,
    };
    let mut at = 0;
    for _ in 0..300 {
        if given.status >= 60 {
            at = go_on(&mut decoder, &mut window, stream, at, &mut given);
        }
    }
    given
}

/// Encodes 200 white rows of 64 pixels in stripes of 60 rows, and returns the length of the stream.
fn encode_white(stream: &mut [u8; 99]) -> usize {
    let mut window = [0; 24];
    let mut written = 0;
    let options = T85Options {
        options: 8,
        stripe_rows: 60,
        ..PLAIN
    };
    t85_encode(
        64,
        200,
        &[0; 1600],
        8,
        &options,
        b"",
        &mut window,
        stream,
        &mut written,
    );
    written
}

#[test]
fn white_rows_are_returned_again(rt: HostRuntime) {
    let mut stream = [0; 99];
    let len = encode_white(&mut stream);
    let given = decode(&stream[..len.min(99)], 200);
    assert!(rt; given.status == 0 && given.rows == 200 && given.are_white);
    assert!(rt; given.again > 100);
}

#[test]
fn rows_of_the_limit_are_returned_again(rt: HostRuntime) {
    for limit in [1, 2, 3, 20, 99, 100] {
        let given = decode(LATE_WHITE, limit);
        assert!(rt; given.status == 24 && given.rows == limit && given.are_white);
    }
    assert!(rt; decode(LATE_WHITE, 20).again > 0);
    let given = decode(LATE_WHITE, 200);
    assert!(rt; given.status == 0 && given.rows >= 100 && given.are_white);
}

#[test]
fn no_row_precedes_the_first(rt: HostRuntime) {
    let mut decoder = T85Decoder::first(100);
    let mut window = [0xaa; 24];
    assert!(rt; t85_decode_again(&mut decoder, &mut window) == 0);
    let (mut taken, mut row) = (0, 0);
    let status = t85_decode_bytes(&mut decoder, LATE_WHITE, &mut window, &mut taken, &mut row);
    assert!(rt; status == 60 && t85_decode_again(&mut decoder, &mut window) == 0);
    assert!(rt; window == [0xaa; 24]);
}

#[test]
fn refused_decoders_return_no_row_again(rt: HostRuntime) {
    let mut decoder = T85Decoder::first(100);
    let mut window = [0xaa; 24];
    let (mut taken, mut row) = (0, 0);
    t85_decode_bytes(&mut decoder, LATE_WHITE, &mut window, &mut taken, &mut row);
    let (_, body) = LATE_WHITE.split_at(20);
    t85_decode_bytes(&mut decoder, body, &mut window, &mut taken, &mut row);
    assert!(rt; decoder.given == 1);
    assert!(rt; t85_decode_again(&mut decoder, &mut [0; 23]) == 0);
    decoder.version = 1;
    assert!(rt; t85_decode_again(&mut decoder, &mut window) == 0);
    decoder.version = 2;
    decoder.next = 3;
    assert!(rt; t85_decode_again(&mut decoder, &mut window) == 0);
    decoder.next = 2;
    decoder.place = 3;
    assert!(rt; t85_decode_again(&mut decoder, &mut window) == 0);
}
