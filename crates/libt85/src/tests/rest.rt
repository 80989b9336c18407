//! Tests of consuming what belongs to a stream behind its last stripe.

use crate::tests::{LATE, TWO_ROWS};
use crate::{T85Decoder, t85_decode_bytes, t85_decode_rest};

/// Two stripes of one row, of nine announced, and the height behind them with an empty stripe data entity; other bytes
/// follow.
const BEHIND: &[u8] =
    b"\0\0\x01\0\0\0\0\x01\0\0\0\x09\0\0\0\x01\0\0\0\x20\xc0\xff\x02\xc0\xff\x02\xff\x05\0\0\0\x02\xff\x02\0\0\x01\0";

/// The same with the other end marker.
const RESET: &[u8] =
    b"\0\0\x01\0\0\0\0\x01\0\0\0\x09\0\0\0\x01\0\0\0\x20\xc0\xff\x03\xc0\xff\x03\xff\x05\0\0\0\x02\xff\x03";

/// A comment and the height behind the last stripe, and no empty stripe data entity: other bytes follow.
const NO_ENTITY: &[u8] =
    b"\0\0\x01\0\0\0\0\x01\0\0\0\x09\0\0\0\x01\0\0\0\x20\xc0\xff\x02\xc0\xff\x02\xff\x07\0\0\0\x01!\xff\x05\0\0\0\x02\xff\xff\x02";

/// The same without other bytes.
const NOTHING: &[u8] =
    b"\0\0\x01\0\0\0\0\x01\0\0\0\x09\0\0\0\x01\0\0\0\x20\xc0\xff\x02\xc0\xff\x02\xff\x05\0\0\0\x02";

/// Bytes of a stream: those from a position on, at most `step`.
fn piece(stream: &[u8], at: usize, step: usize) -> &[u8] {
    let (_, rest) = stream.split_at(at.min(stream.len()));
    let (piece, _) = rest.split_at(step.min(rest.len()));
    piece
}

/// The number of bytes consumed up to the end of the image, in pieces of this many bytes, and the decoder.
fn decoded(stream: &[u8], step: usize) -> (T85Decoder, u8, usize) {
    let mut decoder = T85Decoder::first(9);
    let mut window = [0xaa; 24];
    let (mut status, mut at) = (62, 0usize);
    for _ in 0..60 {
        if status >= 60 {
            let (mut taken, mut row) = (0, 0);
            let bytes = piece(stream, at, step);
            status = t85_decode_bytes(&mut decoder, bytes, &mut window, &mut taken, &mut row);
            at = at.saturating_add(taken);
        }
    }
    (decoder, status, at)
}

/// The status behind the image, and the number of bytes that were consumed in all, in pieces of this many bytes, and of
/// one more behind the image.
fn consumed(stream: &[u8], step: usize) -> (u8, usize) {
    let (mut decoder, mut status, mut at) = decoded(stream, step);
    if status != 0 {
        return (status, at);
    }
    for _ in 0..20 {
        let mut taken = 77;
        let bytes = piece(stream, at, step.saturating_add(1));
        status = t85_decode_rest(&mut decoder, bytes, &mut taken);
        at = at.saturating_add(taken);
    }
    (status, at)
}

/// Whether these are the status and the number of bytes for pieces of all sizes.
fn consumes(stream: &[u8], status: u8, len: usize) -> bool {
    for step in 1..50 {
        if consumed(stream, step) != (status, len) {
            return false;
        }
    }
    true
}

#[test]
fn late_heights_are_consumed(rt: HostRuntime) {
    assert!(rt; consumes(BEHIND, 0, 34));
    assert!(rt; consumes(RESET, 0, 34));
    assert!(rt; consumes(NO_ENTITY, 0, 39));
}

#[test]
fn rests_await_an_entity(rt: HostRuntime) {
    assert!(rt; consumes(NOTHING, 62, 32));
    let (mut decoder, status, at) = decoded(NOTHING, 50);
    assert!(rt; status == 0 && at == 32);
    let mut taken = 77;
    assert!(rt; t85_decode_rest(&mut decoder, b"", &mut taken) == 62 && taken == 0);
    assert!(rt; t85_decode_rest(&mut decoder, b"\xff", &mut taken) == 62 && taken == 0);
    assert!(rt; t85_decode_rest(&mut decoder, b"\xff\x04", &mut taken) == 0 && taken == 0);
    assert!(rt; t85_decode_rest(&mut decoder, b"\xff\x02", &mut taken) == 0 && taken == 0);
}

#[test]
fn streams_without_a_rest_are_consumed(rt: HostRuntime) {
    assert!(rt; consumes(LATE, 0, 32));
    assert!(rt; consumes(TWO_ROWS, 0, 23));
}

#[test]
fn other_bytes_are_not_consumed(rt: HostRuntime) {
    let (mut decoder, status, at) = decoded(BEHIND, 50);
    assert!(rt; status == 0 && at == 32);
    let mut taken = 77;
    assert!(rt; t85_decode_rest(&mut decoder, b"\xff\x05\0\0\0\x02", &mut taken) == 0);
    assert!(rt; taken == 0);
    assert!(rt; t85_decode_rest(&mut decoder, b"\xff\x02", &mut taken) == 0 && taken == 0);
    let (mut decoder, _, _) = decoded(BEHIND, 50);
    assert!(rt; t85_decode_rest(&mut decoder, b"\xff\x02\xff\x02", &mut taken) == 0);
    assert!(rt; taken == 2);
    assert!(rt; t85_decode_rest(&mut decoder, b"\xff\x02", &mut taken) == 0 && taken == 0);
}

/// The status behind a stream, and the number of bytes consumed there.
fn behind(stream: &[u8]) -> (u8, usize) {
    let (mut decoder, _, _) = decoded(stream, 50);
    let mut taken = 77;
    let status = t85_decode_rest(&mut decoder, b"\xff\x02", &mut taken);
    (status, taken)
}

#[test]
fn decoders_that_have_no_rest_are_told(rt: HostRuntime) {
    // Within the header, and within a stripe; broken; without a late height.
    assert!(rt; behind(&BEHIND[..10]) == (53, 0));
    assert!(rt; behind(&BEHIND[..21]) == (53, 0));
    assert!(rt; behind(b"\0\0\x01\0\0\0\0\x01\0\0\0\x09\0\0\0\x01\0\0\0\x20\xff\x04") == (11, 0));
    assert!(rt; behind(TWO_ROWS) == (0, 0));
    let mut other = T85Decoder::first(9);
    other.version = 2;
    let mut taken = 77;
    assert!(rt; t85_decode_rest(&mut other, b"\xff\x05", &mut taken) == 53 && taken == 0);
}
