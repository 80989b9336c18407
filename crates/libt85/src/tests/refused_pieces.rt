//! A decoder in pieces rejects a struct of another size or state, and a window that is too short.

use crate::tests::LATE;
use crate::{T85Decoder, t85_decode_bytes, t85_decode_certain, t85_decode_start};

/// The statuses of a first call with the header of `LATE`, for a decoder with this version, and of a second call with a
/// window of this many bytes.
fn statuses(version: u32, window: usize) -> (u8, u8) {
    let mut decoder = T85Decoder::first(9);
    decoder.version = version;
    let (mut taken, mut row) = (0, 0);
    let (head, rest) = LATE.split_at(20);
    let mut lent = [0; 3];
    let first = t85_decode_bytes(&mut decoder, head, &mut [], &mut taken, &mut row);
    let window = &mut lent[..window.min(3)];
    (
        first,
        t85_decode_bytes(&mut decoder, rest, window, &mut taken, &mut row),
    )
}

#[test]
fn misuse_of_a_decoder_is_told(rt: HostRuntime) {
    assert!(rt; statuses(2, 3) == (60, 61));
    assert!(rt; statuses(2, 2) == (60, 19));
    assert!(rt; statuses(0, 3) == (53, 53));
    assert!(rt; statuses(1, 3) == (53, 53));
}

/// The number of ways in which `spoil` changes a struct.
const WAYS: u32 = 28;

/// Changes a struct among the rows of a stream to one that no call leaves; there are several ways.
fn spoil(decoder: &mut T85Decoder, way: u32) {
    let numbers = &mut decoder.numbers;
    match way {
        0 => numbers.height = 0,
        1 => numbers.height = 10,
        2 => numbers.offset = 128,
        3 => numbers.stage.next = 5,
        4 => numbers.stage.ahead = 255,
        5 => numbers.stage.marker = 3,
        6 => {
            numbers.stage.ahead = 256;
            numbers.stage.marker = 1;
        }
        7 => numbers.decoder.has_ended = 2,
        8 => numbers.decoder.span = 0,
        9 => {
            numbers.behind.at.is_there = 1;
            numbers.behind.at.offset = 128;
        }
        10 => decoder.place = 3,
        11 => decoder.header[0] = 1,
        12 => decoder.next = 4,
        13 => decoder.version = 1,
        14 => {
            numbers.waits = 0;
            numbers.stage.next = 0;
        }
        15 => numbers.waits = 2,
        16 => numbers.waits = 3,
        17 => numbers.height = 1,
        18 => numbers.entities = 1,
        19 => numbers.left = 0,
        20 => numbers.left = 8,
        21 => numbers.stage.next = 1,
        22 => {
            numbers.stage.next = 0;
            numbers.stage.at.is_there = 1;
        }
        23 => numbers.stage.next = 4,
        24 => {
            numbers.stage.next = 2;
            numbers.stage.row = 2;
        }
        25 => {
            numbers.stage.next = 3;
            numbers.stage.row = 1;
        }
        26 => {
            numbers.stage.next = 3;
            numbers.stage.row = 0;
            numbers.stage.place.done = 1;
        }
        27 => {
            numbers.stage.next = 2;
            numbers.stage.row = u32::MAX;
        }
        _ => {}
    }
}

/// The result of a call that follows the first row of `LATE`, after the struct was changed in this way: the status, the
/// number of bytes consumed, and the number of certain rows.
fn spoilt(way: u32, window: usize) -> (u8, usize, u32) {
    let mut decoder = T85Decoder::first(9);
    let (mut taken, mut row) = (0, 0);
    let mut lent = [0; 3];
    let (head, rest) = LATE.split_at(20);
    t85_decode_bytes(&mut decoder, head, &mut [], &mut taken, &mut row);
    t85_decode_bytes(&mut decoder, rest, &mut lent, &mut taken, &mut row);
    let (_, rest) = rest.split_at(taken.min(rest.len()));
    spoil(&mut decoder, way);
    let certain = t85_decode_certain(&decoder);
    let window = &mut lent[..window.min(3)];
    let status = t85_decode_bytes(&mut decoder, rest, window, &mut taken, &mut row);
    (status, taken, certain)
}

#[test]
fn numbers_of_no_decoder_are_refused(rt: HostRuntime) {
    for way in 0..WAYS {
        assert!(rt; spoilt(way, 3) == (53, 0, 0));
        assert!(rt; spoilt(way, 0) == (53, 0, 0));
    }
    let (status, _, certain) = spoilt(WAYS, 3);
    assert!(rt; status == 61 && certain == 1);
    assert!(rt; spoilt(WAYS, 0) == (19, 0, 1));
}

/// The status of initializing a struct of this size, and the version that it then contains.
fn begun(size: usize) -> (u8, u32) {
    let mut decoder = T85Decoder::first(9);
    decoder.version = 7;
    let status = t85_decode_start(&mut decoder, size, 9);
    (status, decoder.version)
}

#[test]
fn struct_of_another_size_is_refused(rt: HostRuntime) {
    assert!(rt; begun(1279) == (50, 7));
    assert!(rt; begun(1280) == (0, 2));
}
