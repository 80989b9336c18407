//! Tests of ending a stream that cannot be completed.

use crate::tests::encoding::CODED;
use crate::tests::rows::{Sent, begun, go_on, zeros};
use crate::tests::{Coded, decode};
use crate::{T85Encoder, t85_encode_abort, t85_encode_rows_left};

/// Aborts a stream, with an output buffer of this many bytes.
fn abort(encoder: &mut T85Encoder, room: usize, sent: &mut Sent) {
    let mut stream = [0xaa; 4];
    let mut written = 77;
    let status = t85_encode_abort(encoder, &mut stream[..room.min(4)], &mut written);
    sent.add(status, &stream[..written.min(4)]);
}

#[test]
fn streams_are_aborted_once(rt: HostRuntime) {
    let mut window = [0xaa; 24];
    let (mut encoder, mut sent) = begun(&CODED[0], &mut window, 64);
    abort(&mut encoder, 1, &mut sent);
    assert!(rt; sent.status == 18 && sent.count == 20);
    assert!(rt; t85_encode_rows_left(&encoder) == 1);
    abort(&mut encoder, 4, &mut sent);
    assert!(rt;
        sent.is(
            0,
            b"\0\0\x01\0\0\0\0\x08\0\0\0\x01\0\0\0\x80\0\0\0\0\xff\x04"
        )
    );
    assert!(rt; t85_encode_rows_left(&encoder) == 0);
    abort(&mut encoder, 0, &mut sent);
    assert!(rt; sent.status == 54 && sent.count == 22);
    go_on(&mut encoder, Some(b"\0"), &mut window, 0, &mut sent);
    assert!(rt; sent.status == 54 && sent.count == 22);
    go_on(&mut encoder, None, &mut window, 0, &mut sent);
    assert!(rt; sent.status == 54 && sent.count == 22);
}

/// The stream of an example that is aborted after this many rows.
fn aborted(example: &Coded, rows: usize) -> Sent {
    let mut window = [0xaa; 24];
    let (mut encoder, mut sent) = begun(example, &mut window, 64);
    for _ in 0..rows {
        go_on(&mut encoder, Some(example.rows), &mut window, 0, &mut sent);
    }
    abort(&mut encoder, 2, &mut sent);
    sent
}

/// The status of decoding the bytes that were sent, and the number of bytes written.
fn decode_sent(sent: &Sent, image: &mut [u8]) -> (u8, usize) {
    decode(&sent.bytes[..sent.count.min(64)], 9, 24, image)
}

#[test]
fn aborted_streams_are_told(rt: HostRuntime) {
    let mut image = [0xaa; 24];
    let none = aborted(&CODED[1], 0);
    assert!(rt;
        none.is(
            0,
            b"\0\0\x01\0\0\0\0\x01\0\0\0\x02\0\0\0\x01\0\0\0\x08\xff\x04"
        )
    );
    assert!(rt; decode_sent(&none, &mut image) == (11, 7));
    let one = aborted(&CODED[1], 1);
    assert!(rt;
        one.is(
            0,
            b"\0\0\x01\0\0\0\0\x01\0\0\0\x02\0\0\0\x01\0\0\0\x08\xe0\xff\x02\xff\x04"
        )
    );
    assert!(rt; decode_sent(&one, &mut image) == (11, 8));
    assert!(rt; &image[..8] == b"P4\n1 2\n\x80".as_slice());
}

#[test]
fn nothing_is_aborted_before_the_start(rt: HostRuntime) {
    let mut encoder = zeros();
    let mut sent = aborted(&CODED[0], 0);
    abort(&mut encoder, 4, &mut sent);
    assert!(rt; sent.status == 53 && sent.count == 22);
    let mut window = [0xaa; 24];
    let (mut other, _) = begun(&CODED[0], &mut window, 64);
    other.version = 2;
    abort(&mut other, 4, &mut sent);
    assert!(rt; sent.status == 53 && sent.count == 22);
    let (mut placed, _) = begun(&CODED[0], &mut window, 64);
    placed.place = 3;
    abort(&mut placed, 4, &mut sent);
    assert!(rt; sent.status == 53 && sent.count == 22);
}
