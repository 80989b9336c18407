//! An encoder rejects rows, ends, buffers and structs that are not valid, and a rejected row or end changes nothing.

use crate::tests::Coded;
use crate::tests::encoding::CODED;
use crate::tests::rows::{Sent, begun, go_on, zeros};
use crate::{T85Encoder, t85_encode_start};

/// The status of a row, or of the end, for an encoder, with a window of this many bytes and an output buffer this many
/// bytes shorter than reported.
fn status_of(
    encoder: &mut T85Encoder,
    row: Option<&[u8]>,
    window: &mut [u8; 24],
    len: usize,
    fewer: usize,
) -> u8 {
    let mut sent = Sent {
        status: 0,
        bytes: [0; 64],
        count: 0,
    };
    go_on(encoder, row, &mut window[..len.min(24)], fewer, &mut sent);
    sent.status
}

#[test]
fn refused_rows_leave_an_encoder_as_it_was(rt: HostRuntime) {
    let mut window = [0xaa; 24];
    let (mut encoder, mut sent) = begun(&CODED[0], &mut window, 20);
    assert!(rt; sent.status == 0 && sent.count == 20);
    assert!(rt; status_of(&mut encoder, Some(b""), &mut window, 2, 1) == 55);
    assert!(rt; status_of(&mut encoder, Some(b"\0"), &mut window, 2, 1) == 19);
    assert!(rt; status_of(&mut encoder, Some(b"\0"), &mut window, 24, 1) == 18);
    assert!(rt; status_of(&mut encoder, None, &mut window, 2, 1) == 36);
    go_on(&mut encoder, Some(b"\0\xff"), &mut window, 0, &mut sent);
    go_on(&mut encoder, None, &mut window, 0, &mut sent);
    assert!(rt; sent.is(0, CODED[0].stream));
}

#[test]
fn refused_ends_leave_an_encoder_as_it_was(rt: HostRuntime) {
    let mut window = [0xaa; 24];
    let (mut encoder, mut sent) = begun(&CODED[0], &mut window, 20);
    go_on(&mut encoder, Some(b"\0"), &mut window, 0, &mut sent);
    assert!(rt; status_of(&mut encoder, Some(b""), &mut window, 2, 1) == 54);
    assert!(rt; status_of(&mut encoder, None, &mut window, 2, 1) == 19);
    assert!(rt; status_of(&mut encoder, None, &mut window, 24, 1) == 18);
    go_on(&mut encoder, None, &mut window, 0, &mut sent);
    assert!(rt; sent.is(0, CODED[0].stream));
}

/// The statuses of a row, and of the end, for an encoder with this version and this value of `next`.
fn statuses(version: u32, next: u32) -> (u8, u8) {
    let mut window = [0xaa; 24];
    let (mut encoder, mut sent) = begun(&CODED[0], &mut window, 64);
    encoder.version = version;
    encoder.next = next;
    go_on(&mut encoder, Some(b""), &mut window[..2], 1, &mut sent);
    let of_row = sent.status;
    go_on(&mut encoder, None, &mut window[..2], 1, &mut sent);
    (of_row, sent.status)
}

#[test]
fn encoders_that_were_not_begun_are_told(rt: HostRuntime) {
    assert!(rt; statuses(1, 1) == (55, 36));
    assert!(rt; statuses(1, 2) == (54, 54));
    assert!(rt; statuses(1, 0) == (53, 53));
    assert!(rt; statuses(2, 1) == (53, 53));
    assert!(rt; statuses(0, 2) == (53, 53));
}

/// The status of starting an example for a struct of this many bytes, with a window that is too short.
fn starts_sized(size: usize) -> u8 {
    let (example, mut encoder) = (&CODED[0], zeros());
    let (mut window, mut stream, mut written) = ([0xaa; 2], [0xaa; 20], 77);
    let (width, height, options) = (example.width, example.height, &example.options);
    t85_encode_start(
        &mut encoder,
        size,
        width,
        height,
        options,
        b"",
        &mut window,
        &mut stream,
        &mut written,
    )
}

#[test]
fn structs_have_room_for_the_state(rt: HostRuntime) {
    assert!(rt; starts_sized(0) == 50 && starts_sized(4663) == 50);
    assert!(rt; starts_sized(4664) == 19 && starts_sized(5200) == 19);
    assert!(rt; starts_sized(5360) == 19 && starts_sized(5361) == 50);
}

/// The status of starting an example with an output buffer of this many bytes, and the number of bytes written.
fn starts(example: &Coded, room: usize) -> (u8, usize) {
    let mut window = [0xaa; 24];
    let (_, sent) = begun(example, &mut window, room);
    (sent.status, sent.count)
}

#[test]
fn beginnings_want_room_for_the_head(rt: HostRuntime) {
    assert!(rt; starts(&CODED[0], 19) == (18, 0));
    assert!(rt; starts(&CODED[0], 20) == (0, 20));
    assert!(rt; starts(&CODED[4], 27) == (18, 0));
    assert!(rt; starts(&CODED[4], 28) == (0, 28));
}

/// The status of a row for an encoder with one number that no encoder has. `which` selects it: another place of the
/// window, another width, no rows per stripe, more rows in the stripe than passed, another offset, more bits, a failed
/// write.
fn status_with(which: u32) -> u8 {
    let mut window = [0xaa; 24];
    let (mut encoder, mut sent) = begun(&CODED[0], &mut window, 64);
    match which {
        0 => encoder.place = 3,
        1 => encoder.width = 0,
        2 => encoder.width = 1_048_577,
        3 => encoder.stripe_rows = 0,
        4 => encoder.in_stripe = 2,
        5 => encoder.offset = 128,
        6 => encoder.bits = 40,
        7 => encoder.has_failed = 1,
        _ => {}
    }
    go_on(&mut encoder, Some(b"\0"), &mut window, 0, &mut sent);
    sent.status
}

#[test]
fn numbers_of_no_encoder_are_told(rt: HostRuntime) {
    for which in 0..8 {
        assert!(rt; status_with(which) == 53);
    }
    assert!(rt; status_with(8) == 0);
}
