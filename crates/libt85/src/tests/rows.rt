//! Tests of encoding row by row.

use crate::tests::encoding::CODED;
use crate::tests::{Coded, PLAIN};
use crate::{
    T85Encoder, T85Options, t85_encode_end, t85_encode_room, t85_encode_row, t85_encode_rows_left,
    t85_encode_start,
};
use t85_core::Learning;

/// An encoder of all zeros.
pub(crate) fn zeros() -> T85Encoder {
    T85Encoder {
        version: 0,
        next: 0,
        width: 0,
        height: 0,
        options: 0,
        stripe_rows: 0,
        most_offset: 0,
        announced_height: 0,
        rows: 0,
        in_stripe: 0,
        span: 0,
        bits: 0,
        announces_height: 0,
        reset: 0,
        is_counted: 0,
        offset: 0,
        is_previous_typical: 0,
        has_held: 0,
        held: 0,
        has_failed: 0,
        place: 0,
        has_name: 0,
        named: 0,
        spare: [0; 5],
        low: 0,
        zeros: 0,
        ones: 0,
        events: 0,
        reserved: [0; 5],
        learning: Learning::new(),
    }
}

/// The results of calls for an image row by row: the last status, and the bytes written.
#[derive(Drop)]
pub(crate) struct Sent {
    pub status: u8,
    pub bytes: [u8; 64],
    pub count: usize,
}

impl Sent {
    /// Adds the result of a call.
    pub fn add(&mut self, status: u8, bytes: &[u8]) {
        self.status = status;
        for byte in bytes {
            if self.count < 64 {
                self.bytes[self.count] = *byte;
                self.count += 1;
            }
        }
    }

    /// Whether these are the status and the bytes.
    pub fn is(&self, status: u8, bytes: &[u8]) -> bool {
        self.status == status && &self.bytes[..self.count.min(64)] == bytes
    }
}

/// The encoder of an example, started with the comment "hi", with a window and an output buffer of the given sizes.
pub(crate) fn begun(example: &Coded, window: &mut [u8], room: usize) -> (T85Encoder, Sent) {
    let mut encoder = zeros();
    let mut sent = Sent {
        status: 0,
        bytes: [0; 64],
        count: 0,
    };
    let mut stream = [0xaa; 64];
    let mut written = 77;
    let status = t85_encode_start(
        &mut encoder,
        5360,
        example.width,
        example.height,
        &example.options,
        b"hi",
        window,
        &mut stream[..room.min(64)],
        &mut written,
    );
    sent.add(status, &stream[..written.min(64)]);
    (encoder, sent)
}

/// Passes a row, or the end if there is none, with an output buffer this many bytes shorter than reported.
pub(crate) fn go_on(
    encoder: &mut T85Encoder,
    row: Option<&[u8]>,
    window: &mut [u8],
    fewer: usize,
    sent: &mut Sent,
) {
    let mut stream = [0xaa; 128];
    let mut written = 77;
    let told = (t85_encode_room(encoder) as usize).min(128);
    let (room, _) = stream.split_at_mut(told.saturating_sub(fewer));
    let status = match row {
        Some(row) => t85_encode_row(encoder, row, window, room, &mut written),
        None => t85_encode_end(encoder, window, room, &mut written),
    };
    sent.add(status, &stream[..written.min(128)]);
}

/// Whether an example's stream is written when its rows are passed one by one.
fn is_sent(example: &Coded) -> bool {
    let mut window = [0xaa; 24];
    let (mut encoder, mut sent) = begun(example, &mut window, 64);
    let mut at = 0;
    for left in 0..example.height.min(9) {
        let (_, row) = example.rows.split_at(at.min(example.rows.len()));
        if sent.status == 0 && !row.is_empty() {
            if t85_encode_rows_left(&encoder) != example.height.saturating_sub(left) {
                return false;
            }
            go_on(&mut encoder, Some(row), &mut window, 0, &mut sent);
        }
        at = at.saturating_add(example.stride);
    }
    if sent.status == 0 {
        go_on(&mut encoder, None, &mut window, 0, &mut sent);
    }
    sent.is(example.status, example.stream)
}

#[test]
fn rows_that_come_one_by_one_are_encoded(rt: HostRuntime) {
    for example in &CODED {
        assert!(rt; example.status == 51 || is_sent(example));
    }
}

/// Two rows of one pixel, where nine are announced and allowed, in stripes of one row.
pub(crate) static TWO_OF_NINE: Coded = Coded {
    width: 1,
    height: 9,
    rows: b"\x80\x80",
    stride: 1,
    options: T85Options {
        stripe_rows: 1,
        announced_height: 9,
        announces_height: true,
        ..PLAIN
    },
    status: 0,
    stream: b"\0\0\x01\0\0\0\0\x01\0\0\0\x09\0\0\0\x01\0\0\0\x20\xc0\xff\x02\xc0\xff\x02\xff\x05\0\0\0\x02\xff\x02",
};

#[test]
fn fewer_rows_than_are_announced_are_encoded(rt: HostRuntime) {
    let mut window = [0xaa; 24];
    let (mut encoder, mut sent) = begun(&TWO_OF_NINE, &mut window, 20);
    go_on(&mut encoder, None, &mut window, 0, &mut sent);
    assert!(rt; sent.status == 36);
    go_on(&mut encoder, Some(b"\xff"), &mut window, 0, &mut sent);
    go_on(&mut encoder, Some(b"\xff"), &mut window, 0, &mut sent);
    assert!(rt; sent.status == 0 && t85_encode_rows_left(&encoder) == 7);
    go_on(&mut encoder, None, &mut window, 0, &mut sent);
    assert!(rt; sent.is(0, TWO_OF_NINE.stream));
    assert!(rt; t85_encode_rows_left(&encoder) == 0 && t85_encode_room(&encoder) == 0);
    go_on(&mut encoder, None, &mut window, 0, &mut sent);
    assert!(rt; sent.is(54, TWO_OF_NINE.stream));
    go_on(&mut encoder, Some(b"\xff"), &mut window, 0, &mut sent);
    assert!(rt; sent.is(54, TWO_OF_NINE.stream));
}
