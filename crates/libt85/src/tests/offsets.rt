//! An encoder moves the adaptive pixel to a chosen offset, and finds the best offset for the next stripe.

use crate::tests::rows::{TWO_OF_NINE, begun, go_on, zeros};
use crate::tests::{Coded, PLAIN};
use crate::{T85Encoder, T85Options, t85_best_offset, t85_encode_offset};

/// Two black rows of eight pixels. The adaptive pixel may move to an offset of 3.
static TWO_BLACK: Coded = Coded {
    width: 8,
    height: 2,
    rows: b"\xff\xff",
    stride: 1,
    options: T85Options {
        stripe_rows: 1,
        most_offset: 3,
        ..PLAIN
    },
    status: 0,
    stream: b"\0\0\x01\0\0\0\0\x08\0\0\0\x02\0\0\0\x01\x03\0\0\0\xf0\xff\x02\xff\x06\0\0\0\0\x03\0\xf8\xff\x02",
};

/// Whether the two black rows have this stream if an offset is chosen before the first or the second row. The offsets
/// that the options do not allow are rejected.
fn codes_with(before: [Option<u8>; 2], stream: &[u8]) -> bool {
    let mut window = [0xaa; 24];
    let (mut encoder, mut sent) = begun(&TWO_BLACK, &mut window, 20);
    for chosen in before {
        if let Some(offset) = chosen {
            if t85_encode_offset(&mut encoder, offset) != 0 {
                return false;
            }
        }
        if t85_encode_offset(&mut encoder, 2) != 22 || t85_encode_offset(&mut encoder, 4) != 22 {
            return false;
        }
        go_on(&mut encoder, Some(b"\xff"), &mut window, 0, &mut sent);
    }
    let done = t85_encode_offset(&mut encoder, 0);
    go_on(&mut encoder, None, &mut window, 0, &mut sent);
    done == 54 && t85_encode_offset(&mut encoder, 0) == 54 && sent.is(0, stream)
}

#[test]
fn chosen_offsets_move_the_adaptive_pixel(rt: HostRuntime) {
    assert!(rt; codes_with([None, None], TWO_BLACK.stream));
    assert!(rt; codes_with([None, Some(3)], TWO_BLACK.stream));
    assert!(rt;
        codes_with(
            [None, Some(0)],
            b"\0\0\x01\0\0\0\0\x08\0\0\0\x02\0\0\0\x01\x03\0\0\0\xf0\xff\x02\xf4\xff\x02"
        )
    );
    assert!(rt;
        codes_with(
            [Some(3), None],
            b"\0\0\x01\0\0\0\0\x08\0\0\0\x02\0\0\0\x01\x03\0\0\0\xff\x06\0\0\0\0\x03\0\xf8\xff\x02\xf8\xff\x02"
        )
    );
}

#[test]
fn offsets_are_chosen_between_stripes(rt: HostRuntime) {
    let mut window = [0xaa; 24];
    let (mut encoder, mut sent) = begun(&TWO_OF_NINE, &mut window, 20);
    assert!(rt; t85_encode_offset(&mut encoder, 3) == 22);
    encoder.stripe_rows = 2;
    go_on(&mut encoder, Some(b"\xff"), &mut window, 0, &mut sent);
    assert!(rt; t85_encode_offset(&mut encoder, 0) == 56);
    encoder.next = 0;
    assert!(rt; t85_encode_offset(&mut encoder, 0) == 53);
}

/// The status and the offset for the next stripe, with this many bytes of scratch memory. The offset is 77 if none is
/// found.
fn best_of(encoder: &T85Encoder, rows: &[u8], window: &mut [u8], len: usize) -> (u8, u8) {
    let mut scratch = [0x55; 24];
    let mut offset = 77;
    let status = t85_best_offset(
        encoder,
        rows,
        window,
        &mut scratch[..len.min(24)],
        &mut offset,
    );
    (status, offset)
}

#[test]
fn best_offsets_are_found_between_stripes(rt: HostRuntime) {
    let mut window = [0xaa; 24];
    assert!(rt; best_of(&zeros(), b"\xff", &mut window, 24) == (53, 77));
    let (mut encoder, mut sent) = begun(&TWO_BLACK, &mut window, 20);
    go_on(&mut encoder, Some(b"\xff"), &mut window, 0, &mut sent);
    assert!(rt; best_of(&encoder, b"\xff", &mut window, 3) == (0, 0));
    assert!(rt; best_of(&encoder, b"\xff\x55", &mut window, 24) == (0, 0));
    assert!(rt; best_of(&encoder, b"", &mut window, 24) == (36, 77));
    assert!(rt; best_of(&encoder, b"\xff", &mut window, 2) == (19, 77));
    assert!(rt; best_of(&encoder, b"\xff", &mut window[..2], 24) == (19, 77));
    go_on(&mut encoder, Some(b"\xff"), &mut window, 0, &mut sent);
    assert!(rt; best_of(&encoder, b"\xff", &mut window, 24) == (54, 77));
}

#[test]
fn best_offsets_need_the_rows_of_a_stripe(rt: HostRuntime) {
    let mut window = [0xaa; 24];
    let (mut encoder, mut sent) = begun(&TWO_BLACK, &mut window, 20);
    encoder.stripe_rows = 2;
    assert!(rt; best_of(&encoder, b"\xff", &mut window, 24) == (36, 77));
    assert!(rt; best_of(&encoder, b"\xff\xff", &mut window, 24) == (0, 0));
    go_on(&mut encoder, Some(b"\xff"), &mut window, 0, &mut sent);
    assert!(rt; best_of(&encoder, b"\xff", &mut window, 24) == (56, 77));
}
