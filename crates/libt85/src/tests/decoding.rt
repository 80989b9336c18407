//! `t85_decode` writes the images of whole and of cut streams, and checks its limits in a fixed order.

use crate::tests::{DECODED, Decoded, LATE, TWO_ROWS, TWO_STRIPES, decode};

/// Whether an example's image is written into buffers of all sizes, or a prefix of it, and nothing after that.
fn is_decoded(example: &Decoded) -> bool {
    let whole = example.image.len();
    for size in 0..24 {
        let mut room = [0xaa; 24];
        let told = decode(example.stream, u32::MAX, 24, &mut room[..size]);
        let count = size.min(whole);
        let expected = if size < whole { 18 } else { example.status };
        if told != (expected, count) || &room[..count] != &example.image[..count] {
            return false;
        }
    }
    true
}

#[test]
fn streams_are_decoded(rt: HostRuntime) {
    for example in &DECODED {
        assert!(rt; is_decoded(example));
    }
}

/// A stream that is cut at some point, the status that is returned, and the number of bytes written.
static CUTS: [(usize, u8, usize); 7] = [
    (0, 1, 0),
    (19, 1, 0),
    (20, 9, 7),
    (23, 9, 8),
    (24, 9, 8),
    (25, 9, 8),
    (26, 0, 9),
];

#[test]
fn cut_streams_are_told(rt: HostRuntime) {
    for (count, status, written) in &CUTS {
        let mut room = [0; 24];
        let told = decode(&TWO_STRIPES[..(*count).min(26)], u32::MAX, 24, &mut room);
        assert!(rt; told == (*status, *written));
    }
}

#[test]
fn limits_are_told_in_order(rt: HostRuntime) {
    let mut room = [0; 24];
    assert!(rt; decode(TWO_ROWS, 1, 0, &mut room) == (24, 0));
    assert!(rt; decode(LATE, 1, 24, &mut room) == (24, 0));
    assert!(rt; decode(LATE, 2, 24, &mut room) == (0, 9));
    assert!(rt; decode(TWO_ROWS, 2, 2, &mut room) == (19, 0));
    assert!(rt; decode(TWO_ROWS, 2, 3, &mut room) == (0, 9));
}
