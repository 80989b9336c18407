//! `t85_encode` writes the streams of whole images, and `t85_encode_bound` returns a bound on their lengths.

use crate::tests::{Coded, PLAIN, TWO_STRIPES};
use crate::{T85Options, t85_encode, t85_encode_bound};

pub(crate) static CODED: [Coded; 16] = [
    Coded {
        width: 8,
        height: 1,
        rows: b"\0",
        stride: 1,
        options: PLAIN,
        status: 0,
        stream: b"\0\0\x01\0\0\0\0\x08\0\0\0\x01\0\0\0\x80\0\0\0\0\x60\xff\x02",
    },
    Coded {
        width: 1,
        height: 2,
        rows: b"\xff\x80",
        stride: 1,
        options: T85Options {
            options: 8,
            stripe_rows: 1,
            ..PLAIN
        },
        status: 0,
        stream: TWO_STRIPES,
    },
    Coded {
        width: 1,
        height: 2,
        rows: b"\x80\0\0\x80",
        stride: 3,
        options: T85Options {
            options: 8,
            stripe_rows: 1,
            reset: true,
            ..PLAIN
        },
        status: 0,
        stream: b"\0\0\x01\0\0\0\0\x01\0\0\0\x02\0\0\0\x01\0\0\0\x08\xe0\xff\x03\xe0\xff\x03",
    },
    Coded {
        width: 8,
        height: 2,
        rows: b"\xff\xff\0\0\0",
        stride: 1,
        options: T85Options {
            stripe_rows: 1,
            most_offset: 3,
            ..PLAIN
        },
        status: 0,
        stream: b"\0\0\x01\0\0\0\0\x08\0\0\0\x02\0\0\0\x01\x03\0\0\0\xf0\xff\x02\xff\x06\0\0\0\0\x03\0\xf8\xff\x02",
    },
    Coded {
        width: 8,
        height: 1,
        rows: b"\0",
        stride: 9,
        options: T85Options {
            options: 8,
            has_comment: true,
            ..PLAIN
        },
        status: 0,
        stream: b"\0\0\x01\0\0\0\0\x08\0\0\0\x01\0\0\0\x80\0\0\0\x08\xff\x07\0\0\0\x02hi\xff\x02",
    },
    Coded {
        width: 1,
        height: 2,
        rows: b"\x80\x80",
        stride: 1,
        options: T85Options {
            stripe_rows: 1,
            announced_height: 9,
            announces_height: true,
            ..PLAIN
        },
        status: 0,
        stream: b"\0\0\x01\0\0\0\0\x01\0\0\0\x09\0\0\0\x01\0\0\0\x20\xc0\xff\x02\xc0\xff\x02\xff\x05\0\0\0\x02\xff\x02",
    },
    // The second row is missing: the first one's stripe is complete.
    Coded {
        width: 8,
        height: 2,
        rows: b"\xff",
        stride: 4,
        options: T85Options {
            stripe_rows: 1,
            ..PLAIN
        },
        status: 36,
        stream: b"\0\0\x01\0\0\0\0\x08\0\0\0\x02\0\0\0\x01\0\0\0\0\xf0\xff\x02",
    },
    Coded {
        width: 0,
        height: 0,
        rows: b"",
        stride: 0,
        options: T85Options {
            version: 2,
            options: 1,
            ..PLAIN
        },
        status: 50,
        stream: b"",
    },
    Coded {
        width: 0,
        height: 0,
        rows: b"",
        stride: 0,
        options: T85Options {
            options: 1,
            stripe_rows: 0,
            ..PLAIN
        },
        status: 20,
        stream: b"",
    },
    Coded {
        width: 0,
        height: 0,
        rows: b"",
        stride: 0,
        options: T85Options {
            stripe_rows: 0,
            most_offset: 128,
            ..PLAIN
        },
        status: 21,
        stream: b"",
    },
    Coded {
        width: 0,
        height: 0,
        rows: b"",
        stride: 0,
        options: T85Options {
            most_offset: 128,
            ..PLAIN
        },
        status: 22,
        stream: b"",
    },
    Coded {
        width: 1048577,
        height: 0,
        rows: b"",
        stride: 0,
        options: PLAIN,
        status: 33,
        stream: b"",
    },
    Coded {
        width: 1048577,
        height: 1,
        rows: b"",
        stride: 0,
        options: PLAIN,
        status: 34,
        stream: b"",
    },
    Coded {
        width: 1048576,
        height: 2,
        rows: b"",
        stride: 131071,
        options: T85Options {
            announced_height: 1,
            announces_height: true,
            ..PLAIN
        },
        status: 51,
        stream: b"",
    },
    Coded {
        width: 1048576,
        height: 2,
        rows: b"",
        stride: 131072,
        options: T85Options {
            announced_height: 1,
            announces_height: true,
            ..PLAIN
        },
        status: 23,
        stream: b"",
    },
    Coded {
        width: 1048576,
        height: 2,
        rows: b"",
        stride: 131072,
        options: PLAIN,
        status: 19,
        stream: b"",
    },
];

/// The status of an encoding, and the number of bytes reported as written.
fn encode(example: &Coded, stream: &mut [u8]) -> (u8, usize) {
    let mut window = [0; 24];
    let mut written = 77;
    let status = t85_encode(
        example.width,
        example.height,
        example.rows,
        example.stride,
        &example.options,
        b"hi",
        &mut window,
        stream,
        &mut written,
    );
    (status, written)
}

/// Whether an example's stream is written into buffers of all sizes, or a prefix of it.
fn is_encoded(example: &Coded) -> bool {
    let whole = example.stream.len();
    for size in 0..48 {
        let mut room = [0xaa; 48];
        let told = encode(example, &mut room[..size]);
        let count = size.min(whole);
        let expected = if size < whole { 18 } else { example.status };
        if told != (expected, count) || &room[..count] != &example.stream[..count] {
            return false;
        }
    }
    true
}

#[test]
fn rows_are_encoded(rt: HostRuntime) {
    for example in &CODED {
        assert!(rt; is_encoded(example));
    }
}

/// The bound for an example, with a comment of two bytes.
fn bound(example: &Coded) -> u64 {
    t85_encode_bound(example.width, example.height, &example.options, 2)
}

#[test]
fn streams_are_within_the_bound(rt: HostRuntime) {
    for example in &CODED {
        assert!(rt; example.status != 0 || example.stream.len() as u64 <= bound(example));
    }
    assert!(rt; bound(&CODED[0]) == 34 + 14 + 36);
    assert!(rt; bound(&CODED[4]) == 34 + 2 + 14 + 36);
}
