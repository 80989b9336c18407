//! Tests of the library's functions on worked examples.

mod abort;
mod again;
mod choice;
mod decoding;
mod decoding_rows;
mod encoding;
mod message;
mod numbers;
mod offsets;
mod parts;
mod pbm;
mod pieces;
mod raw_header;
mod refused_pieces;
mod refused_rows;
mod rest;
mod rows;
mod set_height;
mod unused;

use crate::{T85Options, t85_decode};

/// Two black pixels, one above the other, in two stripes.
const TWO_STRIPES: &[u8] =
    b"\0\0\x01\0\0\0\0\x01\0\0\0\x02\0\0\0\x01\0\0\0\x08\xe0\xff\x02\xe0\xff\x02";
/// A row of eight black pixels, and one that ends the stream.
const TWO_ROWS: &[u8] = b"\0\0\x01\0\0\0\0\x08\0\0\0\x02\0\0\0\x80\0\0\0\0\xf0\xff\x02";
/// Nine rows are announced, and two arrive.
const LATE: &[u8] =
    b"\0\0\x01\0\0\0\0\x01\0\0\0\x09\0\0\0\x01\0\0\0\x20\xc0\xff\x02\xff\x05\0\0\0\x02\xc0\xff\x02";
/// The height is given twice.
const TWICE: &[u8] =
    b"\0\0\x01\0\0\0\0\x01\0\0\0\x09\0\0\0\x01\0\0\0\x20\xff\x05\0\0\0\x02\xc0\xff\x02\xff\x05";

/// A stream, the status that is returned, and the image or the part of one that is written.
struct Decoded {
    stream: &'static [u8],
    status: u8,
    image: &'static [u8],
}

static DECODED: [Decoded; 16] = [
    Decoded {
        stream: b"\0\0\x01\0\0\0\0\x08\0\0\0\x01\0\0\0\x80\0\0\0\x08\xff\x02",
        status: 0,
        image: b"P4\n8 1\n\0",
    },
    Decoded {
        stream: b"\0\0\x01\0\0\0\0\x03\0\0\0\x03\0\0\0\x80\0\0\0\0\xff\0\xc0\xff\x02",
        status: 0,
        image: b"P4\n3 3\n\xe0\xe0\xe0",
    },
    Decoded {
        stream: b"\0\0\x01\0\0\0\0\x02\0\0\0\x03\0\0\0\x80\0\0\0\x40\xf8\xff\x02",
        status: 0,
        image: b"P4\n2 3\n\xc0\xc0\xc0",
    },
    Decoded {
        stream: TWO_STRIPES,
        status: 0,
        image: b"P4\n1 2\n\x80\x80",
    },
    Decoded {
        stream: TWO_ROWS,
        status: 0,
        image: b"P4\n8 2\n\xff\x32",
    },
    Decoded {
        stream: LATE,
        status: 0,
        image: b"P4\n1 2\n\x80\x80",
    },
    Decoded {
        stream: b"\0\0\x01\0\0\0\0\x08\0\0\0\x02\0\0\0\x80\0\0\0\0\xf0\0",
        status: 9,
        image: b"P4\n8 2\n",
    },
    Decoded {
        stream: b"\0\0\x01\0\0\0\0\x08\0\0\0\x02\0\0\0\x80\0\0\0\0\xf0\0\0",
        status: 9,
        image: b"P4\n8 2\n\xff",
    },
    Decoded {
        stream: b"\0\0\x01\0\0\0\0\x08\0\0\0\x02\0\0\0\x80\0\0\0\0\xf0\0\0\0",
        status: 9,
        image: b"P4\n8 2\n\xff\x32",
    },
    Decoded {
        stream: b"\0\0\x01\0\0\0\0\x08\0\0\0\x02\0\0\0\x80\0\0\0\0\xf0\0\0\xff\x04",
        status: 11,
        image: b"P4\n8 2\n\xff",
    },
    Decoded {
        stream: b"\0\0\x01\0\0\0\0\x08\0\0\0\x02\0\0\0\x80\0\0\0\0\xf0\0\0\xff\x05",
        status: 10,
        image: b"P4\n8 2\n\xff",
    },
    Decoded {
        stream: b"\0\0\x01\0\0\0\0\x08\0\0\0\x01\0\0\0\x80\x03\0\0\0\xff\x06\0\0\0\0\x04\0\xf0\xff\x02",
        status: 12,
        image: b"P4\n8 1\n",
    },
    Decoded {
        stream: TWICE,
        status: 15,
        image: b"P4\n1 2\n\x80",
    },
    Decoded {
        stream: b"\x01\x01\x02\x01\0\0\0\0\0\0\0\0\0\0\0\0\0\0\0\0",
        status: 2,
        image: b"",
    },
    Decoded {
        stream: b"\0\0\x01\0\0\x10\0\x01\0\0\0\x01\0\0\0\x80\0\0\0\0",
        status: 6,
        image: b"",
    },
    Decoded {
        stream: b"\0\0\x01\0\0\0\0\x01\0\0\0\x01\0\0\0\x80\0\0\0",
        status: 1,
        image: b"",
    },
];

/// The status of decoding at most `max_rows` rows, and the number of bytes reported as written.
fn decode(stream: &[u8], max_rows: u32, window: usize, image: &mut [u8]) -> (u8, usize) {
    let mut rows = [0; 24];
    let mut written = 77;
    let count = window.min(24);
    let status = t85_decode(stream, max_rows, &mut rows[..count], image, &mut written);
    (status, written)
}

/// Rows, options, and the status with the stream that is written.
struct Coded {
    width: u32,
    height: u32,
    rows: &'static [u8],
    stride: usize,
    options: T85Options,
    status: u8,
    stream: &'static [u8],
}

/// The options unless stated otherwise.
const PLAIN: T85Options = T85Options {
    version: 1,
    options: 0,
    stripe_rows: 128,
    most_offset: 0,
    announced_height: 0,
    announces_height: false,
    reset: false,
    has_comment: false,
};
