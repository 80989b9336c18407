//! Tests of the fields of a header that have no effect on the image.

use crate::t85_set_unused_fields;
use crate::tests::decode;

/// The options and two more bytes of a stream of eight white pixels, the values to be set, and the status with bytes 17 to
/// 19 that are there afterwards.
struct Unused {
    order: u8,
    options: u8,
    values: [u8; 3],
    status: u8,
    bytes: [u8; 3],
}

static UNUSED: [Unused; 10] = [
    Unused {
        order: 0,
        options: 0x08,
        values: [5, 3, 0x14],
        status: 0,
        bytes: [5, 3, 0x1c],
    },
    Unused {
        order: 15,
        options: 0x1c,
        values: [0, 0, 0],
        status: 0,
        bytes: [0, 0, 0x08],
    },
    // Other bits are ignored.
    Unused {
        order: 7,
        options: 0x18,
        values: [255, 15, 0xef],
        status: 0,
        bytes: [255, 15, 0x0c],
    },
    // The reserved bits of the order.
    Unused {
        order: 7,
        options: 0x08,
        values: [1, 16, 0x14],
        status: 2,
        bytes: [9, 7, 0x08],
    },
    // A private table is announced by DPON and DPPRIV without DPLAST.
    Unused {
        order: 7,
        options: 0x0a,
        values: [1, 1, 0x04],
        status: 8,
        bytes: [9, 7, 0x0a],
    },
    Unused {
        order: 7,
        options: 0x0a,
        values: [1, 1, 0x10],
        status: 0,
        bytes: [1, 1, 0x1a],
    },
    Unused {
        order: 7,
        options: 0x0b,
        values: [1, 1, 0x04],
        status: 0,
        bytes: [1, 1, 0x0f],
    },
    // A header that is rejected stays so, even if the values would mend it.
    Unused {
        order: 7,
        options: 0x0e,
        values: [1, 1, 0],
        status: 8,
        bytes: [9, 7, 0x0e],
    },
    Unused {
        order: 16,
        options: 0x08,
        values: [1, 1, 0],
        status: 2,
        bytes: [9, 16, 0x08],
    },
    Unused {
        order: 0,
        options: 0x88,
        values: [1, 1, 0],
        status: 2,
        bytes: [9, 0, 0x88],
    },
];

/// A stream of eight white pixels with these bytes 17 to 19.
fn white(bytes: [u8; 3]) -> [u8; 22] {
    let mut stream = *b"\0\0\x01\0\0\0\0\x08\0\0\0\x01\0\0\0\x80\x03\0\0\0\xff\x02";
    stream[17] = bytes[0];
    stream[18] = bytes[1];
    stream[19] = bytes[2];
    stream
}

/// Whether an example's values are set, or nothing is changed.
fn is_set(example: &Unused) -> bool {
    let mut stream = white([9, example.order, example.options]);
    let [my, order, options] = example.values;
    let status = t85_set_unused_fields(&mut stream, my, order, options);
    status == example.status && stream == white(example.bytes)
}

#[test]
fn unused_fields_are_set(rt: HostRuntime) {
    for example in &UNUSED {
        assert!(rt; is_set(example));
    }
}

#[test]
fn unused_fields_do_not_change_the_image(rt: HostRuntime) {
    let mut stream = white([0, 0, 0x08]);
    let mut image = [0xaa; 24];
    assert!(rt; t85_set_unused_fields(&mut stream, 255, 15, 0x14) == 0);
    assert!(rt; decode(&stream, 1, 24, &mut image) == (0, 8));
    assert!(rt; &image[..8] == b"P4\n8 1\n\0".as_slice());
}

#[test]
fn headers_without_unused_fields_are_rejected(rt: HostRuntime) {
    let mut short = *b"\0\0\x01\0\0\0\0\x08\0\0\0\x01\0\0\0\x80\x03\0\0";
    assert!(rt; t85_set_unused_fields(&mut short, 1, 1, 4) == 1);
    assert!(rt; &short == b"\0\0\x01\0\0\0\0\x08\0\0\0\x01\0\0\0\x80\x03\0\0");
    let mut empty = *b"\0\0\x01\0\0\0\0\0\0\0\0\x01\0\0\0\x80\x03\0\0\0";
    assert!(rt; t85_set_unused_fields(&mut empty, 1, 1, 4) == 5);
    assert!(rt; &empty == b"\0\0\x01\0\0\0\0\0\0\0\0\x01\0\0\0\x80\x03\0\0\0");
}
