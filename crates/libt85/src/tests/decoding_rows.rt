//! `t85_decode_rows` writes each row of an image to its place in memory.

use crate::t85_decode_rows;
use crate::tests::{TWICE, TWO_ROWS};

/// A stream, where its rows are to be written, the status, and the resulting contents of memory that was filled with
/// AA.
struct RowsAt {
    stream: &'static [u8],
    stride: usize,
    room: usize,
    status: u8,
    rows: u32,
    memory: [u8; 6],
}

static ROWS: [RowsAt; 9] = [
    RowsAt {
        stream: TWO_ROWS,
        stride: 1,
        room: 6,
        status: 0,
        rows: 2,
        memory: *b"\xff\x32\xaa\xaa\xaa\xaa",
    },
    RowsAt {
        stream: TWO_ROWS,
        stride: 3,
        room: 6,
        status: 0,
        rows: 2,
        memory: *b"\xff\xaa\xaa\x32\xaa\xaa",
    },
    RowsAt {
        stream: TWO_ROWS,
        stride: 3,
        room: 4,
        status: 0,
        rows: 2,
        memory: *b"\xff\xaa\xaa\x32\xaa\xaa",
    },
    RowsAt {
        stream: TWO_ROWS,
        stride: 3,
        room: 3,
        status: 18,
        rows: 1,
        memory: *b"\xff\xaa\xaa\xaa\xaa\xaa",
    },
    RowsAt {
        stream: TWO_ROWS,
        stride: usize::MAX,
        room: 1,
        status: 18,
        rows: 1,
        memory: *b"\xff\xaa\xaa\xaa\xaa\xaa",
    },
    RowsAt {
        stream: TWO_ROWS,
        stride: 3,
        room: 0,
        status: 18,
        rows: 0,
        memory: *b"\xaa\xaa\xaa\xaa\xaa\xaa",
    },
    RowsAt {
        stream: TWO_ROWS,
        stride: 0,
        room: 6,
        status: 51,
        rows: 0,
        memory: *b"\xaa\xaa\xaa\xaa\xaa\xaa",
    },
    RowsAt {
        stream: TWICE,
        stride: 2,
        room: 6,
        status: 15,
        rows: 1,
        memory: *b"\x80\xaa\xaa\xaa\xaa\xaa",
    },
    RowsAt {
        stream: b"\0\0\x01\0\0\0\0\x03\0\0\0\x03\0\0\0\x80\0\0\0\0\xff\0\xc0\xff\x02",
        stride: 2,
        room: 6,
        status: 0,
        rows: 3,
        memory: *b"\xe0\xaa\xe0\xaa\xe0\xaa",
    },
];

/// Whether an example's rows are written to their places.
fn has_rows(example: &RowsAt) -> bool {
    let mut window = [0; 24];
    let mut memory = [0xaa; 6];
    let mut rows = 77;
    let room = example.room.min(6);
    let status = t85_decode_rows(
        example.stream,
        u32::MAX,
        example.stride,
        &mut window,
        &mut memory[..room],
        &mut rows,
    );
    status == example.status && rows == example.rows && memory == example.memory
}

#[test]
fn rows_are_decoded(rt: HostRuntime) {
    for example in &ROWS {
        assert!(rt; has_rows(example));
    }
}
