//! PBM files in pieces, however these are cut.

use crate::{T85Pbm, t85_pbm_end, t85_pbm_header, t85_pbm_row, t85_pbm_start};

/// A file, its size, the first bytes of its first two rows, the status at its end, and the number of bytes left. Dots
/// mark rows that are not read.
struct Sample {
    text: &'static [u8],
    width: u32,
    height: u32,
    rows: [u8; 2],
    status: u8,
    left: usize,
}

static FILES: [Sample; 9] = [
    Sample {
        text: b"P4\n#x\n3 2\n\xff\xff!",
        width: 3,
        height: 2,
        rows: *b"\xe0\xe0",
        status: 0,
        left: 1,
    },
    Sample {
        text: b"P4 008 01#c\n\x55",
        width: 8,
        height: 1,
        rows: *b"\x55.",
        status: 0,
        left: 0,
    },
    Sample {
        text: b"P1\n3 2\n1 1 1\n111\n",
        width: 3,
        height: 2,
        rows: *b"\xe0\xe0",
        status: 0,
        left: 1,
    },
    Sample {
        text: b"P1 1 1#1\n0",
        width: 1,
        height: 1,
        rows: *b"\0.",
        status: 0,
        left: 0,
    },
    Sample {
        text: b"P1\n8 2\n11111111 0 2",
        width: 8,
        height: 2,
        rows: *b"\xff.",
        status: 38,
        left: 0,
    },
    Sample {
        text: b"P1\n1 1\n#0",
        width: 1,
        height: 1,
        rows: *b"..",
        status: 38,
        left: 1,
    },
    Sample {
        text: b"P1\n8 1\n1111111",
        width: 8,
        height: 1,
        rows: *b"..",
        status: 36,
        left: 0,
    },
    Sample {
        text: b"P4 9 1 \xff",
        width: 9,
        height: 1,
        rows: *b"..",
        status: 36,
        left: 0,
    },
    // The last seven of the 16 bits of this row are padding.
    Sample {
        text: b"P1 9 1 010000001",
        width: 9,
        height: 1,
        rows: *b"\x40.",
        status: 0,
        left: 0,
    },
];

/// Headers that are rejected: the status, and the number of bytes left.
static REFUSED: [(&[u8], u8, usize); 8] = [
    (b"P5\n1 1\n", 31, 5),
    (b"Q", 31, 0),
    (b"P4 x", 32, 0),
    (b"P4\n0 1\n", 33, 2),
    (b"P4\n1048577 1\n", 34, 2),
    (b"P4 1 4294967296 ", 35, 0),
    (b"P4 1 ", 36, 0),
    (b"", 36, 0),
];

/// A reader of zeros.
fn zeros() -> T85Pbm {
    T85Pbm {
        version: 0,
        next: 0,
        width: 0,
        height: 0,
        is_plain: 0,
        rows_left: 0,
        filled: 0,
        made: 0,
        place: 0,
        status: 0,
        spare: 0,
        value: 0,
        reserved: [0; 3],
    }
}

/// A reader before the first byte.
fn begun() -> T85Pbm {
    let mut pbm = zeros();
    t85_pbm_start(&mut pbm, 64);
    pbm
}

/// The first bytes of a text, at most this many.
fn first(text: &[u8], length: usize) -> &[u8] {
    text.get(..length).unwrap_or(text)
}

/// Reads a header in pieces of this length. Returns the status, and the bytes left.
fn header<'a>(pbm: &mut T85Pbm, text: &'a [u8], length: usize) -> (u8, &'a [u8]) {
    let mut rest = text;
    for _ in 0..text.len() {
        let mut taken = 0;
        let status = t85_pbm_header(pbm, first(rest, length), &mut taken);
        rest = rest.get(taken..).unwrap_or(b"");
        if status != 62 {
            return (status, rest);
        }
        if rest.is_empty() {
            break;
        }
    }
    (t85_pbm_end(pbm), rest)
}

/// Reads a row in pieces of this length. Returns the status, and the bytes left.
fn row<'a>(pbm: &mut T85Pbm, text: &'a [u8], length: usize, row: &mut [u8]) -> (u8, &'a [u8]) {
    let mut rest = text;
    for _ in 0..=text.len() {
        let mut taken = 0;
        let status = t85_pbm_row(pbm, first(rest, length), row, &mut taken);
        rest = rest.get(taken..).unwrap_or(b"");
        if status != 62 {
            return (status, rest);
        }
        if rest.is_empty() {
            break;
        }
    }
    (t85_pbm_end(pbm), rest)
}

/// Reads a file in pieces of this length: its size, the first bytes of two rows, the last status, and the number of bytes
/// left.
fn file(text: &[u8], length: usize) -> (u32, u32, [u8; 2], u8, usize) {
    let mut pbm = begun();
    let (mut status, mut rest) = header(&mut pbm, text, length);
    let mut rows = *b"..";
    for y in 0..3 {
        if status != 60 && status != 61 {
            break;
        }
        let mut memory = *b"....";
        (status, rest) = row(&mut pbm, rest, length, &mut memory);
        if status == 61 && y < 2 {
            rows[y] = memory[0];
        }
    }
    (pbm.width, pbm.height, rows, status, rest.len())
}

#[test]
fn files_in_pieces(rt: HostRuntime) {
    for of in &FILES {
        for length in 1..=of.text.len() {
            let found = file(of.text, length);
            let wanted = (of.width, of.height, of.rows, of.status, of.left);
            assert!(rt; found == wanted, "{:?} in pieces of {length}", of.text);
        }
    }
}

/// The status of a header in pieces of this length, the number of bytes left, and the status of another call.
fn refused(text: &[u8], length: usize) -> (u8, usize, u8) {
    let mut pbm = begun();
    let (status, rest) = header(&mut pbm, text, length);
    let mut taken = 9;
    let again = t85_pbm_header(&mut pbm, b"", &mut taken);
    (status, rest.len().saturating_add(taken), again)
}

#[test]
fn headers_are_refused(rt: HostRuntime) {
    for &(text, status, left) in &REFUSED {
        for length in 1..=text.len().max(1) {
            let found = refused(text, length);
            let again = if status == 36 { 62 } else { status };
            assert!(rt;
                found == (status, left, again),
                "{text:?} in pieces of {length}"
            );
        }
    }
}

/// The statuses of calls that are not allowed: with another size, with zeros, before the header, and with a short row.
fn not_allowed() -> (u8, u8, u8, u8, u8, u8) {
    let (mut other, mut taken) = (zeros(), 0);
    let size = t85_pbm_start(&mut other, 63);
    let header = t85_pbm_header(&mut other, b"P4", &mut taken);
    let end = t85_pbm_end(&other);
    let mut pbm = begun();
    let row = t85_pbm_row(&mut pbm, b"P4", &mut [0; 9], &mut taken);
    let read = t85_pbm_header(&mut pbm, b"P4 9 1 ", &mut taken);
    let short = t85_pbm_row(&mut pbm, b"\xff\xff", &mut [0; 1], &mut taken);
    (size, header, end, row, read, short)
}

#[test]
fn calls_that_are_not_allowed(rt: HostRuntime) {
    assert!(rt; not_allowed() == (50, 53, 53, 53, 60, 55));
}
