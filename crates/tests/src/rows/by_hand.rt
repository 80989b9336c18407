//! Rows have the codes and contexts that were worked out by hand.

use crate::rows::{Taken, gives, is_code, put, shape};
use qm_core::{Encoder, Learned};
use raster_core::Shape;
use std::alloc::{AllocError, Global};
use std::process::Abort;
use std::test::Fail;

/// Rows, their shape, the offset, and their code, by hand.
static CODES: [((u32, bool, bool), u8, &[&[u8]], &[u8]); 11] = [
    ((8, false, false), 0, &[&[0x00]], &[0x60]),
    ((1, false, false), 0, &[&[0x80]], &[0xc0]),
    ((1, false, true), 0, &[&[0x80]], &[0xe0]),
    ((8, false, false), 0, &[&[0xff]], &[0xf0]),
    ((8, false, true), 0, &[&[0xff]], &[0xf8]),
    (
        (3, false, false),
        0,
        &[&[0xe0], &[0xe0], &[0xe0]],
        &[0xff, 0x00, 0xc0],
    ),
    ((8, false, true), 0, &[&[0x00], &[0x00], &[0x00]], &[]),
    ((3, false, false), 0, &[&[0x00], &[0x00]], &[0x60]),
    ((2, true, false), 0, &[&[0xc0], &[0xc0], &[0xc0]], &[0xf8]),
    ((2, false, false), 0, &[&[0xc0], &[0xc0], &[0xc0]], &[0xfe]),
    ((8, false, false), 3, &[&[0xff]], &[0xf8]),
];

#[test]
fn codes_by_hand(rt: HostRuntime) -> Result<(), Fail> {
    for &((width, two_line, typical), offset, rows, expected) in &CODES {
        let shape = shape(width, two_line, typical);
        let met = is_code(&rt, rt.alloc(), shape, offset, expected, rows)?;
        assert!(rt; met, "{expected:?}");
    }
    Ok(())
}

/// The code of black pixels in these contexts.
fn code_in(rt: &impl Abort, alloc: Global, contexts: &[u16]) -> Vec<u8> {
    let mut out = Taken {
        bytes: Vec::new(alloc),
    };
    let mut encoder = Encoder::start();
    let mut learned = Learned::new();
    for n in contexts {
        put(rt, &mut encoder, &mut learned, *n, true, &mut out);
    }
    assert!(rt; encoder.finish(&mut out) == Ok(()));
    out.bytes
}

/// Whether rows in one stripe have the code of black pixels in these contexts, and are decoded from it.
fn is_code_in(
    rt: &impl Abort,
    alloc: Global,
    shape: Shape,
    offset: u8,
    contexts: &[u16],
    rows: &[&[u8]],
) -> Result<bool, AllocError> {
    let expected = code_in(rt, alloc, contexts);
    is_code(rt, alloc, shape, offset, expected.as_slice(), rows)
}

/// Black rows, their shape, the offset, and the contexts of their pixels, by hand.
static CONTEXTS: [((u32, bool, bool), u8, &[&[u8]], &[u16]); 4] = [
    (
        (3, false, false),
        0,
        &[&[0xe0], &[0xe0], &[0xe0]],
        &[
            0x000, 0x001, 0x003, 0x01c, 0x039, 0x073, 0x19c, 0x3b9, 0x373,
        ],
    ),
    (
        (2, false, false),
        0,
        &[&[0xc0], &[0xc0], &[0xc0]],
        &[0x000, 0x001, 0x018, 0x031, 0x198, 0x331],
    ),
    (
        (2, true, false),
        0,
        &[&[0xc0], &[0xc0], &[0xc0]],
        &[0x000, 0x001, 0x060, 0x0c1, 0x060, 0x0c1],
    ),
    (
        (8, false, false),
        3,
        &[&[0xff], &[0xff]],
        &[
            0x000, 0x001, 0x003, 0x007, 0x007, 0x007, 0x007, 0x007, 0x018, 0x039, 0x07b, 0x07f,
            0x07f, 0x07f, 0x07f, 0x077,
        ],
    ),
];

#[test]
fn contexts_by_hand(rt: HostRuntime) -> Result<(), Fail> {
    for &((width, two_line, typical), offset, rows, contexts) in &CONTEXTS {
        let shape = shape(width, two_line, typical);
        let met = is_code_in(&rt, rt.alloc(), shape, offset, contexts, rows)?;
        assert!(rt; met, "{contexts:?}");
    }
    Ok(())
}

/// Codes that are no row's code, their shape, and the rows that they denote.
static DECODED: [((u32, bool, bool), &[u8], &[&[u8]]); 2] = [
    // Zeros follow the end of a code: the second row is not white.
    ((8, false, false), &[0xf0], &[&[0xff], &[0x32]]),
    // A row that equals the one above may be coded as plain.
    ((8, false, true), &[0xb0], &[&[0x00]]),
];

#[test]
fn other_codes_are_decoded(rt: HostRuntime) -> Result<(), Fail> {
    for &((width, two_line, typical), code, rows) in &DECODED {
        let shape = shape(width, two_line, typical);
        assert!(rt; gives(&rt, rt.alloc(), shape, 0, code, rows)?, "{code:?}");
    }
    Ok(())
}
