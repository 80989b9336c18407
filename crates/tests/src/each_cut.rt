//! Short streams, cut into pieces in every possible way.

use crate::in_pieces::{Case, Cuts, Ends};
use crate::trial::Bytes::Hex;
use pbm_core::trial::Pieces;
use std::alloc::Global;
use std::process::Abort;
use std::test::Fail;
use t85_core::Header;

/// Streams with at most 14 bytes after the header, and their number of such bytes.
static STREAMS: [(&str, u32); 20] = [
    // Stripes that continue, and stripes that reset.
    (
        "00000100 00000001 00000002 00000001 00 0000 08 E0 FF02 E0 FF02",
        6,
    ),
    (
        "00000100 00000008 00000002 00000001 00 0000 00 F0 FF03 F0 FF03",
        6,
    ),
    // A stuffed code byte, code that ends before its stripe, and code that is longer.
    (
        "00000100 00000003 00000003 00000080 00 0000 00 FF00 C0 FF02",
        5,
    ),
    ("00000100 00000008 00000003 00000080 00 0000 08 FF02", 2),
    (
        "00000100 00000008 00000002 00000080 00 0000 00 F0 00 00 00 FF02",
        6,
    ),
    // Comments, and a truncated one.
    (
        "00000100 00000008 00000001 00000080 00 0000 00 FF07 00000002 6869 60 FF02",
        11,
    ),
    (
        "00000100 00000008 00000001 00000080 00 0000 00 FF07 00000000 60 FF02",
        9,
    ),
    (
        "00000100 00000008 00000002 00000080 00 0000 00 FF07 00000005 68",
        7,
    ),
    // Moves of the adaptive pixel: valid, for a row that is not the first, out of range, and twice.
    (
        "00000100 00000008 00000002 00000001 03 0000 00 F0 FF02 FF06 00000000 0300 F8 FF02",
        14,
    ),
    (
        "00000100 00000008 00000001 00000080 03 0000 00 FF06 00000001 0300 F0 FF02",
        11,
    ),
    (
        "00000100 00000008 00000001 00000080 03 0000 00 FF06 00000000 0400 F0 FF02",
        11,
    ),
    (
        "00000100 00000008 00000002 00000080 00 0000 00 FF06 00000000 0000 FF06",
        10,
    ),
    // Heights: late, before a needed stripe, the header's, too low, and twice.
    (
        "00000100 00000001 00000009 00000001 00 0000 20 C0 FF02 C0 FF02 FF05 00000002 FF02",
        14,
    ),
    (
        "00000100 00000001 00000009 00000001 00 0000 20 C0 FF02 FF05 00000002 C0 FF02",
        12,
    ),
    (
        "00000100 00000001 00000002 00000001 00 0000 20 FF05 00000002 C0 FF02 C0 FF02",
        12,
    ),
    (
        "00000100 00000001 00000009 00000001 00 0000 20 C0 FF02 C0 FF02 FF05 00000001 FF02",
        14,
    ),
    (
        "00000100 00000001 00000009 00000001 00 0000 20 FF05 00000009 C0 FF02 FF05",
        11,
    ),
    // An abort and an undefined escape code, after code bytes.
    (
        "00000100 00000008 00000002 00000080 00 0000 00 F0 00 00 FF04",
        5,
    ),
    (
        "00000100 00000008 00000002 00000080 00 0000 00 F0 00 00 FF09",
        5,
    ),
    // Bytes after the end.
    (
        "00000100 00000001 00000002 00000001 00 0000 08 E0 FF02 E0 FF02 FF04 00",
        9,
    ),
];

/// Asserts that every way to cut the body has the same result.
fn check(
    rt: &impl Abort,
    alloc: Global,
    header: Header,
    body: &[u8],
    ends: &mut Ends,
) -> Result<(), Fail> {
    let case = Case::new(alloc, header, body)?;
    let places = body.len().saturating_sub(1).min(13) as u32;
    for cut in 0..1u32 << places {
        let mut cuts = Cuts::After(cut);
        assert!(rt;
            case.is_given(alloc, &mut cuts, ends)?,
            "{body:?} at {cut:b}"
        );
        let mut cuts = Cuts::After(cut);
        assert!(rt; case.is_fed(alloc, &mut cuts)?, "{body:?} fed at {cut:b}");
    }
    Ok(())
}

/// Asserts it also for each prefix of the body. Returns the number of ways.
fn check_beginnings(
    rt: &impl Abort,
    alloc: Global,
    stream: &[u8],
    length: u32,
    ends: &mut Ends,
) -> Result<(), Fail> {
    let mut input = Pieces::new(stream, 4096, None);
    let header = Header::read(&mut input)?;
    let body = input.rest;
    assert!(rt; body.len() == length as usize && length <= 14, "{stream:?}");
    for count in 1..=body.len() {
        check(rt, alloc, header, &body[..count], ends)?;
    }
    Ok(())
}

/// Each stream, and each of its prefixes, gives the result of `decode`, however it is cut.
#[test]
fn each_way(rt: HostRuntime) -> Result<(), Fail> {
    let mut ends = Ends::NONE;
    let mut ways = 0u32;
    for &(digits, length) in &STREAMS {
        let stream = Hex(digits).to_vec(rt.alloc())?;
        check_beginnings(&rt, rt.alloc(), &stream, length, &mut ends)?;
        // A body of n bytes can be cut in 2^(n - 1) ways.
        ways = ways.saturating_add((1u32 << length.min(14)) - 1);
    }
    assert_eq!(rt; ends.cuts, ways);
    assert!(rt; ends.done >= 10_000 && ends.lower >= 1_000, "{ends:?}");
    assert!(rt; ends.early >= 10_000 && ends.broken >= 10_000, "{ends:?}");
    Ok(())
}
