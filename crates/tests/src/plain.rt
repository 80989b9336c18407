//! Plain images through `pbmtojbg85`: one digit per pixel, with or without white space.

use crate::trial::Bytes::{Hex, Plain};
use crate::trial::{Run, Trial, all_stand, stands};
use program_core::LineFault;
use std::alloc::Global;
use std::test::Fail;

static CODED: [Run<'static>; 21] = [
    Run {
        words: &["pbmtojbg85"],
        input: Plain(b"P1\n8 1\n00000000\n", 7),
        reads: 15,
        output: Hex("00000100 00000008 00000001 00000080 00 0000 08 FF02"),
        fault: None,
    },
    Run {
        words: &["pbmtojbg85", "-p", "0"],
        input: Plain(b"P1\n8 1\n0 0 0 0 0 0 0 0", 7),
        reads: 22,
        output: Hex("00000100 00000008 00000001 00000080 00 0000 00 60 FF02"),
        fault: None,
    },
    Run {
        words: &["pbmtojbg85", "-p", "0"],
        input: Plain(b"P1 1 1 1", 7),
        reads: 8,
        output: Hex("00000100 00000001 00000001 00000080 00 0000 00 C0 FF02"),
        fault: None,
    },
    Run {
        words: &["pbmtojbg85"],
        input: Plain(b"P1\n1 1\n\n\t1", 7),
        reads: 10,
        output: Hex("00000100 00000001 00000001 00000080 00 0000 08 E0 FF02"),
        fault: None,
    },
    Run {
        words: &["pbmtojbg85", "-p", "0"],
        input: Plain(b"P1\n8 1\n1111\r\n1111\r\n", 7),
        reads: 17,
        output: Hex("00000100 00000008 00000001 00000080 00 0000 00 F0 FF02"),
        fault: None,
    },
    Run {
        words: &["pbmtojbg85"],
        input: Plain(b"P1\n8 1\n11111111", 7),
        reads: 15,
        output: Hex("00000100 00000008 00000001 00000080 00 0000 08 F8 FF02"),
        fault: None,
    },
    Run {
        words: &["pbmtojbg85", "-p", "0"],
        input: Plain(b"P1\n3 3\n111\n111\n111\n", 7),
        reads: 18,
        output: Hex("00000100 00000003 00000003 00000080 00 0000 00 FF00 C0 FF02"),
        fault: None,
    },
    Run {
        words: &["pbmtojbg85"],
        input: Plain(b"P1\n8 3\n000000000000000000000000", 7),
        reads: 31,
        output: Hex("00000100 00000008 00000003 00000080 00 0000 08 FF02"),
        fault: None,
    },
    Run {
        words: &["pbmtojbg85", "-s", "1"],
        input: Plain(b"P1\n1 2\n1\n1\n", 7),
        reads: 10,
        output: Hex("00000100 00000001 00000002 00000001 00 0000 08 E0 FF02 E0 FF02"),
        fault: None,
    },
    Run {
        words: &["pbmtojbg85", "-s", "1", "-r"],
        input: Plain(b"P1\n1 2\n11", 7),
        reads: 9,
        output: Hex("00000100 00000001 00000002 00000001 00 0000 08 E0 FF03 E0 FF03"),
        fault: None,
    },
    Run {
        words: &["pbmtojbg85", "-p", "64"],
        input: Plain(b"P1\n2 3\n11 11 11", 7),
        reads: 15,
        output: Hex("00000100 00000002 00000003 00000080 00 0000 40 F8 FF02"),
        fault: None,
    },
    Run {
        words: &["pbmtojbg85", "-p", "0"],
        input: Plain(b"P1\n2 3\n1\x0B1\x0C1 1\t1\r1", 7),
        reads: 18,
        output: Hex("00000100 00000002 00000003 00000080 00 0000 00 FE FF02"),
        fault: None,
    },
    Run {
        words: &["pbmtojbg85", "-p", "0", "-s", "1", "-m", "3"],
        input: Plain(b"P1\n8 2\n11111111\n11111111\n", 7),
        reads: 24,
        output: Hex(
            "00000100 00000008 00000002 00000001 03 0000 00 F0 FF02 FF06 00000000 0300 F8 FF02",
        ),
        fault: None,
    },
    Run {
        words: &["pbmtojbg85", "-C", "hi"],
        input: Plain(b"P1\n#a page\n8 1\n00000000", 15),
        reads: 23,
        output: Hex("00000100 00000008 00000001 00000080 00 0000 08 FF07 00000002 6869 FF02"),
        fault: None,
    },
    Run {
        words: &["pbmtojbg85", "-p", "0", "-C", "hi"],
        input: Plain(b"P1 8 1#\n00000000", 8),
        reads: 16,
        output: Hex("00000100 00000008 00000001 00000080 00 0000 00 FF07 00000002 6869 60 FF02"),
        fault: None,
    },
    Run {
        words: &["pbmtojbg85", "-p", "0", "-C", ""],
        input: Plain(b"P1 8 1\n0000 0000", 7),
        reads: 16,
        output: Hex("00000100 00000008 00000001 00000080 00 0000 00 FF07 00000000 60 FF02"),
        fault: None,
    },
    Run {
        words: &["pbmtojbg85", "-p", "0", "-s", "1"],
        input: Plain(b"P1 1 2\n1 1", 7),
        reads: 10,
        output: Hex("00000100 00000001 00000002 00000001 00 0000 00 C0 FF02 C0 FF02"),
        fault: None,
    },
    Run {
        words: &["pbmtojbg85", "-p", "0", "-s", "1", "-r"],
        input: Plain(b"P1 8 2\n1111111111111111", 7),
        reads: 23,
        output: Hex("00000100 00000008 00000002 00000001 00 0000 00 F0 FF03 F0 FF03"),
        fault: None,
    },
    Run {
        words: &["pbmtojbg85", "-p", "0", "-s", "1", "-m", "3", "-r"],
        input: Plain(b"P1 8 3\n111111111111111111111111", 7),
        reads: 31,
        output: Hex(
            "00000100 00000008 00000003 00000001 03 0000 00 F0 FF03 FF06 00000000 0300 F8 FF03 FF06 00000000 0300 F8 FF03",
        ),
        fault: None,
    },
    Run {
        words: &["pbmtojbg85", "-p", "0", "-s", "1", "-m", "2", "-r"],
        input: Plain(b"P1 8 2\n1111111111111111", 7),
        reads: 23,
        output: Hex("00000100 00000008 00000002 00000001 02 0000 00 F0 FF03 F0 FF03"),
        fault: None,
    },
    Run {
        words: &["pbmtojbg85", "-p", "0"],
        input: Plain(b"P1\n3 2\n1 1 1\n111\n", 7),
        reads: 16,
        output: Hex("00000100 00000003 00000002 00000080 00 0000 00 FE FF02"),
        fault: None,
    },
];

#[test]
fn writes_each_stream(rt: HostRuntime) -> Result<(), Fail> {
    all_stand(&rt, rt.alloc(), &CODED)
}

/// An invalid digit, a comment among the digits, and an end within a row.
static BROKEN: [Run<'static>; 3] = [
    Run {
        words: &["pbmtojbg85", "-p", "0", "-s", "1"],
        input: Plain(b"P1\n8 2\n11111111 0 2", 7),
        reads: 19,
        output: Hex("00000100 00000008 00000002 00000001 00 0000 00 F0 FF02"),
        fault: Some("PBM raster has a byte that is no digit"),
    },
    Run {
        words: &["pbmtojbg85", "-p", "0"],
        input: Plain(b"P1\n1 1\n#", 7),
        reads: 8,
        output: Hex("00000100 00000001 00000001 00000080 00 0000 00"),
        fault: Some("PBM raster has a byte that is no digit"),
    },
    Run {
        words: &["pbmtojbg85", "-p", "0"],
        input: Plain(b"P1\n8 1\n1111111", 7),
        reads: 15,
        output: Hex("00000100 00000008 00000001 00000080 00 0000 00"),
        fault: Some("PBM ends too early"),
    },
];

#[test]
fn refuses_digits(rt: HostRuntime) -> Result<(), Fail> {
    all_stand(&rt, rt.alloc(), &BROKEN)
}

/// Whether a white row of 1,048,576 digits is encoded.
fn codes_widest(alloc: Global) -> Result<bool, LineFault> {
    let digits = "0".repeat(alloc, 1048576)?;
    let image = format!(in alloc; "P1\n1048576 1\n{digits}")?;
    let run = Run {
        words: &["pbmtojbg85"],
        input: Plain(image.as_bytes(), 13),
        reads: 0,
        output: Hex("00000100 00100000 00000001 00000080 00 0000 08 FF02"),
        fault: None,
    };
    stands(alloc, run, Trial::Sizes)
}

#[test]
fn codes_a_wide_line(rt: HostRuntime) -> Result<(), Fail> {
    assert!(rt; codes_widest(rt.alloc())?);
    Ok(())
}
