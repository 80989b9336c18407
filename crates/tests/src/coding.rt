//! Images through `pbmtojbg85`, with each device failing in turn.

mod cut;
mod long;
mod refused;

use crate::trial::Bytes::{Hex, Image, Raw};
use crate::trial::{Run, Trial, all_stand, goes_there_and_back, stands};
use std::test::Fail;

static CODED: [Run<'static>; 20] = [
    Run {
        words: &["pbmtojbg85"],
        input: Image("8 1", "00"),
        reads: 8,
        output: Hex("00000100 00000008 00000001 00000080 00 0000 08 FF02"),
        fault: None,
    },
    Run {
        words: &["pbmtojbg85", "-p", "0"],
        input: Image("8 1", "00"),
        reads: 8,
        output: Hex("00000100 00000008 00000001 00000080 00 0000 00 60 FF02"),
        fault: None,
    },
    Run {
        words: &["pbmtojbg85", "-p", "0"],
        input: Image("1 1", "80"),
        reads: 8,
        output: Hex("00000100 00000001 00000001 00000080 00 0000 00 C0 FF02"),
        fault: None,
    },
    Run {
        words: &["pbmtojbg85"],
        input: Image("1 1", "80"),
        reads: 8,
        output: Hex("00000100 00000001 00000001 00000080 00 0000 08 E0 FF02"),
        fault: None,
    },
    Run {
        words: &["pbmtojbg85", "-p", "0"],
        input: Image("8 1", "FF"),
        reads: 8,
        output: Hex("00000100 00000008 00000001 00000080 00 0000 00 F0 FF02"),
        fault: None,
    },
    Run {
        words: &["pbmtojbg85"],
        input: Image("8 1", "FF"),
        reads: 8,
        output: Hex("00000100 00000008 00000001 00000080 00 0000 08 F8 FF02"),
        fault: None,
    },
    Run {
        words: &["pbmtojbg85", "-p", "0"],
        input: Image("3 3", "E0 E0 E0"),
        reads: 10,
        output: Hex("00000100 00000003 00000003 00000080 00 0000 00 FF00 C0 FF02"),
        fault: None,
    },
    Run {
        words: &["pbmtojbg85"],
        input: Image("8 3", "00 00 00"),
        reads: 10,
        output: Hex("00000100 00000008 00000003 00000080 00 0000 08 FF02"),
        fault: None,
    },
    Run {
        words: &["pbmtojbg85", "-s", "1"],
        input: Image("1 2", "80 80"),
        reads: 9,
        output: Hex("00000100 00000001 00000002 00000001 00 0000 08 E0 FF02 E0 FF02"),
        fault: None,
    },
    Run {
        words: &["pbmtojbg85", "-s", "1", "-r"],
        input: Image("1 2", "80 80"),
        reads: 9,
        output: Hex("00000100 00000001 00000002 00000001 00 0000 08 E0 FF03 E0 FF03"),
        fault: None,
    },
    Run {
        words: &["pbmtojbg85", "-p", "64"],
        input: Image("2 3", "C0 C0 C0"),
        reads: 10,
        output: Hex("00000100 00000002 00000003 00000080 00 0000 40 F8 FF02"),
        fault: None,
    },
    Run {
        words: &["pbmtojbg85", "-p", "0"],
        input: Image("2 3", "C0 C0 C0"),
        reads: 10,
        output: Hex("00000100 00000002 00000003 00000080 00 0000 00 FE FF02"),
        fault: None,
    },
    Run {
        words: &["pbmtojbg85", "-p", "0", "-s", "1", "-m", "3"],
        input: Image("8 2", "FF FF"),
        reads: 9,
        output: Hex(
            "00000100 00000008 00000002 00000001 03 0000 00 F0 FF02 FF06 00000000 0300 F8 FF02",
        ),
        fault: None,
    },
    Run {
        words: &["pbmtojbg85", "-C", "hi"],
        input: Image("8 1", "00"),
        reads: 8,
        output: Hex("00000100 00000008 00000001 00000080 00 0000 08 FF07 00000002 6869 FF02"),
        fault: None,
    },
    Run {
        words: &["pbmtojbg85", "-p", "0", "-C", "hi"],
        input: Image("8 1", "00"),
        reads: 8,
        output: Hex("00000100 00000008 00000001 00000080 00 0000 00 FF07 00000002 6869 60 FF02"),
        fault: None,
    },
    Run {
        words: &["pbmtojbg85", "-p", "0", "-C", ""],
        input: Image("8 1", "00"),
        reads: 8,
        output: Hex("00000100 00000008 00000001 00000080 00 0000 00 FF07 00000000 60 FF02"),
        fault: None,
    },
    Run {
        words: &["pbmtojbg85", "-p", "0", "-s", "1"],
        input: Image("1 2", "80 80"),
        reads: 9,
        output: Hex("00000100 00000001 00000002 00000001 00 0000 00 C0 FF02 C0 FF02"),
        fault: None,
    },
    Run {
        words: &["pbmtojbg85", "-p", "0", "-s", "1", "-r"],
        input: Image("8 2", "FF FF"),
        reads: 9,
        output: Hex("00000100 00000008 00000002 00000001 00 0000 00 F0 FF03 F0 FF03"),
        fault: None,
    },
    Run {
        words: &["pbmtojbg85", "-p", "0", "-s", "1", "-m", "3", "-r"],
        input: Image("8 3", "FF FF FF"),
        reads: 10,
        output: Hex(
            "00000100 00000008 00000003 00000001 03 0000 00 F0 FF03 FF06 00000000 0300 F8 FF03 FF06 00000000 0300 F8 FF03",
        ),
        fault: None,
    },
    Run {
        words: &["pbmtojbg85", "-p", "0", "-s", "1", "-m", "2", "-r"],
        input: Image("8 2", "FF FF"),
        reads: 9,
        output: Hex("00000100 00000008 00000002 00000001 02 0000 00 F0 FF03 F0 FF03"),
        fault: None,
    },
];

#[test]
fn writes_each_stream(rt: HostRuntime) -> Result<(), Fail> {
    all_stand(&rt, rt.alloc(), &CODED)
}

#[test]
fn streams_give_their_images(rt: HostRuntime) -> Result<(), Fail> {
    for run in &CODED {
        assert!(rt; goes_there_and_back(rt.alloc(), *run)?, "{:?}", run.words);
    }
    Ok(())
}

/// Padding bits do not affect the code, and comments of the header are skipped.
static PADDED: Run<'static> = Run {
    words: &["pbmtojbg85", "-p", "0"],
    input: Raw(b"P4\n#x\n3 2\n\x1F\x1F"),
    reads: 12,
    output: Hex("00000100 00000003 00000002 00000080 00 0000 00 60 FF02"),
    fault: None,
};

#[test]
fn leaves_padding_out(rt: HostRuntime) -> Result<(), Fail> {
    assert!(rt; stands(rt.alloc(), PADDED, Trial::Sizes)?);
    Ok(())
}
