//! Images through `jbgtopbm85`, with each device failing in turn.

use crate::streams::STREAMS;
use crate::streams::broken::BROKEN;
use crate::trial::Bytes::{Hex, Image, Raw};
use crate::trial::{Cut, Run, all_are_cut, all_stand};
use std::test::Fail;

/// Each stream gives its image, or the rows that it determines.
#[test]
fn writes_each_image(rt: HostRuntime) -> Result<(), Fail> {
    all_stand(&rt, rt.alloc(), &STREAMS)?;
    all_stand(&rt, rt.alloc(), &BROKEN)
}

/// Images with as many rows as the limit, and with more: the latter are rejected before anything is written.
static LIMITED: [Run<'static>; 6] = [
    Run {
        words: &["jbgtopbm85", "--max-rows", "2"],
        input: Hex("00000100 00000001 00000002 00000001 00 0000 08 E0 FF02 E0 FF02"),
        reads: 26,
        output: Image("1 2", "80 80"),
        fault: None,
    },
    Run {
        words: &["jbgtopbm85", "--max-rows", "4294967295"],
        input: Hex("00000100 00000001 00000002 00000001 00 0000 08 E0 FF02 E0 FF02"),
        reads: 26,
        output: Image("1 2", "80 80"),
        fault: None,
    },
    Run {
        words: &["jbgtopbm85", "--max-rows", "1"],
        input: Hex("00000100 00000001 00000002 00000001 00 0000 08 E0 FF02 E0 FF02"),
        reads: 20,
        output: Raw(b""),
        fault: Some("image has more rows than --max-rows"),
    },
    Run {
        words: &["jbgtopbm85", "--max-rows", "0"],
        input: Hex("00000100 00000001 00000002 00000001 00 0000 08 E0 FF02 E0 FF02"),
        reads: 20,
        output: Raw(b""),
        fault: Some("image has more rows than --max-rows"),
    },
    Run {
        words: &["jbgtopbm85", "--max-rows", "0", "--info"],
        input: Hex("00000100 00000001 00000002 00000001 00 0000 08 E0 FF02 E0 FF02"),
        reads: 26,
        output: Raw(b"1 2 1 0 8 2 2 0 0\n"),
        fault: None,
    },
    // An invalid header is reported before a height above the limit.
    Run {
        words: &["jbgtopbm85", "--max-rows", "0"],
        input: Hex("00000100 00100001 00000001 00000080 00 0000 00"),
        reads: 20,
        output: Raw(b""),
        fault: Some("image is wider than 1048576"),
    },
];

#[test]
fn refuses_more_rows(rt: HostRuntime) -> Result<(), Fail> {
    all_stand(&rt, rt.alloc(), &LIMITED)
}

static CUTS: [Cut; 7] = [
    Cut {
        run: Run {
            words: &["jbgtopbm85"],
            input: Hex("00000100 00000001 00000002 00000001 00 0000 08 E0 FF02 E0 FF02"),
            reads: 26,
            output: Image("1 2", "80 80"),
            fault: None,
        },
        stands: &[
            (0, 0, "header is shorter than 20 bytes"),
            (20, 7, "input ends too early"),
            (23, 8, "input ends too early"),
        ],
    },
    Cut {
        run: Run {
            words: &["jbgtopbm85"],
            input: Hex(
                "00000100 00000008 00000002 00000001 03 0000 00 F0 FF02 FF06 00000000 0300 F8 FF02",
            ),
            reads: 34,
            output: Image("8 2", "FF FF"),
            fault: None,
        },
        stands: &[
            (0, 0, "header is shorter than 20 bytes"),
            (20, 7, "input ends too early"),
            (23, 8, "input ends too early"),
        ],
    },
    Cut {
        run: Run {
            words: &["jbgtopbm85"],
            input: Hex("00000100 00000008 00000002 00000080 00 0000 00 F0 FF02"),
            reads: 23,
            output: Image("8 2", "FF 32"),
            fault: None,
        },
        stands: &[
            (0, 0, "header is shorter than 20 bytes"),
            (20, 7, "input ends too early"),
        ],
    },
    Cut {
        run: Run {
            words: &["jbgtopbm85"],
            input: Hex("00000100 00000008 00000002 00000080 00 0000 00 F0 00 00 00 FF02"),
            reads: 26,
            output: Image("8 2", "FF 32"),
            fault: None,
        },
        stands: &[
            (0, 0, "header is shorter than 20 bytes"),
            (20, 7, "input ends too early"),
            (23, 8, "input ends too early"),
            (24, 9, "input ends too early"),
        ],
    },
    Cut {
        run: Run {
            words: &["jbgtopbm85"],
            input: Hex("00000100 00000001 00000002 00000001 00 0000 08 E0 FF03 E0 FF03"),
            reads: 26,
            output: Image("1 2", "80 80"),
            fault: None,
        },
        stands: &[
            (0, 0, "header is shorter than 20 bytes"),
            (20, 7, "input ends too early"),
            (23, 8, "input ends too early"),
        ],
    },
    Cut {
        run: Run {
            words: &["jbgtopbm85"],
            input: Hex("00000100 00000008 00000001 00000080 00 0000 08 FF02"),
            reads: 22,
            output: Image("8 1", "00"),
            fault: None,
        },
        stands: &[
            (0, 0, "header is shorter than 20 bytes"),
            (20, 7, "input ends too early"),
        ],
    },
    Cut {
        run: Run {
            words: &["jbgtopbm85"],
            input: Hex("00000100 00000008 00000001 00000080 00 0000 08 FF07 00000002 6869 FF02"),
            reads: 30,
            output: Image("8 1", "00"),
            fault: None,
        },
        stands: &[
            (0, 0, "header is shorter than 20 bytes"),
            (20, 7, "input ends too early"),
        ],
    },
];

/// The input ends, or a read fails, after each byte in turn: the rows that the bytes so far determine are written.
#[test]
fn cut_at_each_byte(rt: HostRuntime) -> Result<(), Fail> {
    all_are_cut(&rt, rt.alloc(), &CUTS)
}
