//! `pbmtojbg85` writes each stripe whose rows all arrived before the input was cut.

use crate::trial::Bytes::{Hex, Image};
use crate::trial::{Cut, Run, all_are_cut};
use std::test::Fail;

static CUTS: [Cut; 7] = [
    Cut {
        run: Run {
            words: &["pbmtojbg85", "-p", "0", "-s", "1"],
            input: Image("8 2", "FF FF"),
            reads: 9,
            output: Hex("00000100 00000008 00000002 00000001 00 0000 00 F0 FF02 F4 FF02"),
            fault: None,
        },
        stands: &[
            (0, 0, "PBM ends too early"),
            (7, 20, "PBM ends too early"),
            (8, 23, "PBM ends too early"),
        ],
    },
    Cut {
        run: Run {
            words: &["pbmtojbg85", "-s", "1"],
            input: Image("1 2", "80 80"),
            reads: 9,
            output: Hex("00000100 00000001 00000002 00000001 00 0000 08 E0 FF02 E0 FF02"),
            fault: None,
        },
        stands: &[
            (0, 0, "PBM ends too early"),
            (7, 20, "PBM ends too early"),
            (8, 23, "PBM ends too early"),
        ],
    },
    Cut {
        run: Run {
            words: &["pbmtojbg85", "-p", "0", "-s", "1", "-m", "3"],
            input: Image("8 2", "FF FF"),
            reads: 9,
            output: Hex(
                "00000100 00000008 00000002 00000001 03 0000 00 F0 FF02 FF06 00000000 0300 F8 FF02",
            ),
            fault: None,
        },
        stands: &[
            (0, 0, "PBM ends too early"),
            (7, 20, "PBM ends too early"),
            (8, 23, "PBM ends too early"),
        ],
    },
    Cut {
        run: Run {
            words: &["pbmtojbg85", "-p", "0", "-s", "1", "-C", "hi"],
            input: Image("8 2", "FF FF"),
            reads: 9,
            output: Hex(
                "00000100 00000008 00000002 00000001 00 0000 00 FF07 00000002 6869 F0 FF02 F4 FF02",
            ),
            fault: None,
        },
        stands: &[
            (0, 0, "PBM ends too early"),
            (7, 28, "PBM ends too early"),
            (8, 31, "PBM ends too early"),
        ],
    },
    Cut {
        run: Run {
            words: &["pbmtojbg85", "-s", "1", "-r"],
            input: Image("1 2", "80 80"),
            reads: 9,
            output: Hex("00000100 00000001 00000002 00000001 00 0000 08 E0 FF03 E0 FF03"),
            fault: None,
        },
        stands: &[
            (0, 0, "PBM ends too early"),
            (7, 20, "PBM ends too early"),
            (8, 23, "PBM ends too early"),
        ],
    },
    Cut {
        run: Run {
            words: &["pbmtojbg85"],
            input: Image("8 1", "00"),
            reads: 8,
            output: Hex("00000100 00000008 00000001 00000080 00 0000 08 FF02"),
            fault: None,
        },
        stands: &[(0, 0, "PBM ends too early"), (7, 20, "PBM ends too early")],
    },
    Cut {
        run: Run {
            words: &["pbmtojbg85", "-C", "hi"],
            input: Image("8 1", "00"),
            reads: 8,
            output: Hex("00000100 00000008 00000001 00000080 00 0000 08 FF07 00000002 6869 FF02"),
            fault: None,
        },
        stands: &[(0, 0, "PBM ends too early"), (7, 28, "PBM ends too early")],
    },
];

/// The input ends, or a read fails, after each byte in turn: each stripe whose rows all arrived is written.
#[test]
fn cut_at_each_byte(rt: HostRuntime) -> Result<(), Fail> {
    all_are_cut(&rt, rt.alloc(), &CUTS)
}
