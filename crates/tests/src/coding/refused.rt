//! `pbmtojbg85` rejects bad images, and writes nothing.

use crate::trial::Bytes::Raw;
use crate::trial::{Run, all_stand};
use std::test::Fail;

/// Images that are rejected: nothing is written.
static REFUSED: [Run<'static>; 10] = [
    Run {
        words: &["pbmtojbg85"],
        input: Raw(b""),
        reads: 1,
        output: Raw(b""),
        fault: Some("PBM ends too early"),
    },
    Run {
        words: &["pbmtojbg85"],
        input: Raw(b"P4 1"),
        reads: 5,
        output: Raw(b""),
        fault: Some("PBM ends too early"),
    },
    Run {
        words: &["pbmtojbg85"],
        input: Raw(b"P5\n1 1\n"),
        reads: 2,
        output: Raw(b""),
        fault: Some("input is not a PBM bitmap"),
    },
    Run {
        words: &["pbmtojbg85"],
        input: Raw(b"P4 1x"),
        reads: 5,
        output: Raw(b""),
        fault: Some("bad number in the PBM header"),
    },
    Run {
        words: &["pbmtojbg85"],
        input: Raw(b"P4\n0 1\n"),
        reads: 5,
        output: Raw(b""),
        fault: Some("PBM width or height is zero"),
    },
    Run {
        words: &["pbmtojbg85"],
        input: Raw(b"P4\n1048577 1\n"),
        reads: 11,
        output: Raw(b""),
        fault: Some("PBM is wider than 1048576"),
    },
    Run {
        words: &["pbmtojbg85"],
        input: Raw(b"P4 1 4294967296 "),
        reads: 16,
        output: Raw(b""),
        fault: Some("PBM is taller than 4294967295"),
    },
    Run {
        words: &["pbmtojbg85"],
        input: Raw(b"P4 1 1#"),
        reads: 8,
        output: Raw(b""),
        fault: Some("PBM ends too early"),
    },
    Run {
        words: &["pbmtojbg85"],
        input: Raw(b"P4 1 #"),
        reads: 7,
        output: Raw(b""),
        fault: Some("PBM ends too early"),
    },
    Run {
        words: &["pbmtojbg85", "-p", "32"],
        input: Raw(b"P4\n0 1\n"),
        reads: 5,
        output: Raw(b""),
        fault: Some("PBM width or height is zero"),
    },
];

#[test]
fn refuses_images(rt: HostRuntime) -> Result<(), Fail> {
    all_stand(&rt, rt.alloc(), &REFUSED)
}
