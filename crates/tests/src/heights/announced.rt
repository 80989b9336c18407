//! `pbmtojbg85` encodes images with an announced height, and `jbgtopbm85` decodes them.

use crate::trial::Bytes::{Hex, Image};
use crate::trial::{Run, Trial, all_stand, stands};
use std::test::Fail;

/// Images encoded with an announced height, and the images that the reader decodes.
static ANNOUNCED: [Run<'static>; 6] = [
    Run {
        words: &["pbmtojbg85", "-p", "0", "-Y", "5"],
        input: Image("1 1", "80"),
        reads: 8,
        output: Hex("00000100 00000001 00000005 00000080 00 0000 20 C0 FF02 FF05 00000001 FF02"),
        fault: None,
    },
    Run {
        words: &["pbmtojbg85", "-p", "0", "-Y", "1"],
        input: Image("1 1", "80"),
        reads: 8,
        output: Hex("00000100 00000001 00000001 00000080 00 0000 20 C0 FF02"),
        fault: None,
    },
    Run {
        words: &["pbmtojbg85", "-p", "0", "-s", "1", "-Y", "9"],
        input: Image("1 2", "80 80"),
        reads: 9,
        output: Hex(
            "00000100 00000001 00000009 00000001 00 0000 20 C0 FF02 C0 FF02 FF05 00000002 FF02",
        ),
        fault: None,
    },
    Run {
        words: &["pbmtojbg85", "-p", "32", "-s", "128"],
        input: Image("1 1", "80"),
        reads: 8,
        output: Hex("00000100 00000001 00000001 00000080 00 0000 20 C0 FF02"),
        fault: None,
    },
    Run {
        words: &["pbmtojbg85", "-p", "0", "-r", "-Y", "5"],
        input: Image("1 1", "80"),
        reads: 8,
        output: Hex("00000100 00000001 00000005 00000080 00 0000 20 C0 FF03 FF05 00000001 FF03"),
        fault: None,
    },
    Run {
        words: &["pbmtojbg85", "-p", "32", "-Y", "5"],
        input: Image("1 1", "80"),
        reads: 8,
        output: Hex("00000100 00000001 00000005 00000080 00 0000 20 C0 FF02 FF05 00000001 FF02"),
        fault: None,
    },
];

#[test]
fn announces_heights(rt: HostRuntime) -> Result<(), Fail> {
    all_stand(&rt, rt.alloc(), &ANNOUNCED)?;
    for run in &ANNOUNCED {
        assert!(rt;
            stands(rt.alloc(), run.back(), Trial::Sizes)?,
            "{:?}",
            run.words
        );
    }
    Ok(())
}
