//! The lines that `jbgtopbm85 --info` writes for streams, with each device failing in turn.

use crate::trial::Bytes::{Hex, Raw};
use crate::trial::{Devices, Run, SMOOTH, Trial, all_stand, leaves, stands};
use pbm_core::trial::{Drip, Pieces};
use program_core::LineFault;
use program_core::jbgtopbm85::{Files, job, run};
use std::alloc::Global;
use std::test::Fail;

/// Two stripes of one row, one black pixel wide.
const TWO_STRIPES: &str = "00000100 00000001 00000002 00000001 00 0000 08 E0 FF02 E0 FF02";

static STREAMS: [Run<'static>; 20] = [
    Run {
        words: &["jbgtopbm85", "--info"],
        input: Hex("00000100 00000001 00000009 00000001 00 0000 20 C0 FF02 FF05 00000002 C0 FF02"),
        reads: 32,
        output: Raw(b"1 9 1 0 32 2 2 0 0\n"),
        fault: None,
    },
    // A comment after the last stripe data entity that the height leaves.
    Run {
        words: &["jbgtopbm85", "--info"],
        input: Hex(
            "00000100 00000001 00000009 00000001 00 0000 20 C0 FF02 C0 FF02 FF07 00000000 FF05 00000002 FF02",
        ),
        reads: 38,
        output: Raw(b"1 9 1 0 32 2 2 0 0\n"),
        fault: None,
    },
    Run {
        words: &["jbgtopbm85", "--info"],
        input: Hex("00000100 00000001 00000009 00000001 00 0000 20 FF05 00000002 C0 FF02 FF05"),
        reads: 31,
        output: Raw(b""),
        fault: Some("second new height"),
    },
    Run {
        words: &["jbgtopbm85", "--info"],
        input: Hex(TWO_STRIPES),
        reads: 26,
        output: Raw(b"1 2 1 0 8 2 2 0 0\n"),
        fault: None,
    },
    Run {
        words: &["jbgtopbm85", "--info"],
        input: Hex(
            "00000100 00000008 00000002 00000001 03 0000 00 F0 FF02 FF06 00000000 0300 F8 FF02",
        ),
        reads: 34,
        output: Raw(b"8 2 1 3 0 2 2 1 0\n"),
        fault: None,
    },
    Run {
        words: &["jbgtopbm85", "--info"],
        input: Hex("00000100 00000008 00000001 00000080 00 0000 08 FF07 00000002 6869 FF02"),
        reads: 30,
        output: Raw(b"8 1 128 0 8 1 1 0 1\n"),
        fault: None,
    },
    Run {
        words: &["jbgtopbm85", "--info"],
        input: Hex("00000100 00000008 00000003 00000080 08 0003 1C FF02"),
        reads: 22,
        output: Raw(b"8 3 128 8 28 3 1 0 0\n"),
        fault: None,
    },
    Run {
        words: &["jbgtopbm85", "--info"],
        input: Hex("00000100 00000001 00000005 00000080 00 0000 20 C0 FF02 FF05 00000001 FF02"),
        reads: 29,
        output: Raw(b"1 5 128 0 32 1 1 0 0\n"),
        fault: None,
    },
    Run {
        words: &["jbgtopbm85", "--info"],
        input: Hex("00000100 00000008 00000001 00000080 00 0000 00 FF02 FF07"),
        reads: 22,
        output: Raw(b"8 1 128 0 0 1 1 0 0\n"),
        fault: None,
    },
    Run {
        words: &["jbgtopbm85", "--info"],
        input: Hex("00000100 00000008 00000001 00000080 00 0000 08"),
        reads: 21,
        output: Raw(b""),
        fault: Some("input ends too early"),
    },
    Run {
        words: &["jbgtopbm85", "--info"],
        input: Hex("00000100 00000008 00000001 00000080 00 0000 08 FF09"),
        reads: 22,
        output: Raw(b""),
        fault: Some("unexpected escape code"),
    },
    Run {
        words: &["jbgtopbm85", "--info"],
        input: Hex("00000100 00000008 00000001 00000080 00 0000 08 FF04"),
        reads: 22,
        output: Raw(b""),
        fault: Some("image was aborted"),
    },
    Run {
        words: &["jbgtopbm85", "--info"],
        input: Hex("00000100 00000008 00000001 00000080 00 0000 08 00 FF05"),
        reads: 23,
        output: Raw(b""),
        fault: Some("unexpected escape code"),
    },
    Run {
        words: &["jbgtopbm85", "--info"],
        input: Hex("00000100 00000001 00000001 00000080 00 0000 00 FF05 00000001 C0 FF02"),
        reads: 22,
        output: Raw(b""),
        fault: Some("new height is not allowed"),
    },
    Run {
        words: &["jbgtopbm85", "--info"],
        input: Hex("00000100 00000001 00000001 00000080 00 0000 00 FF05"),
        reads: 22,
        output: Raw(b""),
        fault: Some("new height is not allowed"),
    },
    Run {
        words: &["jbgtopbm85", "--info"],
        input: Hex("01010201 00000000 00000000 00000000 00 0000 00"),
        reads: 20,
        output: Raw(b""),
        fault: Some("reserved bits of the header are set"),
    },
    Run {
        words: &["jbgtopbm85", "--info"],
        input: Hex("00000100 00000001 00000001 00000080 00 0000"),
        reads: 20,
        output: Raw(b""),
        fault: Some("header is shorter than 20 bytes"),
    },
    Run {
        words: &["jbgtopbm85", "--info"],
        input: Hex("00000100 00100001 00000001 00000080 00 0000 00"),
        reads: 20,
        output: Raw(b""),
        fault: Some("image is wider than 1048576"),
    },
    Run {
        words: &["jbgtopbm85", "--info"],
        input: Hex("00000100 00000008 00000002 00000080 00 0000 00 FF06 00000080 0000"),
        reads: 28,
        output: Raw(b""),
        fault: Some("adaptive pixel move is not allowed"),
    },
    Run {
        words: &["jbgtopbm85", "--info"],
        input: Hex("00000100 00000008 00000002 00000080 00 0000 00 FF06 00000000 0000 FF06"),
        reads: 30,
        output: Raw(b""),
        fault: Some("second adaptive pixel move in a stripe"),
    },
];

/// Each stream has its line, or its error.
#[test]
fn tells_each_stream(rt: HostRuntime) -> Result<(), Fail> {
    all_stand(&rt, rt.alloc(), &STREAMS)
}

fn tells_comment(alloc: Global) -> Result<bool, LineFault> {
    let digits = "41".repeat(alloc, 5000)?;
    let hex = format!(in alloc;
        "00000100 00000008 00000001 00000080 00 0000 00 FF07 00001388 {digits} 60 FF02"
    )?;
    let run = Run {
        words: &["jbgtopbm85", "--info"],
        input: Hex(&hex),
        reads: 0,
        output: Raw(b"8 1 128 0 0 1 1 0 1\n"),
        fault: None,
    };
    stands(alloc, run, Trial::Sizes)
}

/// Comments longer than the buffer are also skipped.
#[test]
fn passes_a_long_comment(rt: HostRuntime) -> Result<(), Fail> {
    assert!(rt; tells_comment(rt.alloc())?);
    Ok(())
}

/// The report for two stripes if the read of this number fails: with large reads, one is for the header and one for the
/// rest.
static AHEAD: [(u64, &[u8], Option<&str>); 3] = [
    (1, b"", Some("input cannot be read")),
    (2, b"", Some("input cannot be read")),
    (3, b"1 2 1 0 8 2 2 0 0\n", None),
];

/// Whether the read of this number fails, with these results.
fn reads_so_far<'a>(
    alloc: Global,
    at: u64,
    line: &'a [u8],
    fault: Option<&'a str>,
) -> Result<bool, LineFault> {
    let run = Run {
        words: &["jbgtopbm85", "--info"],
        input: Hex(TWO_STRIPES),
        reads: 0,
        output: Raw(line),
        fault,
    };
    let devices = Devices {
        failing_read: Some(at),
        ..SMOOTH
    };
    leaves(alloc, run, devices)
}

#[test]
fn reads_ahead(rt: HostRuntime) -> Result<(), Fail> {
    for &(at, line, fault) in &AHEAD {
        assert!(rt; reads_so_far(rt.alloc(), at, line, fault)?, "read {at}");
    }
    Ok(())
}

/// Whether a run reports an error only by its status, if the second piece of the message cannot be written.
fn loses(alloc: Global) -> Result<bool, LineFault> {
    let job = job(alloc, &["jbgtopbm85", "--info"])?;
    let again: Option<Pieces<'_>> = None;
    let mut held = [0; 8];
    let mut files = Files {
        input: Pieces::new(b"", 1, None),
        again,
        output: Drip::new(&mut held, 8, None, false),
    };
    let mut told = [0; 64];
    let mut messages = Drip::new(&mut told, 8, Some(2), false);
    let status = run(alloc, &job, &mut files, &mut messages);
    Ok(status == 1 && messages.written() == b"jbgtopbm".as_slice())
}

/// A message that cannot be written does not change the status.
#[test]
fn loses_a_message(rt: HostRuntime) -> Result<(), Fail> {
    assert!(rt; loses(rt.alloc())?);
    Ok(())
}
