//! Streams with variable height, which are read twice, and their encoding.

mod announced;
mod changed;

use crate::trial::Bytes::{Hex, Image, Raw};
use crate::trial::{Devices, Run, SMOOTH, Trial, all_stand, is_read_again, leaves, stands};
use std::test::Fail;

/// A run of the decoder that reads its stream twice, and the number of bytes read the second time.
struct Twice {
    run: Run<'static>,
    again: u64,
}

static TWICE: [Twice; 9] = [
    // The new height follows the last stripe that it leaves.
    Twice {
        run: Run {
            words: &["jbgtopbm85"],
            input: Hex("00000100 00000001 00000005 00000080 00 0000 20 C0 FF02 FF05 00000001 FF02"),
            reads: 29,
            output: Image("1 1", "80"),
            fault: None,
        },
        again: 23,
    },
    // There is no new height.
    Twice {
        run: Run {
            words: &["jbgtopbm85"],
            input: Hex("00000100 00000001 00000001 00000080 00 0000 20 C0 FF02"),
            reads: 24,
            output: Image("1 1", "80"),
            fault: None,
        },
        again: 23,
    },
    // A height above the header's ends the search after the last stripe.
    Twice {
        run: Run {
            words: &["jbgtopbm85"],
            input: Hex("00000100 00000001 00000005 00000080 00 0000 20 C0 FF02 FF05 00000009 FF02"),
            reads: 29,
            output: Image("1 5", "80 00 80 00 80"),
            fault: None,
        },
        again: 23,
    },
    // So does a truncated one.
    Twice {
        run: Run {
            words: &["jbgtopbm85"],
            input: Hex("00000100 00000001 00000005 00000080 00 0000 20 C0 FF02 FF05 000000"),
            reads: 29,
            output: Image("1 5", "80 00 80 00 80"),
            fault: None,
        },
        again: 23,
    },
    Twice {
        run: Run {
            words: &["jbgtopbm85"],
            input: Hex(
                "00000100 00000001 00000009 00000001 00 0000 20 C0 FF02 C0 FF02 FF05 00000002 FF02",
            ),
            reads: 32,
            output: Image("1 2", "80 80"),
            fault: None,
        },
        again: 26,
    },
    // A height between two stripes.
    Twice {
        run: Run {
            words: &["jbgtopbm85"],
            input: Hex(
                "00000100 00000001 00000009 00000001 00 0000 20 C0 FF02 FF05 00000002 C0 FF02",
            ),
            reads: 29,
            output: Image("1 2", "80 80"),
            fault: None,
        },
        again: 32,
    },
    // A new height of 0.
    Twice {
        run: Run {
            words: &["jbgtopbm85"],
            input: Hex(
                "00000100 00000001 00000009 00000001 00 0000 20 C0 FF02 C0 FF02 FF05 00000000 FF02",
            ),
            reads: 32,
            output: Image("1 9", "80 80"),
            fault: Some("new height is not allowed"),
        },
        again: 32,
    },
    // A height that would remove stripes that precede it.
    Twice {
        run: Run {
            words: &["jbgtopbm85"],
            input: Hex(
                "00000100 00000001 00000009 00000001 00 0000 20 C0 FF02 C0 FF02 FF05 00000001 FF02",
            ),
            reads: 32,
            output: Image("1 9", "80 80"),
            fault: Some("new height is not allowed"),
        },
        again: 32,
    },
    // A second one.
    Twice {
        run: Run {
            words: &["jbgtopbm85"],
            input: Hex("00000100 00000001 00000009 00000001 00 0000 20 FF05 00000002 C0 FF02 FF05"),
            reads: 26,
            output: Image("1 2", "80"),
            fault: Some("second new height"),
        },
        again: 31,
    },
];

#[test]
fn writes_each_image(rt: HostRuntime) -> Result<(), Fail> {
    for twice in &TWICE {
        all_stand(&rt, rt.alloc(), &[twice.run])?;
    }
    Ok(())
}

#[test]
fn reads_again(rt: HostRuntime) -> Result<(), Fail> {
    for twice in &TWICE {
        assert!(rt; is_read_again(rt.alloc(), twice.run, twice.again)?);
    }
    Ok(())
}

/// Runs that end before anything is written.
static REFUSED: [Run<'static>; 2] = [
    // An announced height below the image's.
    Run {
        words: &["pbmtojbg85", "-Y", "1"],
        input: Image("1 2", "80 80"),
        reads: 7,
        output: Raw(b""),
        fault: Some("announced height is below the image's height"),
    },
    // The limit of rows applies to the actual height.
    Run {
        words: &["jbgtopbm85", "--max-rows", "1"],
        input: Hex(
            "00000100 00000001 00000009 00000001 00 0000 20 C0 FF02 C0 FF02 FF05 00000002 FF02",
        ),
        reads: 32,
        output: Raw(b""),
        fault: Some("image has more rows than --max-rows"),
    },
];

#[test]
fn refuses_heights(rt: HostRuntime) -> Result<(), Fail> {
    all_stand(&rt, rt.alloc(), &REFUSED)
}

/// A height of 2 is found under a header of 9.
static WITHIN: Run<'static> = Run {
    words: &["jbgtopbm85", "--max-rows", "2"],
    input: Hex("00000100 00000001 00000009 00000001 00 0000 20 C0 FF02 C0 FF02 FF05 00000002 FF02"),
    reads: 32,
    output: Image("1 2", "80 80"),
    fault: None,
};

/// The same stream in an input that can be read once.
static ONCE: Run<'static> = Run {
    words: &["jbgtopbm85"],
    input: Hex("00000100 00000001 00000005 00000080 00 0000 20 C0 FF02 FF05 00000001 FF02"),
    reads: 20,
    output: Raw(b""),
    fault: Some("variable height needs an input file"),
};

#[test]
fn wants_a_second_reading(rt: HostRuntime) -> Result<(), Fail> {
    let once = Devices {
        twice: false,
        ..SMOOTH
    };
    assert!(rt; leaves(rt.alloc(), ONCE, once)?);
    assert!(rt; stands(rt.alloc(), WITHIN, Trial::Sizes)?);
    Ok(())
}
