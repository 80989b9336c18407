//! The bytes that `to_jbg` consumes if its input continues after the image: those that its last read returned, and no
//! further read.

ghost use Rattle.std.specs.Prelude.{◌<◌};

use pbm_core::Input;
use pbm_core::trial::{Drip, Pieces};
use std::alloc::Global;
use std::test::Fail;
use t85_core::{Options, to_jbg};

/// Two rows of a byte after a header of seven bytes, and bytes after them.
const RAW: &[u8] = b"P4\n8 2\nab0123456789";

/// A plain row of eight digits after a header of seven bytes, and bytes after it.
const PLAIN: &[u8] = b"P1\n8 1\n10000001 0123456789";

/// A run of the encoder.
struct Taken {
    bytes: &'static [u8],
    /// The number of bytes per read, and the number of the read that fails.
    most: usize,
    failing: u64,
    announced: Option<u32>,
    /// The number of the error, or 0.
    fault: u8,
    /// The number of bytes left in the input.
    left: u64,
}

static TAKEN: [Taken; 12] = [
    // No read follows the one that returns the last byte.
    Taken {
        bytes: RAW,
        most: 1,
        failing: 10,
        announced: None,
        fault: 0,
        left: 10,
    },
    // The last byte is missing.
    Taken {
        bytes: RAW,
        most: 1,
        failing: 9,
        announced: None,
        fault: 37,
        left: 11,
    },
    // The third read returns more bytes than needed.
    Taken {
        bytes: RAW,
        most: 4,
        failing: 4,
        announced: None,
        fault: 0,
        left: 7,
    },
    Taken {
        bytes: RAW,
        most: 4,
        failing: 3,
        announced: None,
        fault: 37,
        left: 11,
    },
    Taken {
        bytes: RAW,
        most: 9,
        failing: 2,
        announced: None,
        fault: 0,
        left: 10,
    },
    Taken {
        bytes: RAW,
        most: 19,
        failing: 2,
        announced: None,
        fault: 0,
        left: 0,
    },
    // The same with digits.
    Taken {
        bytes: PLAIN,
        most: 1,
        failing: 16,
        announced: None,
        fault: 0,
        left: 11,
    },
    Taken {
        bytes: PLAIN,
        most: 4,
        failing: 5,
        announced: None,
        fault: 0,
        left: 10,
    },
    Taken {
        bytes: PLAIN,
        most: 4,
        failing: 4,
        announced: None,
        fault: 37,
        left: 14,
    },
    Taken {
        bytes: PLAIN,
        most: 26,
        failing: 2,
        announced: None,
        fault: 0,
        left: 0,
    },
    // An announced height that is too low is reported after the header.
    Taken {
        bytes: RAW,
        most: 4,
        failing: 3,
        announced: Some(1),
        fault: 23,
        left: 11,
    },
    Taken {
        bytes: RAW,
        most: 7,
        failing: 2,
        announced: Some(1),
        fault: 23,
        left: 12,
    },
];

/// The number of the error, the number of bytes left in the input, and the number of its failures.
fn outcome(alloc: Global, case: &Taken) -> Result<(u8, u64, u64), Fail> {
    let options = Options::new(0, 128, 0, case.announced, false, None)?;
    let mut input = Pieces::new(case.bytes, case.most.max(1), Some(case.failing));
    let mut room = [0; 64];
    let mut output = Drip::new(&mut room, 64, None, false);
    let fault = match to_jbg(alloc, &mut input, &mut output, &options) {
        Ok(()) => 0,
        Err(fault) => fault.number(),
    };
    Ok((fault, input.left(), input.failures()))
}

#[test]
fn reads_end_with_the_image(rt: HostRuntime) -> Result<(), Fail> {
    for case in &TAKEN {
        let failures = u64::from(case.fault == 37);
        let found = outcome(rt.alloc(), case)?;
        let failing = case.failing;
        assert!(rt; found == (case.fault, case.left, failures), "{failing}");
    }
    Ok(())
}
