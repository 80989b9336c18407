//! A walk returns the parts of a broken stream up to its error, and then the error.

use crate::parts::{Case, all_tell};
use std::test::Fail;
use t85_core::PartKind::{DataEntity, Move, NewHeight};
use t85_core::{Fault, Found};

static BROKEN: [Case; 9] = [
    Case {
        stream: "00000100 00000008 00000001 00000080 00 0000 08 FF09",
        body: &[],
        end: Found::Broken {
            fault: Fault::BadEscape,
            offset: 20,
            stripe: 0,
        },
    },
    // An error inside a code: the stripe data entity begins before it.
    Case {
        stream: "00000100 00000001 00000002 00000001 00 0000 08 E0 FF02 E0 00 FF05",
        body: &[(DataEntity, 20, 3, 0)],
        end: Found::Broken {
            fault: Fault::BadEscape,
            offset: 23,
            stripe: 1,
        },
    },
    Case {
        stream: "00000100 00000001 00000002 00000001 00 0000 08 E0 FF02 FF04",
        body: &[(DataEntity, 20, 3, 0)],
        end: Found::Broken {
            fault: Fault::Aborted,
            offset: 23,
            stripe: 1,
        },
    },
    Case {
        stream: "00000100 00000008 00000002 00000080 00 0000 00 FF06 00000080 0000",
        body: &[],
        end: Found::Broken {
            fault: Fault::MoveRefused,
            offset: 20,
            stripe: 0,
        },
    },
    Case {
        stream: "00000100 00000008 00000002 00000080 00 0000 00 FF06 00000000 0000 FF06",
        body: &[(Move, 20, 8, 0)],
        end: Found::Broken {
            fault: Fault::SecondMove,
            offset: 28,
            stripe: 0,
        },
    },
    Case {
        stream: "00000100 00000001 00000001 00000080 00 0000 00 FF05 00000001",
        body: &[],
        end: Found::Broken {
            fault: Fault::LengthRefused,
            offset: 20,
            stripe: 0,
        },
    },
    Case {
        stream: "00000100 00000001 00000009 00000001 00 0000 20 FF05 00000002 C0 FF02 FF05",
        body: &[(NewHeight, 20, 6, 0), (DataEntity, 26, 3, 0)],
        end: Found::Broken {
            fault: Fault::SecondLength,
            offset: 29,
            stripe: 1,
        },
    },
    // A height that two stripes exceed.
    Case {
        stream: "00000100 00000001 00000009 00000001 00 0000 20 C0 FF02 C0 FF02 FF05 00000001 FF02",
        body: &[(DataEntity, 20, 3, 0), (DataEntity, 23, 3, 1)],
        end: Found::Broken {
            fault: Fault::LengthRefused,
            offset: 26,
            stripe: 2,
        },
    },
    // A second move is allowed only in the next stripe.
    Case {
        stream: "00000100 00000008 00000003 00000001 03 0000 00 FF06 00000000 0300 F0 FF02 FF06 00000000 0000 FF07 00000005 68",
        body: &[(Move, 20, 8, 0), (DataEntity, 28, 3, 0), (Move, 31, 8, 1)],
        end: Found::Broken {
            fault: Fault::Truncated,
            offset: 39,
            stripe: 1,
        },
    },
];

#[test]
fn broken_streams(rt: HostRuntime) -> Result<(), Fail> {
    all_tell(&rt, rt.alloc(), &BROKEN)
}
