//! A walk returns each part of a whole stream, and then the length of the stream.

use crate::parts::{Case, all_tell};
use std::test::Fail;
use t85_core::Found;
use t85_core::PartKind::{Comment, DataEntity, Move, NewHeight};

static WHOLE: [Case; 17] = [
    Case {
        stream: "00000100 00000001 00000002 00000001 00 0000 08 E0 FF02 E0 FF03",
        body: &[(DataEntity, 20, 3, 0), (DataEntity, 23, 3, 1)],
        end: Found::End { len: 26 },
    },
    Case {
        stream: "00000100 00000008 00000002 00000001 03 0000 00 F0 FF02 FF06 00000000 0300 F8 FF02",
        body: &[
            (DataEntity, 20, 3, 0),
            (Move, 23, 8, 1),
            (DataEntity, 31, 3, 1),
        ],
        end: Found::End { len: 34 },
    },
    // An empty code, a code byte FF, and a code of several bytes.
    Case {
        stream: "00000100 00000008 00000001 00000080 00 0000 08 FF07 00000002 6869 FF02",
        body: &[(Comment, 20, 8, 0), (DataEntity, 28, 2, 0)],
        end: Found::End { len: 30 },
    },
    Case {
        stream: "00000100 00000003 00000003 00000080 00 0000 00 FF00 C0 FF02",
        body: &[(DataEntity, 20, 5, 0)],
        end: Found::End { len: 25 },
    },
    Case {
        stream: "00000100 00000008 00000001 00000080 00 0000 00 F0 00FF00 00 FF02 FF07 F0",
        body: &[(DataEntity, 20, 7, 0)],
        end: Found::End { len: 27 },
    },
    // A height between two stripes, and before the first.
    Case {
        stream: "00000100 00000001 00000009 00000001 00 0000 20 C0 FF02 FF05 00000002 C0 FF02",
        body: &[
            (DataEntity, 20, 3, 0),
            (NewHeight, 23, 6, 1),
            (DataEntity, 29, 3, 1),
        ],
        end: Found::End { len: 32 },
    },
    Case {
        stream: "00000100 00000001 00000002 00000001 00 0000 20 FF05 00000001 C0 FF02 C0 FF02",
        body: &[(NewHeight, 20, 6, 0), (DataEntity, 26, 3, 0)],
        end: Found::End { len: 29 },
    },
    // A height behind the last stripe that it leaves, after a comment, and an empty stripe data entity.
    Case {
        stream: "00000100 00000001 00000009 00000001 00 0000 20 C0 FF02 C0 FF02 FF07 00000000 FF05 00000002 FF02",
        body: &[
            (DataEntity, 20, 3, 0),
            (DataEntity, 23, 3, 1),
            (Comment, 26, 6, 2),
            (NewHeight, 32, 6, 2),
        ],
        end: Found::End { len: 40 },
    },
    // The same with the other end marker, without a marker, and with a marker behind something else.
    Case {
        stream: "00000100 00000001 00000009 00000001 00 0000 20 C0 FF02 FF05 00000001 FF03 FF02",
        body: &[(DataEntity, 20, 3, 0), (NewHeight, 23, 6, 1)],
        end: Found::End { len: 31 },
    },
    Case {
        stream: "00000100 00000001 00000009 00000001 00 0000 20 C0 FF02 FF05 00000001 FF",
        body: &[(DataEntity, 20, 3, 0), (NewHeight, 23, 6, 1)],
        end: Found::End { len: 29 },
    },
    Case {
        stream: "00000100 00000001 00000009 00000001 00 0000 20 C0 FF02 FF05 00000001 C0 FF02",
        body: &[(DataEntity, 20, 3, 0), (NewHeight, 23, 6, 1)],
        end: Found::End { len: 29 },
    },
    // An end marker behind the last stripe, if the height preceded that.
    Case {
        stream: "00000100 00000001 00000009 00000001 00 0000 20 FF05 00000001 C0 FF02 FF02",
        body: &[(NewHeight, 20, 6, 0), (DataEntity, 26, 3, 0)],
        end: Found::End { len: 29 },
    },
    // A height behind the last stripe of the header's height, after two comments.
    Case {
        stream: "00000100 00000001 00000005 00000080 00 0000 20 C0 FF02 FF07 00000001 41 FF07 00000000 FF05 00000001",
        body: &[
            (DataEntity, 20, 3, 0),
            (Comment, 23, 7, 1),
            (Comment, 30, 6, 1),
            (NewHeight, 36, 6, 1),
        ],
        end: Found::End { len: 42 },
    },
    // One that is the header's.
    Case {
        stream: "00000100 00000001 00000001 00000080 00 0000 20 C0 FF02 FF05 00000001",
        body: &[(DataEntity, 20, 3, 0), (NewHeight, 23, 6, 1)],
        end: Found::End { len: 29 },
    },
    // No height there: a code, one above the header's, and a truncated one.
    Case {
        stream: "00000100 00000001 00000005 00000080 00 0000 20 C0 FF02 FF07 00000001 41 C0 FF02",
        body: &[(DataEntity, 20, 3, 0)],
        end: Found::End { len: 23 },
    },
    Case {
        stream: "00000100 00000001 00000005 00000080 00 0000 20 C0 FF02 FF05 00000009 FF02",
        body: &[(DataEntity, 20, 3, 0)],
        end: Found::End { len: 23 },
    },
    Case {
        stream: "00000100 00000001 00000005 00000080 00 0000 20 C0 FF02 FF07 00000000 FF05 000000",
        body: &[(DataEntity, 20, 3, 0)],
        end: Found::End { len: 23 },
    },
];

#[test]
fn whole_streams(rt: HostRuntime) -> Result<(), Fail> {
    all_tell(&rt, rt.alloc(), &WHOLE)
}
