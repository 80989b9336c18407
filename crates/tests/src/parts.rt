//! The parts of streams, worked out by hand.

mod broken;
mod whole;

use crate::trial::Bytes::Hex;
use std::alloc::Global;
use std::process::Abort;
use std::test::Fail;
use t85_core::{Fault, Found, Part, PartKind, PartWalk};

/// The bytes after the header, and the end of the list of parts.
struct Case {
    stream: &'static str,
    /// For each part its kind, its offset, its length, and the number of stripe data entities before it.
    body: &'static [(PartKind, usize, usize, u32)],
    end: Found,
}

/// Whether a walk returns the header, these parts, and then this end at each further call.
fn tells(stream: &[u8], body: &[(PartKind, usize, usize, u32)], end: Found) -> bool {
    let header = Found::Part(Part {
        kind: PartKind::Header,
        offset: 0,
        len: 20,
        stripe: 0,
    });
    let mut walk = PartWalk::start();
    if walk.next(stream) != header {
        return false;
    }
    for (kind, offset, len, stripe) in body {
        let part = Part {
            kind: *kind,
            offset: *offset,
            len: *len,
            stripe: *stripe,
        };
        if walk.next(stream) != Found::Part(part) {
            return false;
        }
    }
    walk.next(stream) == end && walk.next(stream) == end
}

fn all_tell(rt: &impl Abort, alloc: Global, cases: &[Case]) -> Result<(), Fail> {
    for case in cases {
        let stream = Hex(case.stream).to_vec(alloc)?;
        assert!(rt;
            tells(stream.as_slice(), case.body, case.end),
            "{}",
            case.stream
        );
    }
    Ok(())
}

/// Whether the first `len` bytes of the stream are broken in the part in which they end. The first part is the header.
fn breaks_at(stream: &[u8], len: usize, parts: &[(usize, usize, u32)]) -> bool {
    let mut walk = PartWalk::start();
    let cut = &stream[..len.min(stream.len())];
    for (offset, part_len, stripe) in parts {
        let found = walk.next(cut);
        if len < offset.saturating_add(*part_len) {
            let fault = if *offset == 0 {
                Fault::ShortHeader
            } else {
                Fault::Truncated
            };
            let broken = Found::Broken {
                fault,
                offset: *offset,
                stripe: *stripe,
            };
            return found == broken;
        }
        if !matches!(found, Found::Part(_)) {
            return false;
        }
    }
    false
}

#[test]
fn each_cut_of_a_stream(rt: HostRuntime) -> Result<(), Fail> {
    let hex =
        "00000100 00000008 00000002 00000001 03 0000 00 FF07 00000002 6869 F0 FF02 FF06 00000000 0300 F8 FF02";
    let stream = Hex(hex).to_vec(rt.alloc())?;
    let parts = [(0, 20, 0), (20, 8, 0), (28, 3, 0), (31, 8, 1), (39, 3, 1)];
    for len in 0..42 {
        assert!(rt; breaks_at(stream.as_slice(), len, &parts), "{len} bytes");
    }
    Ok(())
}

/// The length of the stream with which these bytes begin, if it is whole.
fn len_of(bytes: &[u8]) -> Option<usize> {
    let mut walk = PartWalk::start();
    for _ in 0..bytes.len() {
        match walk.next(bytes) {
            Found::Part(_) => {}
            Found::End { len } => return Some(len),
            Found::Broken { .. } => return None,
        }
    }
    None
}

#[test]
fn streams_one_after_another(rt: HostRuntime) -> Result<(), Fail> {
    let hex =
        "00000100 00000001 00000001 00000080 00 0000 00 C0 FF02 00000100 00000008 00000001 00000080 00 0000 08 FF02";
    let bytes = Hex(hex).to_vec(rt.alloc())?;
    let second = bytes.get(23..).unwrap_or(&[]);
    let end = bytes.get(45..).unwrap_or(&[]);
    assert!(rt; len_of(bytes.as_slice()) == Some(23));
    assert!(rt; len_of(second) == Some(22));
    assert!(rt; end.is_empty());
    Ok(())
}

#[test]
fn numbers_that_no_walk_leaves(rt: HostRuntime) -> Result<(), Fail> {
    let hex = "00000100 00000001 00000009 00000001 00 0000 20 C0 FF02 FF05 00000002 C0 FF02";
    let stream = Hex(hex).to_vec(rt.alloc())?;
    let start = PartWalk::start();
    let behind = PartWalk {
        offset: usize::MAX,
        ..start
    };
    let broken = Found::Broken {
        fault: Fault::Truncated,
        offset: usize::MAX,
        stripe: 0,
    };
    let many = PartWalk {
        offset: 21,
        entities: u32::MAX,
        late_height: u32::MAX,
        moved: true,
        at_height: true,
    };
    let known = PartWalk {
        late_height: 0,
        ..many
    };
    for (walk, found) in [
        (behind, broken),
        (many, Found::End { len: 23 }),
        (known, Found::End { len: 21 }),
    ] {
        let mut walk = walk;
        assert!(rt; walk.next(stream.as_slice()) == found, "{found:?}");
    }
    Ok(())
}
