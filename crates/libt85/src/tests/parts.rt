//! `t85_next_part` returns the parts of a stream one by one.

use crate::tests::{LATE, TWICE};
use crate::{T85Part, t85_next_part};

/// The result for the part of a stream after `others` other parts: the status, and the part's kind, offset, length and
/// stripe.
fn part(stream: &[u8], others: u32, version: u32) -> (u8, u32, usize, usize, u32) {
    let mut told = T85Part {
        version,
        kind: 9,
        offset: 0,
        len: 0,
        stripe: 0,
        entities: 0,
        late_height: 0,
        has_move: 0,
        is_at_height: 0,
        reserved: 0,
        passed: 0,
    };
    let mut status = t85_next_part(stream, &mut told);
    for _ in 0..others {
        status = t85_next_part(stream, &mut told);
    }
    (status, told.kind, told.offset, told.len, told.stripe)
}

#[test]
fn parts_of_a_stream_are_told(rt: HostRuntime) {
    assert!(rt; part(LATE, 0, 1) == (0, 0, 0, 20, 0));
    assert!(rt; part(LATE, 1, 1) == (0, 4, 20, 3, 0));
    assert!(rt; part(LATE, 2, 1) == (0, 3, 23, 6, 1));
    assert!(rt; part(LATE, 3, 1) == (0, 4, 29, 3, 1));
    assert!(rt; part(LATE, 4, 1) == (52, 4, 32, 0, 2));
    assert!(rt; part(LATE, 5, 1) == (52, 4, 32, 0, 2));
    assert!(rt; part(TWICE, 3, 1) == (15, 4, 29, 0, 1));
    assert!(rt; part(LATE, 1, 2) == (50, 9, 0, 0, 0));
}
