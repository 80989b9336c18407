//! Tests of JBIG-KIT's choice of offsets.

use crate::tests::PLAIN;
use crate::{T85Choice, T85Options, t85_choice_offset, t85_choice_row, t85_choice_start};
use raster_core::{Choice, Shape};

/// Typical prediction, with lags up to 4.
const TO_FOUR: T85Options = T85Options {
    options: 8,
    most_offset: 4,
    ..PLAIN
};

/// A choice that was not started.
fn unstarted() -> T85Choice {
    let shape = Shape {
        width: 8,
        two_line: false,
        typical: false,
    };
    T85Choice {
        version: 0,
        choice: Choice::new(shape, 4, false),
    }
}

/// The status of a start, and that of a row of one byte after it.
fn started(size: usize, width: u32, options: &T85Options) -> (u8, u8) {
    let mut choice = unstarted();
    let status = t85_choice_start(&mut choice, size, width, options);
    (status, t85_choice_row(&mut choice, b"\x88", b""))
}

#[test]
fn choices_are_started(rt: HostRuntime) {
    assert!(rt; started(528, 8, &TO_FOUR) == (0, 0));
    assert!(rt; started(527, 8, &TO_FOUR) == (50, 53));
    assert!(rt; started(529, 8, &TO_FOUR) == (50, 53));
    let other = T85Options {
        version: 2,
        options: 1,
        ..TO_FOUR
    };
    assert!(rt; started(528, 8, &other) == (50, 53));
    let bits = T85Options {
        options: 1,
        stripe_rows: 0,
        ..TO_FOUR
    };
    assert!(rt; started(528, 8, &bits) == (20, 53));
    let rows = T85Options {
        stripe_rows: 0,
        most_offset: 128,
        ..TO_FOUR
    };
    assert!(rt; started(528, 8, &rows) == (21, 53));
    let most = T85Options {
        most_offset: 128,
        ..TO_FOUR
    };
    assert!(rt; started(528, 0, &most) == (22, 53));
    assert!(rt; started(528, 0, &TO_FOUR) == (33, 53));
    assert!(rt; started(528, 1_048_576, &TO_FOUR) == (0, 55));
    assert!(rt; started(528, 1_048_577, &TO_FOUR) == (34, 53));
}

#[test]
fn rows_of_a_choice_may_be_short(rt: HostRuntime) {
    let mut choice = unstarted();
    assert!(rt; t85_choice_start(&mut choice, 528, 9, &TO_FOUR) == 0);
    assert!(rt; t85_choice_row(&mut choice, b"\x88", b"") == 55);
    assert!(rt; t85_choice_row(&mut choice, b"\x88\x88", b"\0") == 55);
    assert!(rt; t85_choice_row(&mut choice, b"\x88\x88", b"") == 0);
    assert!(rt; t85_choice_row(&mut choice, b"\x88\x88", b"\0\0") == 0);
}

/// The status and the offset after a stripe at this offset. The offset is 77 if none is reported.
fn next(choice: &mut T85Choice, current: u8) -> (u8, u8) {
    let mut offset = 77;
    let status = t85_choice_offset(choice, current, &mut offset);
    (status, offset)
}

/// The row has a black pixel in each four. 2,049 pixels are counted, which all equal the pixel 4 to their left.
#[test]
fn offsets_are_chosen_for_the_next_stripe(rt: HostRuntime) {
    let mut choice = unstarted();
    assert!(rt; next(&mut choice, 0) == (53, 77));
    assert!(rt; t85_choice_start(&mut choice, 528, 2055, &TO_FOUR) == 0);
    assert!(rt; t85_choice_row(&mut choice, &[0x88; 257], b"") == 0);
    assert!(rt; next(&mut choice, 2) == (22, 77));
    assert!(rt; next(&mut choice, 5) == (22, 77));
    assert!(rt; next(&mut choice, 0) == (0, 4));
    // The next stripe has no row that is counted: it equals the row above, whose padding does not matter.
    let mut above = [0x88; 257];
    above[256] = 0x89;
    assert!(rt; t85_choice_row(&mut choice, &[0x88; 257], &above) == 0);
    assert!(rt; next(&mut choice, 3) == (0, 3));
    // A pixel of the row is another one.
    above[256] = 0x8a;
    assert!(rt; t85_choice_row(&mut choice, &[0x88; 257], &above) == 0);
    assert!(rt; next(&mut choice, 3) == (0, 4));
}
