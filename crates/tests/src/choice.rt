//! JBIG-KIT's choice of the adaptive pixel's offset, on rows whose counts are worked out by hand.

use raster_core::{Choice, Shape};

/// A stripe of rows that repeat one byte, the choice, and what it returns.
struct Case {
    /// The width, whether there are two lines, and whether typical prediction is on.
    shape: (u32, bool, bool),
    most: u8,
    /// The byte of each row, and that of the row above.
    rows: &'static [(u8, u8)],
    current: u8,
    offset: u8,
}

/// The bytes 0x88, 0x22 and 0x44 have a black pixel in each four: in the columns 0, 2 and 1. Beside 0x88, all pixels
/// equal the one 4 to the left, and half of them the one 3 to the left. Three quarters equal a white row above.
static CASES: [Case; 16] = [
    // The columns 4 to 2051 have 2,048 pixels, which are not enough.
    Case {
        shape: (2054, false, true),
        most: 4,
        rows: &[(0x88, 0)],
        current: 0,
        offset: 0,
    },
    // The columns 4 to 2052 have one more.
    Case {
        shape: (2055, false, true),
        most: 4,
        rows: &[(0x88, 0)],
        current: 0,
        offset: 4,
    },
    // The first column is the fifth, if the greatest lag is 5.
    Case {
        shape: (2055, false, true),
        most: 5,
        rows: &[(0x88, 0)],
        current: 0,
        offset: 0,
    },
    // A typical row is not counted.
    Case {
        shape: (2054, false, true),
        most: 4,
        rows: &[(0x88, 0), (0x88, 0x88)],
        current: 0,
        offset: 0,
    },
    // Without typical prediction it is.
    Case {
        shape: (2054, false, false),
        most: 4,
        rows: &[(0x88, 0), (0x88, 0x88)],
        current: 0,
        offset: 4,
    },
    // The lags 4 and 8 have the same count.
    Case {
        shape: (2059, false, true),
        most: 8,
        rows: &[(0x88, 0)],
        current: 0,
        offset: 4,
    },
    // With two lines, 4 is no lag.
    Case {
        shape: (2059, true, true),
        most: 8,
        rows: &[(0x88, 0)],
        current: 0,
        offset: 8,
    },
    // The pixel is there already.
    Case {
        shape: (2055, false, true),
        most: 4,
        rows: &[(0x88, 0)],
        current: 4,
        offset: 4,
    },
    // It moves from a worse lag.
    Case {
        shape: (2055, false, true),
        most: 4,
        rows: &[(0x88, 0)],
        current: 3,
        offset: 4,
    },
    // Below 0x22, all pixels equal the one above at x + 2, too: the nominal position comes first.
    Case {
        shape: (2055, false, true),
        most: 4,
        rows: &[(0x88, 0x22)],
        current: 3,
        offset: 0,
    },
    // All pixels equal the current one.
    Case {
        shape: (2055, false, true),
        most: 4,
        rows: &[(0x88, 0x22)],
        current: 0,
        offset: 0,
    },
    // White rows: each lag has all pixels, so none is better.
    Case {
        shape: (2055, false, false),
        most: 4,
        rows: &[(0, 0), (0, 0)],
        current: 3,
        offset: 3,
    },
    // No row is counted after the first, and none before.
    Case {
        shape: (2055, false, true),
        most: 4,
        rows: &[(0x88, 0), (0, 0x88)],
        current: 0,
        offset: 4,
    },
    Case {
        shape: (2055, false, true),
        most: 4,
        rows: &[(0xff, 0), (0x88, 0xff)],
        current: 0,
        offset: 0,
    },
    // There is no lag.
    Case {
        shape: (2055, false, true),
        most: 2,
        rows: &[(0x88, 0)],
        current: 0,
        offset: 0,
    },
    // An image of 6 pixels has no column between the fifth and the third last.
    Case {
        shape: (6, false, false),
        most: 4,
        rows: &[(0x88, 0)],
        current: 0,
        offset: 0,
    },
];

/// The offset that is chosen after the rows of a case.
fn offset_of(case: &Case, choice: &mut Choice) -> u8 {
    for &(row, above) in case.rows {
        choice.count_row(&[row; 258], &[above; 258]);
    }
    choice.offset(case.current)
}

/// A choice with the shape of a case.
fn choice_for(case: &Case, reset: bool) -> Choice {
    let (width, two_line, typical) = case.shape;
    let shape = Shape {
        width,
        two_line,
        typical,
    };
    Choice::new(shape, case.most, reset)
}

#[test]
fn choices_by_hand(rt: HostRuntime) {
    for case in &CASES {
        let mut choice = choice_for(case, false);
        let found = offset_of(case, &mut choice);
        assert!(rt; found == case.offset, "{:?}", case.rows);
        // After a restart nothing is counted: the pixel stays.
        choice.restart();
        assert!(rt; choice.offset(case.current) == case.current);
        assert!(rt; offset_of(case, &mut choice) == case.offset);
    }
}

/// After a reset the pixel is in its nominal position, unless it moves.
#[test]
fn choices_after_a_reset(rt: HostRuntime) {
    let mut choice = choice_for(&CASES[8], true);
    assert!(rt; choice.offset(3) == 0);
    assert!(rt; offset_of(&CASES[8], &mut choice) == 4);
}

#[test]
fn offered_offsets(rt: HostRuntime) {
    let three = choice_for(&CASES[5], false);
    let two = choice_for(&CASES[6], false);
    assert!(rt; three.width() == 2059);
    let offered = [0, 1, 2, 3, 4, 5, 8, 9].map(|offset| (three.offers(offset), two.offers(offset)));
    let (no, yes) = (false, true);
    assert!(rt;
        offered
            == [
                (yes, yes),
                (no, no),
                (no, no),
                (yes, no),
                (yes, no),
                (yes, yes),
                (yes, yes),
                (no, no),
            ]
    );
}
