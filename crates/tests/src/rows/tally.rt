//! A tally chooses the offset of the adaptive pixel on rows whose counts were worked out by hand.

use crate::rows::{Course, over_8, shape, stripe, write_row};
use raster_core::{Tally, Window, window_bytes};
use std::alloc::Global;
use std::process::Abort;

/// The choice of a tally after only the current row, of 8 pixels.
fn chosen(rt: &impl Abort, tally: &mut Tally, window: &Window, offset: u8) -> Option<u8> {
    tally.restart();
    assert!(rt; window.width() == 8 && offset <= 127);
    tally.add_row(window, offset);
    tally.choose(offset)
}

/// Whether a black row of 8 below those of a window has this code, and the tally's choice after it.
fn moves(
    rt: &impl Abort,
    alloc: Global,
    course: &mut Course,
    window: &mut Window,
    tally: &mut Tally,
    expected: u8,
) -> (bool, Option<u8>) {
    let offset = course.kept.offset;
    let found = stripe(rt, alloc, course, window, &[&[0xff]]);
    (
        found.as_slice() == [expected].as_slice(),
        chosen(rt, tally, window, offset),
    )
}

/// Two stripes of a black row each: the tally of the first moves the adaptive pixel of the second
/// by 3.
#[test]
fn moves_between_stripes(rt: HostRuntime) {
    let mut bytes = [0; 3];
    let mut window = over_8(&mut bytes);
    let mut course = Course::new(shape(8, false, false), 0);
    let mut tally = Tally::new(false, 3);
    assert!(rt; tally.choose(0) == None);
    // Five pixels of each row have a black pixel 3 to the left.
    let first = moves(&rt, rt.alloc(), &mut course, &mut window, &mut tally, 0xf0);
    assert!(rt; first == (true, Some(3)));
    course.kept.offset = 3;
    let second = moves(&rt, rt.alloc(), &mut course, &mut window, &mut tally, 0xf8);
    assert!(rt; second == (true, None));
}

/// The choice of a tally after one row of 8 below another.
fn choice(rt: &impl Abort, two_line: bool, most: u8, above: u8, row: u8, offset: u8) -> Option<u8> {
    let mut bytes = [0; 3];
    let mut window = over_8(&mut bytes);
    write_row(rt, &mut window, &[above]);
    window.turn();
    write_row(rt, &mut window, &[row]);
    assert!(rt; most <= 127 && offset <= 127 && window.width() == 8);
    let mut tally = Tally::new(two_line, most);
    tally.add_row(&window, offset);
    tally.choose(offset)
}

/// Whether there are two lines, the greatest lag, the row above, the row, the offset, and the choice.
static CHOICES: [(bool, u8, u8, u8, u8, Option<u8>); 9] = [
    // Five pixels agree at lag 3 and none at the nominal position.
    (false, 127, 0x00, 0xff, 0, Some(3)),
    // Below a black row six agree at the nominal position.
    (false, 127, 0xff, 0xff, 0, None),
    // At lag 5, the least with two lines, three agree.
    (true, 127, 0x00, 0xff, 0, Some(5)),
    // No lag is within reach.
    (false, 2, 0x00, 0xff, 0, None),
    (true, 4, 0x00, 0xff, 0, None),
    // Seven agree at the nominal position, and no more at any lag.
    (false, 127, 0x00, 0x80, 0, None),
    // Six agree at lag 4, and three at lag 3.
    (false, 4, 0x33, 0xcc, 3, Some(4)),
    // Six agree at lag 3. A gain of one is an eighth of the pixels, and no more than that; a gain of
    // two is more.
    (false, 3, 0x0c, 0x80, 0, None),
    (false, 3, 0x1c, 0x80, 0, Some(3)),
];

/// The choices of tallies that counted a row three times below itself: at once, and one by one.
fn choices(rt: &impl Abort, row: &[u8], width: u32) -> (Option<u8>, Option<u8>) {
    let mut bytes = [0; 27];
    let long = window_bytes(width);
    assert!(rt; long <= 27);
    let mut window = Window::over(&mut bytes[..long], width);
    write_row(rt, &mut window, row);
    window.repeat();
    let mut at_once = Tally::new(false, 127);
    let mut one_by_one = Tally::new(false, 127);
    assert!(rt; window.width() == width);
    at_once.add_rows(&window, 0, 3);
    at_once.add_rows(&window, 0, 0);
    for _row in 0..3u8 {
        one_by_one.add_row(&window, 0);
    }
    (at_once.choose(0), one_by_one.choose(0))
}

/// Six of the pixels 10011001 agree at lag 4, and one at the nominal position; of nine times these pixels, 70 and one.
#[test]
fn equal_rows_at_once(rt: HostRuntime) {
    assert!(rt; choices(&rt, &[0x99], 8) == (Some(4), Some(4)));
    assert!(rt; choices(&rt, &[0x99; 9], 72) == (Some(4), Some(4)));
}

#[test]
fn offsets_by_hand(rt: HostRuntime) {
    for &(two_line, most, above, row, offset, expected) in &CHOICES {
        let found = choice(&rt, two_line, most, above, row, offset);
        assert!(rt; found == expected, "at {row}, {most}");
    }
}
