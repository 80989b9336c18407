//! Equal rows that are coded at once have the code that they have one by one, and so has a code after a restart.

use crate::rows::{Course, Taken, over_8, shape, stripe};
use qm_core::{CoderFault, Encoder};
use raster_core::{Window, encode_again};
use std::alloc::Global;
use std::process::Abort;

/// The code of a row of 8 pixels, twice, and then `count` times more at once.
fn at_once(rt: &impl Abort, alloc: Global, two_line: bool, row: u8, count: u32) -> Vec<u8> {
    let mut bytes = [0; 3];
    let mut window = over_8(&mut bytes);
    let mut course = Course::new(shape(8, two_line, true), 0);
    let mut out = Taken {
        bytes: Vec::new(alloc),
    };
    let mut encoder = Encoder::start();
    for _row in 0..2u8 {
        let done = course.encode(rt, &mut window, &[row], &mut encoder, &mut out);
        assert!(rt; done == Ok(()));
    }
    assert!(rt; encoder.events() < 0x1000_0000_0000);
    let Course {
        shape,
        kept,
        learned,
    } = &mut course;
    let done = encode_again(*shape, *kept, count, learned, &mut encoder, &mut out);
    assert!(rt; done == Ok(()));
    assert!(rt; encoder.finish(&mut out) == Ok(()));
    out.bytes
}

/// The code of a row of 8 pixels, twelve times, one after another.
fn one_by_one(rt: &impl Abort, alloc: Global, two_line: bool, row: u8) -> Vec<u8> {
    let mut bytes = [0; 3];
    let mut window = over_8(&mut bytes);
    let mut course = Course::new(shape(8, two_line, true), 0);
    let row = [row];
    let rows: [&[u8]; 12] = [&row; 12];
    stripe(rt, alloc, &mut course, &mut window, &rows)
}

#[test]
fn equal_rows_at_once(rt: HostRuntime) {
    for &(two_line, row) in &[(false, 0x5a), (true, 0x5a), (false, 0xff), (true, 0xff)] {
        let found = at_once(&rt, rt.alloc(), two_line, row, 10);
        let expected = one_by_one(&rt, rt.alloc(), two_line, row);
        assert!(rt; found.as_slice() == expected.as_slice(), "{row}");
        let none = at_once(&rt, rt.alloc(), two_line, row, 0);
        assert!(rt; none.as_slice() != expected.as_slice(), "{row}");
    }
}

/// Two stripes of a row each, after which one encoder begins again.
#[test]
fn encoder_begins_again(rt: HostRuntime) {
    let mut bytes = [0; 3];
    let mut window = over_8(&mut bytes);
    let mut course = Course::new(shape(8, false, true), 0);
    let mut out = Taken {
        bytes: Vec::new(rt.alloc()),
    };
    let mut encoder = Encoder::start();
    for row in [0x5a, 0xc3] {
        let done = course.encode(&rt, &mut window, &[row], &mut encoder, &mut out);
        assert!(rt; done == Ok(()));
        assert!(rt; encoder.restart(&mut out) == Ok(()));
    }
    window.clear();
    let mut course = Course::new(shape(8, false, true), 0);
    let first = stripe(&rt, rt.alloc(), &mut course, &mut window, &[&[0x5a]]);
    let second = stripe(&rt, rt.alloc(), &mut course, &mut window, &[&[0xc3]]);
    let (front, back) = out
        .bytes
        .as_slice()
        .split_at(first.len().min(out.bytes.len()));
    assert!(rt; front == first.as_slice() && back == second.as_slice());
}
