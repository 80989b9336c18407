//! The coding of a row stops when its source or its sink fails.

use crate::coder::Room;
use crate::rows::{Course, Given, is_row, over_8, shape};
use qm_core::{CodeBytes, CodeSink, CoderFault, Decoder, Encoder, Stop};
use raster_core::{Kept, Window};
use std::process::Abort;

const START: Kept = Kept {
    offset: 0,
    previous_typical: false,
};

/// The result of decoding the current row, whether row k is black, and how often the source failed.
fn decoded(
    rt: &impl Abort,
    course: &mut Course,
    window: &mut Window,
    decoder: &mut Decoder,
    source: &mut Given,
    k: u8,
) -> (Result<(), Stop>, bool, u64) {
    let answer = course.decode(rt, window, decoder, source);
    (answer, is_row(window, k, &[0xff]), source.failures())
}

/// Three bytes determine the first row, and the sixth pixel of the second needs a fourth.
#[test]
fn stops_in_the_second_row(rt: HostRuntime) {
    let mut bytes = [0; 3];
    let mut window = over_8(&mut bytes);
    let mut source = Given::new(&[0xf0, 0x00, 0x00], false);
    let mut decoder = Decoder::start();
    let mut course = Course::new(shape(8, false, false), 0);
    let first = decoded(&rt, &mut course, &mut window, &mut decoder, &mut source, 0);
    assert!(rt; first == (Ok(()), true, 0));
    window.turn();
    let second = decoded(&rt, &mut course, &mut window, &mut decoder, &mut source, 1);
    assert!(rt; second == (Err(Stop), true, 1));
    let third = decoded(&rt, &mut course, &mut window, &mut decoder, &mut source, 1);
    assert!(rt; third == (Err(Stop), true, 1));
}

/// Encodes row n, whatever state was carried from those before it.
fn code_anew(
    rt: &impl Abort,
    course: &mut Course,
    window: &mut Window,
    n: u8,
    encoder: &mut Encoder,
    out: &mut Room,
) -> Result<(), CoderFault> {
    course.kept = START;
    course.encode(rt, window, &[n.wrapping_mul(37)], encoder, out)
}

/// A sink that accepts nothing is called once: then the encoder has failed.
#[test]
fn fails_once(rt: HostRuntime) {
    let mut bytes = [0; 3];
    let mut window = over_8(&mut bytes);
    let mut out = Room::new(0);
    let mut encoder = Encoder::start();
    let mut course = Course::new(shape(8, false, false), 0);
    let mut last = Ok(());
    for n in 0..200u8 {
        let done = code_anew(&rt, &mut course, &mut window, n, &mut encoder, &mut out);
        let has_failed = done == Err(CoderFault::Failed);
        assert!(rt; has_failed == last.is_err(), "row {n}");
        last = done;
    }
    assert!(rt; last.is_err() && out.failures() == 1);
}
