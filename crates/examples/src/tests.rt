//! Each caller once, if everything succeeds.

use crate::coder::pixels_again;
use crate::cut::rows_of_cut;
use crate::image::round_trip;
use crate::line::line_of_encoded;
use crate::pieces::rows_of_body;
use crate::room::{Room, put_where_room};
use crate::rows::row_below;
use pbm_core::Size;
use pbm_core::trial::{Drip, Pieces};
use qm_core::{Context, Learned};
use raster_core::Window;
use std::alloc::{AllocError, Global};
use t85_core::{Fault, Header, Learning, Options, Outcome, RowEncoder, RowNumbers};

/// Three by two pixels in the plain form.
const IMAGE: &[u8] = b"P1 3 2 101 010";

/// The decoded image, and its number of bytes.
fn back(alloc: Global, held: &mut [u8]) -> Result<usize, Fault> {
    let options = Options::new(8, 1, 0, None, false, None)?;
    let mut room = [0; 64];
    let mut input = Pieces::new(IMAGE, 4096, None);
    let mut output = Drip::new(held, 4096, None, false);
    round_trip(alloc, &mut input, &options, &mut room, &mut output)?;
    Ok(output.len)
}

#[test]
fn image_comes_back(rt: HostRuntime) {
    let mut held = [0; 9];
    assert!(rt; back(rt.alloc(), &mut held) == Ok(9));
    assert!(rt; held == *b"P4\n3 2\n\xa0\x40");
}

/// The line about its stream, and the line's number of bytes.
fn line(alloc: Global, held: &mut [u8]) -> Result<usize, Fault> {
    let options = Options::new(8, 1, 0, Some(5), false, Some(b"abc"))?;
    let mut room = [0; 64];
    let mut input = Pieces::new(IMAGE, 4096, None);
    let mut output = Drip::new(held, 4096, None, false);
    line_of_encoded(alloc, &mut input, &options, &mut room, &mut output)?;
    Ok(output.len)
}

#[test]
fn line_is_written(rt: HostRuntime) {
    let mut held = [0; 19];
    assert!(rt; line(rt.alloc(), &mut held) == Ok(19));
    assert!(rt; held == *b"3 5 1 0 40 2 2 0 1\n");
}

/// A black pixel's stream, up to its code.
const CUT: &[u8] =
    b"\x00\x00\x01\x00\x00\x00\x00\x01\x00\x00\x00\x01\x00\x00\x00\x01\x00\x00\x00\x00";

/// The error for it, and the number of bytes written.
fn cut(alloc: Global, held: &mut [u8]) -> (Result<(), Fault>, usize) {
    let mut input = Pieces::new(CUT, 4096, None);
    let mut output = Drip::new(held, 4096, None, false);
    let told = rows_of_cut(alloc, &mut input, &mut output);
    (told, output.len)
}

#[test]
fn rows_of_a_cut_stream(rt: HostRuntime) {
    let mut held = [0; 7];
    assert!(rt; cut(rt.alloc(), &mut held) == (Err(Fault::Truncated), 7));
    assert!(rt; held == *b"P4\n1 1\n");
}

/// The result for a stream of two stripes of a black pixel each, and its rows. Its second piece begins in an end
/// marker.
fn two_pieces(alloc: Global) -> Result<(Outcome, Vec<u8>), AllocError> {
    let header = Header {
        xd: 1,
        yd: 2,
        l0: 1,
        mx: 0,
        options: 8,
    };
    let mut room = [0; 3];
    let mut window = Window::over(&mut room, 1);
    let mut rows = Vec::new(alloc);
    let told = rows_of_body(
        alloc,
        header,
        b"\xe0\xff\x02\xe0\xff",
        b"\x02",
        &mut window,
        &mut rows,
    )?;
    Ok((told, rows))
}

#[test]
fn rows_of_two_pieces(rt: HostRuntime) {
    let two = two_pieces(rt.alloc());
    assert!(rt;
        two.is_ok_and(|two| two.0 == Outcome::Done(2) && two.1.as_slice() == b"\x80\x80".as_slice())
    );
}

/// Whether a row of eight pixels is encoded into a buffer of 8,192 bytes.
fn put_narrow() -> Result<bool, Fault> {
    let size = Size {
        width: 8,
        height: 1,
    };
    let options = Options::new(8, 1, 0, None, false, None)?;
    let mut lent = [0; 3];
    let mut window = Window::over(&mut lent, 8);
    let mut room = Room::new();
    let mut learning = Learning::new();
    let mut encoder = RowEncoder::start(size, &options, &mut window, &mut learning, &mut room)?;
    Ok(put_where_room(&mut encoder, b"\x5a", &mut window, &mut learning, &mut room))
}

/// Whether a row is that may have a few more bytes than four times 2,041, behind a header.
fn put_wide() -> Result<bool, Fault> {
    let size = Size {
        width: 2040,
        height: 1,
    };
    let options = Options::new(8, 1, 0, None, false, None)?;
    let mut lent = [0; 765];
    let mut window = Window::over(&mut lent, 2040);
    let mut room = Room::new();
    let mut learning = Learning::new();
    let mut encoder = RowEncoder::start(size, &options, &mut window, &mut learning, &mut room)?;
    Ok(put_where_room(
        &mut encoder,
        &[0; 255],
        &mut window,
        &mut learning,
        &mut room,
    ))
}

#[test]
fn rows_are_put_where_they_have_room(rt: HostRuntime) {
    assert!(rt; put_narrow() == Ok(true));
    assert!(rt; put_wide() == Ok(false));
}

/// Eight pixels in each of three rows.
const NARROW: Size = Size {
    width: 8,
    height: 3,
};

/// A stored encoder after one of these rows, in stripes of two.
fn numbers_of_a_row() -> Result<RowNumbers, Fault> {
    let options = Options::new(8, 2, 0, None, false, None)?;
    let mut lent = [0; 3];
    let mut window = Window::over(&mut lent, 8);
    let mut room = Room::new();
    let mut learning = Learning::new();
    let mut encoder = RowEncoder::start(NARROW, &options, &mut window, &mut learning, &mut room)?;
    encoder.put_row(b"\x5a", &mut window, &mut learning, &mut room)?;
    Ok(encoder.numbers())
}

/// The numbers of the encoder that is rebuilt from such numbers, if there is one.
fn numbers_again(numbers: &RowNumbers) -> Option<RowNumbers> {
    let options = Options::new(8, 2, 0, None, false, None).ok()?;
    let encoder = RowEncoder::resume(NARROW, &options, numbers)?;
    Some(encoder.numbers())
}

#[test]
fn encoders_are_numbers(rt: HostRuntime) -> Result<(), Fault> {
    let numbers = numbers_of_a_row()?;
    assert!(rt; numbers.rows == 1 && numbers.in_stripe == 1 && numbers.offset == 0);
    assert!(rt; numbers_again(&numbers) == Some(numbers));
    let mut other = numbers;
    other.rows = 4;
    assert!(rt; numbers_again(&other) == None);
    other.rows = 2;
    other.in_stripe = 2;
    assert!(rt; numbers_again(&other) == None);
    other.in_stripe = 1;
    assert!(rt; numbers_again(&other) == Some(other));
    other.encoder.events = 10;
    assert!(rt; numbers_again(&other) == None);
    other = numbers;
    other.encoder.has_failed = true;
    assert!(rt; numbers_again(&other) == None);
    Ok(())
}

#[test]
fn pixels_come_back(rt: HostRuntime) {
    let contexts = [Context::of(3), Context::of(3), Context::of(1000)];
    let pixels = [true, false, true];
    let mut learned = Learned::new();
    let mut copy = Learned::new();
    let again = pixels_again(rt.alloc(), &contexts, &pixels, &mut learned, &mut copy);
    assert!(rt; again.is_ok_and(|again| again.as_slice() == pixels.as_slice()));
}

#[test]
fn rows_stay_in_memory(rt: HostRuntime) {
    // The second of three rows is the current one: the third is above it, and the first above that.
    let mut memory = [3, 0, 2];
    let place = row_below(&mut memory, 8, 1, &[5]);
    assert!(rt; place == 0);
    assert!(rt; memory == [5, 0, 2]);
    let place = row_below(&mut memory, 8, place, &[6]);
    assert!(rt; place == 2);
    assert!(rt; memory == [5, 0, 6]);
}
