//! Random rows and black rows have the codes of a model that uses coordinates.

use crate::rows::{Taken, is_code, put, shape};
use qm_core::{Encoder, Learned};
use raster_core::Shape;
use std::alloc::{AllocError, Global};
use std::process::Abort;
use std::test::Fail;

/// The pixel of a row this far to the right of x, or this far to the left; white outside of the row.
pub fn pixel(row: &[u8], width: u32, x: u32, right: u32, left: u32) -> bool {
    let at = x.wrapping_add(right).wrapping_sub(left);
    match row.get((at / 8) as usize) {
        Some(byte) => at < width && *byte & (0x80 >> (at % 8)) != 0,
        None => false,
    }
}

/// The context of x by the coordinates of its ten pixels.
pub fn context_by_coordinates(shape: Shape, offset: u8, rows: [&[u8]; 3], x: u32) -> u16 {
    let [row, above, second] = rows;
    let width = shape.width;
    let adaptive = if offset == 0 {
        pixel(above, width, x, 2, 0)
    } else {
        pixel(row, width, x, 0, u32::from(offset))
    };
    let pixels = if shape.two_line {
        [
            pixel(above, width, x, 0, 3),
            pixel(above, width, x, 0, 2),
            pixel(above, width, x, 0, 1),
            pixel(above, width, x, 0, 0),
            pixel(above, width, x, 1, 0),
            adaptive,
            pixel(row, width, x, 0, 4),
            pixel(row, width, x, 0, 3),
            pixel(row, width, x, 0, 2),
            pixel(row, width, x, 0, 1),
        ]
    } else {
        [
            pixel(second, width, x, 0, 1),
            pixel(second, width, x, 0, 0),
            pixel(second, width, x, 1, 0),
            pixel(above, width, x, 0, 2),
            pixel(above, width, x, 0, 1),
            pixel(above, width, x, 0, 0),
            pixel(above, width, x, 1, 0),
            adaptive,
            pixel(row, width, x, 0, 2),
            pixel(row, width, x, 0, 1),
        ]
    };
    let mut number = 0u16;
    for pixel in pixels {
        number = number % 512 * 2 + u16::from(pixel);
    }
    number % 1024
}

/// A row of random pixels, with white padding.
pub fn row_of(alloc: Global, width: u32, seed: u32) -> Result<Vec<u8>, AllocError> {
    let mut bytes = Vec::new(alloc);
    let mut state = seed;
    for i in 0..width.div_ceil(8) {
        state = state.wrapping_mul(1_664_525).wrapping_add(1_013_904_223);
        let byte = (state >> 24) as u8;
        let padding = if i == width / 8 {
            0xff >> (width % 8)
        } else {
            0
        };
        bytes.push(byte & !padding)?;
    }
    Ok(bytes)
}

/// Encodes a row below two others with the model.
fn put_row(
    rt: &impl Abort,
    shape: Shape,
    offset: u8,
    rows: [&[u8]; 3],
    encoder: &mut Encoder,
    learned: &mut Learned,
    out: &mut Taken,
) {
    for x in 0..shape.width {
        let context = context_by_coordinates(shape, offset, rows, x);
        let black = pixel(rows[0], shape.width, x, 0, 0);
        put(rt, encoder, learned, context, black, out);
    }
}

/// The code of three rows by the model.
pub fn code_of_model(
    rt: &impl Abort,
    alloc: Global,
    shape: Shape,
    offset: u8,
    rows: [&[u8]; 3],
) -> Vec<u8> {
    let mut out = Taken {
        bytes: Vec::new(alloc),
    };
    let mut encoder = Encoder::start();
    let mut learned = Learned::new();
    let [first, second, third] = rows;
    let white: &[u8] = &[];
    for rows in [
        [first, white, white],
        [second, first, white],
        [third, second, first],
    ] {
        put_row(
            rt,
            shape,
            offset,
            rows,
            &mut encoder,
            &mut learned,
            &mut out,
        );
    }
    assert!(rt; encoder.finish(&mut out) == Ok(()));
    out.bytes
}

/// Whether three rows have the model's code, and are decoded from it, with three lines and with two.
fn meets_model(
    rt: &impl Abort,
    alloc: Global,
    width: u32,
    offset: u8,
    rows: [&[u8]; 3],
) -> Result<bool, AllocError> {
    for &two_line in &[false, true] {
        let shape = shape(width, two_line, false);
        let expected = code_of_model(rt, alloc, shape, offset, rows);
        if !is_code(rt, alloc, shape, offset, expected.as_slice(), &rows)? {
            return Ok(false);
        }
    }
    Ok(true)
}

/// Random rows of this width agree with the model.
fn meet_model(rt: &impl Abort, alloc: Global, width: u32, offset: u8) -> Result<(), AllocError> {
    let first = row_of(alloc, width, 1)?;
    let second = row_of(alloc, width, 2)?;
    let third = row_of(alloc, width, 3)?;
    let rows = [first.as_slice(), second.as_slice(), third.as_slice()];
    assert!(rt;
        meets_model(rt, alloc, width, offset, rows)?,
        "at {width}, {offset}"
    );
    Ok(())
}

/// Widths around a byte's boundaries, with the nominal position and a moved one.
#[test]
fn widths_meet_the_model(rt: HostRuntime) -> Result<(), Fail> {
    for &width in &[1, 2, 7, 8, 9, 15, 16, 17] {
        meet_model(&rt, rt.alloc(), width, 0)?;
        meet_model(&rt, rt.alloc(), width, 5)?;
    }
    Ok(())
}

/// The greatest width.
#[test]
fn widest_meets_the_model(rt: HostRuntime) -> Result<(), Fail> {
    Ok(meet_model(&rt, rt.alloc(), 1_048_576, 0)?)
}

/// Each offset, with the left edge inside its reach.
#[test]
fn offsets_meet_the_model(rt: HostRuntime) -> Result<(), Fail> {
    for offset in 1..128u8 {
        meet_model(&rt, rt.alloc(), 150, offset)?;
    }
    Ok(())
}

/// A black row with one white pixel, if it is within the row, and white padding.
fn black_row(alloc: Global, width: u32, white: u32) -> Result<Vec<u8>, AllocError> {
    let mut bytes = vec![in alloc; 0u8; width.div_ceil(8) as usize]?;
    for x in 0..width {
        if let Some(byte) = bytes.get_mut((x / 8) as usize) {
            if x != white {
                *byte |= 0x80u8 >> (x % 8);
            }
        }
    }
    Ok(bytes)
}

/// Three black rows, long enough for runs of 64, and the same with a white pixel in the middle of one of them; with the
/// nominal position and with moved ones.
#[test]
fn black_rows_meet_the_model(rt: HostRuntime) -> Result<(), Fail> {
    for &(width, offset) in &[(1203, 0), (1200, 9), (1203, 127)] {
        let whole = black_row(rt.alloc(), width, width)?;
        let broken = black_row(rt.alloc(), width, width / 2)?;
        let (w, b) = (whole.as_slice(), broken.as_slice());
        for rows in [[w, w, w], [w, w, b], [w, b, w], [b, w, w]] {
            let met = meets_model(&rt, rt.alloc(), width, offset, rows)?;
            assert!(rt; met, "at {width}, {offset}");
        }
    }
    Ok(())
}
