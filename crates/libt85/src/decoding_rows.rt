//! Decodes a stream in memory to rows in memory.

ghost use Rattle.std.specs.Prelude.{◌≡◌, ◌≤◌, ◌<◌, ◌+◌, ◌*◌, length};
ghost use Rattle.std.specs.Int.{div_ceil};
ghost use Rattle.t85_core.specs.Options.{fields_of};
ghost use Rattle.libt85.specs.Decoded.{window_bytes as window_of};
ghost use Rattle.libt85.specs.Delivered.{lending};
ghost use Rattle.libt85.specs.DecodedRows.{DecodesRows, HasTakenNothing, HaveRoom, DeliversRows};

use crate::decoding::answer_status;
use crate::lined_sink::LinedSink;
use crate::opened::open;
use crate::status::{FULL, SHORT_STRIDE};
use pbm_core::row_bytes;
use raster_core::{Window, window_bytes};
use t85_core::laws::outcomes;
use t85_core::{Fault, Header, decode_rows};

/// Decodes the rows of a stream's image, at most `max_rows` of them. Row y begins at byte `y * stride`; a row has one
/// bit per pixel, the first pixel in the most significant bit, in a whole number of bytes, and its padding is 0.
///
/// Returns what `t85_decode` returns; in addition, after 24 and before 19, returns 51 if the stride is shorter than a
/// row. Returns 18 if there are more rows than fit, and then the first of them are written.
///
/// `rows_written` is the number of whole rows written. Later rows that would fit, and the window, may contain anything.
/// Bytes between rows, and after the last row that fits, are unchanged.
#[unsafe(no_mangle)]
pub extern "C" fn t85_decode_rows(
    stream: &[u8],
    max_rows: u32,
    stride: usize,
    window: &mut [u8],
    rows: &mut [u8],
    rows_written: &mut u32,
) -> u8
    ensures { DecodesRows stream.now max_rows stride (length window.old)
        (lending rows.old rows.new rows_written.new result) }
{
    *rows_written = 0;
    let opened = match open(stream) {
        Ok(opened) => opened,
        Err(fault) => return fault.number(),
    };
    if opened.height > max_rows {
        return Fault::TooManyRows.number();
    }
    let row = row_bytes(opened.header.xd);
    if stride < row {
        return SHORT_STRIDE;
    }
    let bytes = window_bytes(opened.header.xd);
    if window.len() < bytes {
        return Fault::OutOfMemory.number();
    }
    fill_rows(
        &opened.header,
        opened.height,
        opened.body,
        stride,
        &mut window[..bytes],
        rows,
        rows_written,
    )
}

/// Decodes the rows of a body into memory, and returns the status.
fn fill_rows(
    header: &Header,
    height: u32,
    body: &[u8],
    stride: usize,
    window: &mut [u8],
    rows: &mut [u8],
    rows_written: &mut u32,
) -> u8
    requires apart { div_ceil header.now.xd 8 ≤ stride }
    requires window { length window.old ≡ window_of header.now.xd }
    requires from { 1 ≤ height }
    requires to { height ≤ header.now.yd }
    ensures { DeliversRows (fields_of header.now) height body.now stride
        (lending rows.old rows.new rows_written.new result) }
{
    let row = row_bytes(header.xd);
    let fit = rows_that_fit(height, row, stride, rows.len());
    let mut output = LinedSink::new(rows, row, stride, fit);
    let status = write_rows(header, height, body, window, &mut output);
    *rows_written = output.y;
    status
}

/// The number of these rows that fit.
fn rows_that_fit(wanted: u32, row: usize, stride: usize, room: usize) -> u32
    requires some { 1 ≤ row }
    requires apart { row ≤ stride }
    ensures { HaveRoom wanted row stride room result }
{
    if room < row {
        return 0;
    }
    let more = (room - row) / stride;
    if more < wanted as usize {
        more as u32 + 1
    } else {
        wanted
    }
}

/// Decodes the rows of a body into a consumer of rows, and returns the status.
fn write_rows(
    header: &Header,
    height: u32,
    body: &[u8],
    window: &mut [u8],
    output: &mut LinedSink<'_>,
) -> u8
    requires window { length window.old ≡ window_of header.now.xd }
    requires from { 1 ≤ height }
    requires to { height ≤ header.now.yd }
    requires output { HasTakenNothing (fields_of header.now) height output.old }
    ensures writes { DeliversRows (fields_of header.now) height body.now output.old.stride
        (lending output.old.bytes.now output.new.bytes.now output.new.y result) }
    ensures same_reference { output.new.bytes.ghost_name ≡ output.old.bytes.ghost_name }
{
    // The proof uses these laws about streams.
    outcomes();
    let mut lines = Window::over(window, header.xd);
    let answer = decode_rows(header, height, &mut lines, body, output);
    if output.spilled.is_some() {
        return FULL;
    }
    answer_status(&answer)
}
