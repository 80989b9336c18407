//! Headers and rows that are read from pieces, however these are cut.

ghost use Rattle.std.specs.Prelude.{◌≡◌, length};
ghost use Rattle.pbm_core.specs.Pbm.{bytes_of_row};

use crate::pbm::{HEADERS, IMAGES, SHOWN};
use pbm_core::{Form, HeaderOutcome, HeaderReader, RowOutcome, RowReader, Size, row_bytes};

/// The result of a header in pieces of this length: the error's number or 0, the width, the height, and the number of
/// bytes left. The plain form is reported as 255.
fn header(text: &[u8], length: usize) -> (u8, u32, u32, u64) {
    let mut reader = HeaderReader::start();
    let mut left = text.len() as u64;
    for piece in text.chunks(length.max(1)) {
        let progress = reader.read(piece);
        left = left.saturating_sub(progress.taken as u64);
        match progress.outcome {
            HeaderOutcome::More => {}
            HeaderOutcome::Header(size, Form::Raw) => return (0, size.width, size.height, left),
            HeaderOutcome::Header(size, Form::Plain) => {
                return (255, size.width, size.height, left);
            }
            HeaderOutcome::Broken(fault) => return (fault.number(), 0, 0, left),
        }
    }
    (reader.end().number(), 0, 0, left)
}

#[test]
fn headers_in_pieces(rt: HostRuntime) {
    for &(text, answer) in &HEADERS {
        for &length in &[1, 2, 3, 5, 4096] {
            let found = header(text.as_bytes(), length);
            assert!(rt; found == answer, "{text:?} in pieces of {length}");
        }
    }
}

/// The result of a header in two pieces: the number of its bytes that were consumed, and the error's number or 0, or 100
/// if more bytes are needed.
fn in_two(text: &[u8], cut: usize) -> (usize, u8) {
    let (first, second) = text.split_at(cut.min(text.len()));
    let mut reader = HeaderReader::start();
    let progress = reader.read(first);
    if progress.outcome != HeaderOutcome::More {
        return (progress.taken, number_of(progress.outcome));
    }
    let after = reader.read(second);
    (
        progress.taken.saturating_add(after.taken),
        number_of(after.outcome),
    )
}

fn number_of(outcome: HeaderOutcome) -> u8 {
    match outcome {
        HeaderOutcome::More => 100,
        HeaderOutcome::Header(_, _) => 0,
        HeaderOutcome::Broken(fault) => fault.number(),
    }
}

/// Each header, cut at each byte: the byte that determines the result is the last that is consumed.
#[test]
fn headers_in_two_pieces(rt: HostRuntime) {
    for &(text, shows, number) in &SHOWN {
        for cut in 0..=text.len() {
            let found = in_two(text, cut);
            assert!(rt; found == (shows, number), "{text:?} cut at {cut}");
        }
    }
}

/// A prefix that does not determine the result is consumed as a whole, and more bytes are needed.
#[test]
fn prefixes_of_headers(rt: HostRuntime) {
    for &(text, shows, _) in &SHOWN {
        for length in 0..shows.min(text.len()) {
            let found = in_two(&text[..length], length / 2);
            assert!(rt; found == (length, 100), "{length} bytes of {text:?}");
        }
    }
}

/// The error's number or 0, and the rows of an image in pieces of this length; dots mark bytes that were not read. More
/// than two rows, or rows of more than two bytes, give 255.
fn rows(text: &[u8], length: usize) -> (u8, [[u8; 2]; 2]) {
    let rows = [*b".."; 2];
    let mut reader = HeaderReader::start();
    let progress = reader.read(text);
    match progress.outcome {
        HeaderOutcome::Header(size, form) => match text.get(progress.taken..) {
            Some(raster) => raster_of(raster, length, size, form),
            None => (255, rows),
        },
        HeaderOutcome::More => (reader.end().number(), rows),
        HeaderOutcome::Broken(fault) => (fault.number(), rows),
    }
}

/// The rows of the bytes after a header.
fn raster_of(raster: &[u8], length: usize, size: Size, form: Form) -> (u8, [[u8; 2]; 2]) {
    let mut rows = [*b".."; 2];
    let bytes = row_bytes(size.width);
    if size.height > 2 || bytes > 2 {
        return (255, rows);
    }
    let mut rest = raster;
    for y in 0..size.height {
        let mut row = *b"..";
        let (number, after) = row_of(rest, length, size, form, &mut row[..bytes]);
        if number != 0 {
            return (number, rows);
        }
        rest = after;
        rows[y as usize] = row;
    }
    (0, rows)
}

/// Reads a row in pieces of this length. Returns the error's number or 0, and the bytes behind the row.
fn row_of<'a>(text: &'a [u8], step: usize, size: Size, form: Form, row: &mut [u8]) -> (u8, &'a [u8])
    requires { length row.old ≡ bytes_of_row size.width }
{
    let mut reader = RowReader::start();
    let mut rest = text;
    for _ in 0..=text.len() {
        if rest.is_empty() {
            break;
        }
        let piece = rest.get(..step).unwrap_or(rest);
        let progress = reader.read(size, form, row, piece);
        rest = rest.get(progress.taken..).unwrap_or(b"");
        match progress.outcome {
            RowOutcome::More => {}
            RowOutcome::Row => return (0, rest),
            RowOutcome::Broken(fault) => return (fault.number(), rest),
        }
    }
    (reader.end().number(), rest)
}

#[test]
fn rows_in_pieces(rt: HostRuntime) {
    for &(text, number, wanted) in &IMAGES {
        for &length in &[1, 2, 3, 5, 4096] {
            let found = rows(text, length);
            assert!(rt; found == (number, wanted), "{text:?} in pieces of {length}");
        }
    }
}
