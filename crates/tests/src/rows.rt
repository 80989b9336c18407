//! A course encodes the rows of a stripe to a sink, and decodes them from a source.

ghost use Rattle.std.specs.Prelude.{◌≡◌};

mod again;
mod by_hand;
mod faults;
pub mod model;
mod tally;
mod window;

use qm_core::{
    CodeBytes, CodeSink, CoderFault, Context, Decoder, Encoder, Learned, Pulled, SinkFault, Stop,
};
use raster_core::{Kept, Shape, Window, current_row, decode_row, encode_row, window_bytes};
use std::alloc::{AllocError, Global};
use std::process::Abort;

/// A sink that stores its bytes.
#[derive(Drop)]
pub struct Taken {
    pub bytes: Vec<u8>,
}

impl CodeSink for Taken {
    ghost took = { λ _ _ _. Unit {0} };

    ghost refused = { λ _ _. Unit {0} };

    ghost failed = { λ _. 0 };

    fn push(&mut self, byte: u8) -> Result<(), SinkFault> {
        let _ = self.bytes.push(byte);
        Ok(())
    }

    fn failures(&self) -> u64 {
        0
    }
}

/// A source of stuffed bytes. After them it reports its end, or a failure.
#[derive(Drop)]
pub struct Given<'a> {
    bytes: &'a [u8],
    ends: bool,
    pub asked: u64,
    failed: u64,
}

impl<'a> Given<'a> {
    pub fn new(bytes: &'a [u8], ends: bool) -> Given<'a>
        ensures { result.failed ≡ 0 }
    {
        Given {
            bytes,
            ends,
            asked: 0,
            failed: 0,
        }
    }
}

impl CodeBytes for Given<'_> {
    ghost gives = { λ _ _ _. Unit {0} };

    ghost failed = { λ s. s.failed };

    ghost left = { λ _. 0 };

    fn pull(&mut self) -> Pulled {
        self.asked = self.asked.saturating_add(1);
        match self.bytes.split_first() {
            Some((255, rest)) => {
                self.bytes = match rest.split_first() {
                    Some((_, rest)) => rest,
                    None => rest,
                };
                Pulled::Byte(255)
            }
            Some((byte, rest)) => {
                self.bytes = rest;
                Pulled::Byte(*byte)
            }
            None => {
                if self.ends {
                    Pulled::End
                } else {
                    self.failed = self.failed.wrapping_add(1);
                    Pulled::Fault
                }
            }
        }
    }

    fn failures(&self) -> u64 {
        self.failed
    }
}

/// The row-coding parameters, and the state carried from row to row.
#[derive(Drop)]
pub struct Course {
    pub shape: Shape,
    pub kept: Kept,
    pub learned: Learned,
}

impl Course {
    /// The state before the first row, with this offset, which is at most 127.
    pub fn new(shape: Shape, offset: u8) -> Course {
        Course {
            shape,
            kept: Kept {
                offset: offset.min(127),
                previous_typical: false,
            },
            learned: Learned::new(),
        }
    }

    /// Encodes a row below those of a window.
    fn encode<W: CodeSink>(
        &mut self,
        rt: &impl Abort,
        window: &mut Window,
        row: &[u8],
        encoder: &mut Encoder,
        out: &mut W,
    ) -> Result<(), CoderFault> {
        let Course {
            shape,
            kept,
            learned,
        } = self;
        window.turn();
        write_row(rt, window, row);
        assert!(rt; window.width() == shape.width && shape.width >= 1);
        assert!(rt; encoder.events() < 0x1000_0000_0000 && out.failures() < 10);
        encode_row(*shape, kept, window, learned, encoder, out)
    }

    /// Decodes the current row of a window.
    pub fn decode<S: CodeBytes>(
        &mut self,
        rt: &impl Abort,
        window: &mut Window,
        decoder: &mut Decoder,
        source: &mut S,
    ) -> Result<(), Stop> {
        let Course {
            shape,
            kept,
            learned,
        } = self;
        assert!(rt; window.width() == shape.width && shape.width >= 1);
        assert!(rt; source.failures() < 10);
        decode_row(*shape, kept, window, learned, decoder, source)
    }
}

pub fn shape(width: u32, two_line: bool, typical: bool) -> Shape {
    Shape {
        width,
        two_line,
        typical,
    }
}

/// Writes the current row.
fn write_row(rt: &impl Abort, window: &mut Window, row: &[u8]) {
    let current = current_row(window.width(), window.place());
    assert!(rt; row.len() == current.end - current.start);
    window.rows[current].copy_from_slice(row);
}

/// Whether this is row k of a window.
pub fn is_row(window: &Window, k: u8, row: &[u8]) -> bool {
    k < 3 && window.row(k) == row
}

/// A white window of rows of 8 pixels.
pub fn over_8(bytes: &mut [u8; 3]) -> Window<'_> {
    Window::over(bytes, 8)
}

/// The code of rows below those of a window, in one stripe.
fn stripe(
    rt: &impl Abort,
    alloc: Global,
    course: &mut Course,
    window: &mut Window,
    rows: &[&[u8]],
) -> Vec<u8> {
    let mut out = Taken {
        bytes: Vec::new(alloc),
    };
    let mut encoder = Encoder::start();
    for row in rows {
        let done = course.encode(rt, window, row, &mut encoder, &mut out);
        assert!(rt; done == Ok(()));
    }
    assert!(rt; encoder.finish(&mut out) == Ok(()));
    out.bytes
}

/// The code of rows in one stripe.
fn code(
    rt: &impl Abort,
    alloc: Global,
    shape: Shape,
    offset: u8,
    rows: &[&[u8]],
) -> Result<Vec<u8>, AllocError> {
    let mut bytes = vec![in alloc; 0xaau8; window_bytes(shape.width)]?;
    let mut window = Window::over(bytes.as_mut_slice(), shape.width);
    let mut course = Course::new(shape, offset);
    Ok(stripe(rt, alloc, &mut course, &mut window, rows))
}

/// Whether a code gives these rows below those of a window, in one stripe.
fn gives_below(
    rt: &impl Abort,
    course: &mut Course,
    window: &mut Window,
    code: &[u8],
    rows: &[&[u8]],
) -> bool {
    let mut source = Given::new(code, true);
    let mut decoder = Decoder::start();
    let mut same = true;
    for row in rows {
        window.turn();
        let done = course.decode(rt, window, &mut decoder, &mut source);
        same = same && done == Ok(()) && source.failures() == 0 && is_row(window, 0, row);
    }
    same
}

/// Whether a code gives these rows in one stripe.
fn gives(
    rt: &impl Abort,
    alloc: Global,
    shape: Shape,
    offset: u8,
    code: &[u8],
    rows: &[&[u8]],
) -> Result<bool, AllocError> {
    let mut bytes = vec![in alloc; 0xaau8; window_bytes(shape.width)]?;
    let mut window = Window::over(bytes.as_mut_slice(), shape.width);
    let mut course = Course::new(shape, offset);
    Ok(gives_below(rt, &mut course, &mut window, code, rows))
}

/// Whether rows in one stripe have this code, and are decoded from it.
fn is_code(
    rt: &impl Abort,
    alloc: Global,
    shape: Shape,
    offset: u8,
    expected: &[u8],
    rows: &[&[u8]],
) -> Result<bool, AllocError> {
    let found = code(rt, alloc, shape, offset, rows)?;
    if found.as_slice() != expected {
        return Ok(false);
    }
    gives(rt, alloc, shape, offset, expected, rows)
}

/// Encodes a pixel.
pub fn put(
    rt: &impl Abort,
    encoder: &mut Encoder,
    learned: &mut Learned,
    n: u16,
    black: bool,
    out: &mut Taken,
) {
    assert!(rt; n < 1024 && encoder.events() < 0x1000_0000_0000);
    assert!(rt; encoder.put(learned, Context::of(n), black, out) == Ok(()));
}
