//! Pseudo-random numbers that are the same in each run, and images, options and streams made from them.

ghost use Rattle.std.specs.Prelude.{◌≤◌, ◌<◌};

mod kinds;
mod streams;

pub use self::kinds::Kinds;
pub use self::streams::{HEADER, Heights};
use pbm_core::trial::Pieces;
use pbm_core::{Form, Size, ToWrite, row_bytes};
use raster_core::{Window, window_bytes};
use std::alloc::{AllocError, Global};
use std::test::Fail;
use t85_core::{Fault, Options, encode};

/// Numbers that a seed determines.
#[derive(Drop)]
pub struct Random {
    state: u64,
}

impl Random {
    pub fn new(seed: u64) -> Random {
        Random { state: seed }
    }

    fn next(&mut self) -> u32 {
        self.state = self
            .state
            .wrapping_mul(6_364_136_223_846_793_005)
            .wrapping_add(1_442_695_040_888_963_407);
        (self.state >> 32) as u32
    }

    /// A number from `from` to `to`.
    pub fn between(&mut self, from: u32, to: u32) -> u32
        requires { from ≤ to }
        ensures from { from ≤ result }
        ensures to { result ≤ to }
    {
        let above = u64::from(self.next()) % (u64::from(to - from) + 1);
        from + above as u32
    }

    /// A height to announce for an image of this height, or of fewer rows.
    pub fn height_from(&mut self, height: u32) -> u32 {
        height.saturating_add(self.between(0, 30))
    }

    /// An index below a count, if there is any.
    pub fn below(&mut self, count: usize) -> usize {
        if count == 0 {
            return 0;
        }
        self.next() as usize % count
    }

    /// Whether something happens that happens once in `count` times.
    pub fn is_one_in(&mut self, count: u32) -> bool
        requires { 1 ≤ count }
    {
        self.between(1, count) == 1
    }

    /// A comment of at most 12 bytes, or none.
    fn comment(&mut self, alloc: Global) -> Result<Option<Vec<u8>>, AllocError> {
        if self.is_one_in(3) {
            let count = self.between(0, 12);
            Ok(Some(self.row(alloc, Ink::Half, count as usize)?))
        } else {
            Ok(None)
        }
    }

    /// Eight pixels.
    fn byte(&mut self, ink: Ink) -> u8 {
        let [a, b, c, _] = self.next().to_be_bytes();
        match ink {
            Ink::None => 0,
            Ink::Little => a & b & c,
            Ink::Half | Ink::Striped => a,
            Ink::Much => a | b | c,
        }
    }

    fn ink(&mut self) -> Ink {
        match self.between(0, 5) {
            0 => Ink::None,
            1 => Ink::Little,
            2 => Ink::Half,
            3 => Ink::Much,
            _ => Ink::Striped,
        }
    }

    /// A row of this many bytes.
    fn row(&mut self, alloc: Global, ink: Ink, count: usize) -> Result<Vec<u8>, AllocError> {
        let mut row = Vec::new(alloc);
        let mut byte = self.byte(ink);
        for _ in 0..count {
            match ink {
                Ink::Striped => {}
                _ => byte = self.byte(ink),
            }
            row.push(byte)?;
        }
        Ok(row)
    }
}

/// The share of black pixels: half in a striped row, whose bytes are equal.
#[derive(Clone, Copy)]
enum Ink {
    None,
    Little,
    Half,
    Much,
    Striped,
}

/// An image: each row in whole bytes, with arbitrary padding.
#[derive(Drop)]
pub struct Image {
    pub size: Size,
    pub rows: Vec<Vec<u8>>,
}

impl Image {
    /// A small image. In half of them about every second row repeats the one above.
    pub fn random(alloc: Global, random: &mut Random) -> Result<Image, Fail> {
        let size = Size {
            width: random.between(1, 40),
            height: random.between(1, 30),
        };
        let ink = random.ink();
        let repeats = random.is_one_in(2);
        let mut rows = Vec::new(alloc);
        let mut row = Vec::new(alloc);
        for y in 0..size.height {
            if y == 0 || !repeats || random.is_one_in(2) {
                row = random.row(alloc, ink, row_bytes(size.width))?;
            }
            rows.push(row.clone()?)?;
        }
        Ok(Image { size, rows })
    }
}

/// The result and the output of an encoder.
#[derive(Drop)]
pub struct Encoded {
    pub answer: Result<(), Fault>,
    pub bytes: Vec<u8>,
}

/// The result and the output of `encode` for an image of this size whose input has these rows.
pub fn encode_rows(
    alloc: Global,
    size: Size,
    rows: &[Vec<u8>],
    options: &Options<'_>,
) -> Result<Encoded, Fail> {
    let mut packed = Vec::new(alloc);
    for row in rows {
        packed.extend_from_slice(row)?;
    }
    let mut input = Pieces::new(&packed, 4096, None);
    let mut lent = Vec::from_elem(alloc, 0u8, window_bytes(size.width))?;
    let mut window = Window::over(lent.as_mut_slice(), size.width);
    let mut bytes = Vec::new(alloc);
    let mut output = ToWrite::new(&mut bytes);
    let answer = encode(
        size,
        Form::Raw,
        options,
        &mut window,
        &mut input,
        &mut output,
    );
    Ok(Encoded { answer, bytes })
}

/// The options of a stream.
#[derive(Drop)]
pub struct Choices {
    bits: u32,
    stripe_rows: u32,
    most_offset: u32,
    /// A height to announce: none, unless a test sets one.
    pub announced: Option<u32>,
    reset: bool,
    comment: Option<Vec<u8>>,
}

impl Choices {
    pub fn random(alloc: Global, random: &mut Random) -> Result<Choices, Fail> {
        let bits = match random.between(0, 5) {
            0 => 0,
            1 => 64,
            2 => 32,
            3 => 8,
            4 => 72,
            _ => 104,
        };
        let stripe_rows = match random.between(0, 10) {
            0 => 128,
            rows => rows,
        };
        let most_offset = match random.between(0, 2) {
            0 => 0,
            1 => 5,
            _ => 127,
        };
        Ok(Choices {
            bits,
            stripe_rows,
            most_offset,
            announced: None,
            reset: random.is_one_in(3),
            comment: random.comment(alloc)?,
        })
    }

    pub fn options(&self) -> Result<Options<'_>, Fault> {
        let comment = match &self.comment {
            Some(text) => Some(text.as_slice()),
            None => None,
        };
        Options::new(
            self.bits,
            self.stripe_rows,
            self.most_offset,
            self.announced,
            self.reset,
            comment,
        )
    }
}

/// Adds one if the condition holds.
pub fn add(count: &mut u32, is_so: bool) {
    *count = count.saturating_add(u32::from(is_so));
}
