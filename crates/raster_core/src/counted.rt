//! The last row counted, with its counts.

ghost use Rattle.std.specs.Prelude.{◌+◌, ◌*◌, ◌≡◌, ◌≤◌, ◌<◌, IsTrue, take};
ghost use Rattle.std.specs.Int.{div_ceil};
ghost use Rattle.raster_core.specs.Lines.{Lines};
ghost use Rattle.raster_core.specs.Packed.{packed_row};
ghost use Rattle.raster_core.specs.Machine.Words.{AgreesAt};

use crate::agreement::{add_all, add_word, agreeing_in_row};
use crate::words::{mask_at, word_at};

/// For each lag, the number of pixels of a row that equal the pixel `lag` to their left. A row of at most 1,408 bytes
/// is stored, so that the same row is not counted again. The struct may be in memory with arbitrary contents: no number
/// relies on another.
#[repr(C)]
#[derive(Drop)]
pub struct Counted {
    /// The number of pixels that equal the adaptive pixel in its nominal position if the row above is the same row. It
    /// is counted when it is first needed; until then, it is above 2^32.
    below_itself: u64,
    width: u32,
    /// The length of the row in bytes, or more than 1,408 if none is stored.
    len: u16,
    least: u8,
    most: u8,
    pub(crate) agreed: [u64; 128],
    row: [u8; 1408],
}

impl Counted {
    ghost use Rattle.raster_core.specs.Machine.Words.{AgreesBelowItself, part_agreement};
    ghost use Rattle.raster_core.specs.Tally.{CountsRow, KeepsCounts};

    /// No row is stored.
    pub(crate) fn none() -> Counted
        ensures { KeepsCounts result }
    {
        Counted {
            row: [0; 1408],
            len: 1409,
            width: 0,
            least: 0,
            most: 0,
            agreed: [0; 128],
            below_itself: u64::MAX,
        }
    }

    /// Discards the stored row.
    pub(crate) fn discard(&mut self)
        ensures { KeepsCounts self.new }
    {
        self.len = 1409;
    }

    /// Whether the counts are those of this row and these lags.
    pub(crate) fn is_of(&self, row: &[u8], width: u32, least: u8, most: u8) -> bool
        ensures counts { IsTrue result → KeepsCounts self.now → CountsRow self.now row.now }
        ensures row { IsTrue result → take self.now.len self.now.row ≡ row.now }
        ensures width { IsTrue result → self.now.width ≡ width }
        ensures least { IsTrue result → self.now.least ≡ least }
        ensures most { IsTrue result → self.now.most ≡ most }
    {
        if width != self.width || least != self.least || most != self.most {
            return false;
        }
        if self.len > 1408 {
            return false;
        }
        row == &self.row[..usize::from(self.len)]
    }

    /// Counts a row at the lags from `least` to `most`, and stores it.
    pub(crate) fn count(&mut self, row: &[u8], width: u32, least: u8, most: u8)
        requires least { 1 ≤ least }
        requires least_small { least < 64 }
        requires most { most ≤ 127 }
        ensures counts { CountsRow self.new row.now }
        ensures kept { KeepsCounts self.new }
        ensures row { self.new.len ≤ 1408 → take self.new.len self.new.row ≡ row.now }
        ensures width { self.new.width ≡ width }
        ensures least { self.new.least ≡ least }
        ensures most { self.new.most ≡ most }
    {
        count_agreed(
            &mut self.agreed,
            row,
            width,
            usize::from(least),
            usize::from(most),
        );
        self.len = keep(&mut self.row, row);
        self.width = width;
        self.least = least;
        self.most = most;
        self.below_itself = u64::MAX;
    }

    /// The number of pixels of the last row counted that equal the adaptive pixel at `offset`.
    pub(crate) fn agreeing(&mut self, row: &[u8], above: &[u8], offset: u8) -> u64
        requires offset { offset ≤ 127 }
        requires row { self.old.len ≤ 1408 → take self.old.len self.old.row ≡ row.now }
        ensures agreed { (lines : Lines) → KeepsCounts self.old → CountsRow self.old row.now →
            row.now ≡ packed_row lines.row → above.now ≡ packed_row lines.above → result ≡
            part_agreement lines self.old.width offset 0 (64 * div_ceil self.old.width 64) }
        ensures kept { KeepsCounts self.old → KeepsCounts self.new }
        ensures same { self.new.agreed ≡ self.old.agreed }
    {
        if self.least <= offset && offset <= self.most {
            self.agreed[usize::from(offset)]
        } else if offset == 0 && self.len <= 1408 && row == above {
            self.agreeing_below_itself()
        } else {
            agreeing_in_row(row, above, self.width, offset)
        }
    }

    /// The number of pixels of the last row counted that equal the adaptive pixel in its nominal position, if the row
    /// above is the same row.
    fn agreeing_below_itself(&mut self) -> u64
        requires { self.old.len ≤ 1408 }
        ensures agreed { KeepsCounts self.old →
            AgreesBelowItself (take self.old.len self.old.row) self.old.width result }
        ensures kept { KeepsCounts self.old → KeepsCounts self.new }
        ensures same { self.new.agreed ≡ self.old.agreed }
    {
        if self.below_itself <= 1 << 32 {
            return self.below_itself;
        }
        let row = &self.row[..usize::from(self.len)];
        let agreeing = agreeing_in_row(row, row, self.width, 0);
        self.below_itself = agreeing;
        agreeing
    }
}

/// Copies a row of at most 1,408 bytes to the front, and returns its length; for a longer row, returns 1,409.
fn keep(kept: &mut [u8; 1408], row: &[u8]) -> u16
    ensures { result ≤ 1408 → take result kept.new ≡ row.now }
{
    let len = row.len();
    if len > 1408 {
        return 1409;
    }
    kept[..len].copy_from_slice(row);
    len as u16
}

/// Counts, for each lag from `least` to `most`, how many pixels of a row equal the pixel `lag` to their left.
fn count_agreed(counts: &mut [u64; 128], row: &[u8], width: u32, least: usize, most: usize)
    requires least { 1 ≤ least }
    requires least_small { least < 64 }
    requires most { most ≤ 127 }
    ensures { AgreesAt row.now width least most counts.new }
{
    let words = (width as usize).div_ceil(64);
    *counts = [0; 128];
    let mut alike = 0;
    let mut second = 0;
    let mut before = 0;
    for k in 0..words {
        let word = word_at(row, k + 2);
        let mask = mask_at(width, k);
        alike += add_word(counts, least, most, second, before, word, mask);
        second = before;
        before = word;
    }
    if alike > 0 {
        add_all(counts, least, most + 1, alike);
    }
}
