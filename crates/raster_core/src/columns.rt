//! Counts, in some columns of a row, the pixels that agree with their adaptive pixels.

ghost use Rattle.std.specs.Prelude.{ℕ, ◌+◌, ◌-◌, ◌*◌, ◌^◌, ◌≡◌, ◌≤◌, ◌<◌, slice_index};
ghost use Rattle.std.specs.Int.{div_ceil};
ghost use Rattle.raster_core.specs.Counting.{AreLines, fit_row};
ghost use Rattle.raster_core.specs.Lines.{Lines, same_row};
ghost use Rattle.raster_core.specs.Packed.{packed_row};
ghost use Rattle.raster_core.specs.Machine.Words.{word, is_between, part_among};

use crate::agreement::{add_all, add_word};
use crate::words::{agreed_word, joined, mask_at, word_at};

/// The columns from `first` up to, but not including, `end`.
#[derive(Clone, Copy)]
pub(crate) struct Columns {
    pub(crate) first: u32,
    pub(crate) end: u32,
}

impl Columns {
    /// Which pixels of the word at `place` are in the columns.
    fn mask_at(self, place: usize) -> u64
        requires { place < 2 ^ 32 }
        ensures { result ≡ word (is_between self.first self.end) (64 * place) 64 }
    {
        mask_at(self.end, place) & !mask_at(self.first, place)
    }
}

/// Whether two rows of this width are the same. Missing bytes are white.
pub(crate) fn is_same(row: &[u8], above: &[u8], width: u32) -> bool
    ensures { (lines : Lines) → AreLines row.now above.now lines →
        result ≡ same_row (fit_row width lines.row) (fit_row width lines.above) }
{
    let words = (width as usize).div_ceil(64);
    for k in 0..words {
        let different = word_at(row, k + 2) ^ word_at(above, k + 2);
        if different & mask_at(width, k) != 0 {
            return false;
        }
    }
    true
}

/// Counts the pixels in the columns that equal the adaptive pixel: at each lag from `least` to `most` in `counts`, and in
/// its nominal position as the result.
pub(crate) fn count_columns(
    counts: &mut [u64; 128],
    row: &[u8],
    above: &[u8],
    columns: Columns,
    least: usize,
    most: usize,
) -> u64
    requires least { (1 ≤ least) × (least < 64) }
    requires most { most ≤ 127 }
    ensures counts { (lines : Lines) → row.now ≡ packed_row lines.row → (lag : ℕ) → least ≤ lag →
        lag ≤ most → slice_index counts.new lag ≡ part_among
        (is_between columns.first columns.end) lines lag 0 (64 * div_ceil columns.end 64) }
    ensures nominal { (lines : Lines) → row.now ≡ packed_row lines.row →
        above.now ≡ packed_row lines.above → result ≡ part_among
        (is_between columns.first columns.end) lines 0 0 (64 * div_ceil columns.end 64) }
    ensures small { (lag : ℕ) → least ≤ lag → lag ≤ most → slice_index counts.new lag ≤
        64 * div_ceil columns.end 64 }
    ensures nominal_small { result ≤ 64 * div_ceil columns.end 64 }
{
    let words = (columns.end as usize).div_ceil(64);
    *counts = [0; 128];
    let mut alike = 0;
    let mut nominal = 0;
    let mut second = 0;
    let mut before = 0;
    for k in 0..words {
        let word = word_at(row, k + 2);
        let mask = columns.mask_at(k);
        alike += add_word(counts, least, most, second, before, word, mask);
        let adaptive = joined(word_at(above, k + 2), word_at(above, k + 3), 62);
        nominal += agreed_word(mask, word, adaptive);
        second = before;
        before = word;
    }
    add_all(counts, least, most + 1, alike);
    nominal
}
