//! Finds the offset of the adaptive pixel that would have served a stripe best.

use crate::agreement::{add_each, agreeing_in_row, agreeing_in_word};
use crate::counted::Counted;
use crate::narrow::{add_narrow, add_wide, both_words};
use crate::window::Window;
use crate::words::{mask_at, word_at};

/// For each lag that may be chosen, the number of pixels in the rows so far that equal the pixel `lag` to their left.
/// It consists of counts and one row. It may be in caller-supplied memory with arbitrary contents: the counts are then
/// meaningless, and every sum is one modulo 2^64.
#[repr(C)]
#[derive(Drop)]
pub struct Tally {
    /// The number of pixels that equal the adaptive pixel at the current offset.
    agreeing: u64,
    /// The number of rows equal to the last one that are not yet in the counts.
    times: u64,
    width: u32,
    rows: u32,
    /// 1 for the two-line template.
    two_line: u32,
    /// The greatest lag that may be chosen; a value above 127 counts as 127.
    most: u32,
    last: Counted,
    counts: [u64; 128],
}

impl Tally {
    ghost use Rattle.std.specs.Prelude.{ℕ, ◌+◌, ◌*◌, ◌%◌, ◌^◌, ◌≡◌, ◌≤◌, ◌<◌, ◌-◌, [], ◌∷◌, ◌++◌, List, IfSome, length, replicate, take};
    ghost use Rattle.raster_core.specs.Tally.{CountsLines, CountsAlike, CountsRow, KeepsCounts, SameButCounts, counted_at, is_two_line, last_lag, least_lag, most_of, row_count};
    ghost use Rattle.raster_core.specs.Lines.{Lines};
    ghost use Rattle.raster_core.specs.Offset.{agreements, best_offset, candidates, chosen_offset};
    ghost use Rattle.raster_core.specs.Packed.{HasLines, packed_row};
    ghost use Rattle.raster_core.specs.Window.{held as rows_held, width_of};

    /// A tally of no rows. The lags that may be chosen are those from 5 (two-line template) or 3 (three-line template)
    /// to `most`.
    pub fn new(two_line: bool, most: u8) -> Tally
        requires { most ≤ 127 }
        ensures counts { (width current : ℕ) → CountsLines result width current [] }
        ensures rows { row_count result ≡ 0 }
        ensures two_line { is_two_line result ≡ two_line }
        ensures most { most_of result ≡ most }
    {
        Tally {
            agreeing: 0,
            times: 0,
            width: 0,
            rows: 0,
            two_line: u32::from(two_line),
            most: u32::from(most),
            last: Counted::none(),
            counts: [0; 128],
        }
    }

    /// Resets all counts, whatever they were, and discards the last row.
    pub fn restart(&mut self)
        ensures counts { (width current : ℕ) → CountsLines self.new width current [] }
        ensures rows { row_count self.new ≡ 0 }
        ensures two_line { is_two_line self.new ≡ is_two_line self.old }
        ensures most { most_of self.new ≡ most_of self.old }
    {
        self.counts = [0; 128];
        self.times = 0;
        self.agreeing = 0;
        self.rows = 0;
        self.last.discard();
    }

    /// Counts the current row of a window, typical or not, which was coded with the adaptive pixel at this offset.
    /// Between two restarts, width and offset must stay the same, and there must be fewer than 2^32 rows.
    pub fn add_row(&mut self, window: &Window, offset: u8)
        requires offset { offset ≤ 127 }
        ensures counts { (rows : List Lines) (lines : Lines) → length rows < 2 ^ 32 - 1 →
            CountsLines self.old (width_of window.now) offset rows →
            HasLines (rows_held window.now) lines →
            CountsLines self.new (width_of window.now) offset (rows ++ lines ∷ []) }
        ensures rows { row_count self.old < 2 ^ 32 - 1 → row_count self.new ≡
            row_count self.old + 1 }
        ensures two_line { is_two_line self.new ≡ is_two_line self.old }
        ensures most { most_of self.new ≡ most_of self.old }
    {
        self.add_rows(window, offset, 1);
    }

    /// Counts the current row of a window the given number of times, as that many rows of which each has these pixels and
    /// the window's row above. The conditions are those of `add_row`.
    #[inline(never)]
    pub fn add_rows(&mut self, window: &Window, offset: u8, count: u32)
        requires offset { offset ≤ 127 }
        ensures counts { (rows : List Lines) (lines : Lines) → length rows + count < 2 ^ 32 →
            CountsLines self.old (width_of window.now) offset rows →
            HasLines (rows_held window.now) lines →
            CountsLines self.new (width_of window.now) offset (rows ++ replicate count lines) }
        ensures rows { row_count self.old + count < 2 ^ 32 → row_count self.new ≡
            row_count self.old + count }
        ensures two_line { is_two_line self.new ≡ is_two_line self.old }
        ensures most { most_of self.new ≡ most_of self.old }
    {
        if count == 0 {
            return;
        }
        let times = u64::from(count);
        let width = window.width();
        let row = window.row(0);
        let above = window.row(1);
        let agreeing = self.count_times(row, above, width, offset, times);
        self.agreeing = self.agreeing.wrapping_add(times.wrapping_mul(agreeing));
        self.width = width;
        self.rows = self.rows.wrapping_add(count);
    }

    /// Counts a row of this width the given number of times, modulo 2^64, and returns how many of its pixels equal the
    /// adaptive pixel.
    #[inline(always)]
    fn count_times(&mut self, row: &[u8], above: &[u8], width: u32, offset: u8, times: u64) -> u64
        requires offset { offset ≤ 127 }
        ensures counts { (lines : Lines) → row.now ≡ packed_row lines.row →
            length lines.row ≡ width → KeepsCounts self.old.last → (lag : ℕ) →
            least_lag (is_two_line self.old) ≤ lag →
            lag ≤ last_lag (is_two_line self.old) (most_of self.old) width →
            counted_at self.new lag ≡ (counted_at self.old lag + times * agreements lag lines) %
            2 ^ 64 }
        ensures agreeing { (lines : Lines) → row.now ≡ packed_row lines.row →
            above.now ≡ packed_row lines.above → length lines.row ≡ width →
            KeepsCounts self.old.last → result ≡ agreements offset lines }
        ensures kept { KeepsCounts self.old.last → KeepsCounts self.new.last }
        ensures same { SameButCounts self.old self.new }
    {
        let least = self.least_lag();
        let most = self.last_lag(width);
        let (from, to) = (usize::from(least), usize::from(most));
        if width <= 64 {
            let word = word_at(row, 2);
            let mask = mask_at(width, 0);
            add_narrow(&mut self.counts, from, to, word, mask, times);
            return agreeing_in_word(above, 0, offset, 0, 0, word, mask);
        }
        if width <= 128 {
            let first = word_at(row, 2);
            let second = word_at(row, 3);
            let pixels = both_words(first, second);
            let inside = both_words(mask_at(width, 0), mask_at(width, 1));
            add_wide(&mut self.counts, from, to, pixels, inside, times);
            return agreeing_in_row(row, above, width, offset);
        }
        self.count_row(row, width, least, most);
        self.times = self.times.wrapping_add(times);
        self.last.agreeing(row, above, offset)
    }

    /// Counts a row at the lags from `least` to `most`; if it equals the last row, only records that its counts must be
    /// added once more.
    fn count_row(&mut self, row: &[u8], width: u32, least: u8, most: u8)
        requires lags { (1 ≤ least) × (least < 64) × (most ≤ 127) }
        ensures counts { KeepsCounts self.old.last → CountsRow self.new.last row.now }
        ensures kept { KeepsCounts self.old.last → KeepsCounts self.new.last }
        ensures row { self.new.last.len ≤ 1408 → take self.new.last.len self.new.last.row ≡
            row.now }
        ensures last { (self.new.last.width ≡ width) × (self.new.last.least ≡ least) ×
            (self.new.last.most ≡ most) }
        ensures same { CountsAlike least most self.old self.new }
    {
        if self.last.is_of(row, width, least, most) {
            return;
        }
        add_each(
            &mut self.counts,
            &self.last.agreed,
            self.times,
            usize::from(least),
            usize::from(most) + 1,
        );
        self.times = 0;
        self.last.count(row, width, least, most);
    }

    /// The count at a lag, modulo 2^64.
    fn at(&self, lag: u8) -> u64
        requires { lag ≤ 127 }
        ensures { result ≡ counted_at self.now lag }
    {
        let lag = usize::from(lag);
        self.counts[lag].wrapping_add(self.times.wrapping_mul(self.last.agreed[lag]))
    }

    /// The least lag with the greatest count, if there is a lag that may be chosen.
    pub fn best(&self) -> Option<u8>
        ensures best { (width current : ℕ) (rows : List Lines) →
            CountsLines self.now width current rows →
            result ≡ best_offset rows (candidates (is_two_line self.now) (most_of self.now)) }
        ensures low { IfSome result (λ lag. least_lag (is_two_line self.now) ≤ lag) }
        ensures reach { IfSome result (λ lag. lag ≤ last_lag (is_two_line self.now)
            (most_of self.now) self.now.width) }
    {
        let least = self.least_lag();
        if self.most < u32::from(least) {
            return None;
        }
        let last = self.last_lag(self.width);
        let mut best = least;
        for lag in least + 1..last + 1 {
            if self.at(lag) > self.at(best) {
                best = lag;
            }
        }
        Some(best)
    }

    /// The least lag with the greatest count, if that count exceeds the count at `offset` by more than an eighth of the
    /// number of pixels.
    pub fn choose(&self, offset: u8) -> Option<u8>
        ensures chosen { (width : ℕ) (rows : List Lines) → CountsLines self.now width offset rows
            → result ≡ chosen_offset (is_two_line self.now) (most_of self.now) width rows offset }
        ensures reach { IfSome result (λ lag. lag ≤ most_of self.now) }
    {
        let best = self.best()?;
        let eighth = self.width as u64 * self.rows as u64 / 8;
        let gain = self.at(best).saturating_sub(self.agreeing);
        (gain > eighth).then_some(best)
    }

    /// The least lag to which the adaptive pixel may move: the pixels at smaller lags are in the template.
    fn least_lag(&self) -> u8
        ensures lag { result ≡ least_lag (is_two_line self.now) }
        ensures some { 1 ≤ result }
        ensures small { result ≤ 5 }
    {
        if self.two_line == 1 { 5 } else { 3 }
    }

    /// The last lag that is counted at this width. At each greater lag all pixels are compared with white, as they are
    /// at the lag that equals the width.
    fn last_lag(&self, width: u32) -> u8
        ensures { result ≡ last_lag (is_two_line self.now) (most_of self.now) width }
    {
        let reach = width.max(u32::from(self.least_lag()));
        self.most.min(127).min(reach) as u8
    }
}
