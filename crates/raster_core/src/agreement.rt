//! Counts at how many pixels of a word a row agrees with its adaptive pixel.

ghost use Rattle.std.specs.Prelude.{ℕ, ◌+◌, ◌-◌, ◌*◌, ◌%◌, ◌^◌, ◌≡◌, ◌≤◌, ◌<◌, Bool, IsTrue, slice_index};
ghost use Rattle.std.specs.Int.{div_ceil};
ghost use Rattle.raster_core.specs.Lines.{Lines};
ghost use Rattle.raster_core.specs.Packed.{packed_row};
ghost use Rattle.raster_core.specs.Machine.Words.{word as pixels_word, led, is_within, agreed_from, part_agreement, pixels_from};

use crate::words::{agreed_word, joined, mask_at, word_at};
use std::ops::Range;

/// The 64 pixels that are `lag` to the left of the last of three words.
#[inline(always)]
fn left_by(lag: usize, second: u64, before: u64, word: u64) -> u64
    requires { lag ≤ 127 }
    ensures { (p : ℕ → Bool) (place : ℕ) → second ≡ pixels_word p place 64 →
        before ≡ pixels_word p (place + 64) 64
        → word ≡ pixels_word p (place + 128) 64 → result ≡ pixels_word p (place + 128 - lag) 64 }
{
    if lag < 64 {
        joined(before, word, lag as u32)
    } else {
        joined(second, before, lag as u32 - 64)
    }
}

/// The number of pixels of the mask, in word `k` of a row, that equal the adaptive pixel at `offset`.
pub(crate) fn agreeing_in_word(
    above: &[u8],
    k: usize,
    offset: u8,
    second: u64,
    before: u64,
    word: u64,
    mask: u64,
) -> u64
    requires k { k < 2 ^ 27 }
    requires offset { offset ≤ 127 }
    ensures agreed { (lines : Lines) (width : ℕ) → above.now ≡ packed_row lines.above
        → second ≡ pixels_word (led lines.row) (64 * k) 64 →
        before ≡ pixels_word (led lines.row) (64 * k + 64) 64
        → word ≡ pixels_word (led lines.row) (64 * k + 128) 64 →
        mask ≡ pixels_word (is_within width) (64 * k) 64
        → result ≡ part_agreement lines width offset (64 * k) 64 }
    ensures small { result ≤ 64 }
{
    if offset == 0 {
        agreed_word(
            mask,
            word,
            joined(word_at(above, k + 2), word_at(above, k + 3), 62),
        )
    } else {
        agreed_word(mask, word, left_by(offset as usize, second, before, word))
    }
}

/// Whether the pixels of three words are all white, or all black.
#[inline(always)]
fn is_even(second: u64, before: u64, word: u64) -> bool
    ensures { (p : ℕ → Bool) (place : ℕ) → second ≡ pixels_word p place 64 →
        before ≡ pixels_word p (place + 64) 64
        → word ≡ pixels_word p (place + 128) 64 → IsTrue result → (i : ℕ) → i < 192 →
        p (place + i) ≡ p place }
{
    if second == 0 {
        return before | word == 0;
    }
    second & before & word == u64::MAX
}

/// Counts, at each lag from `least` to `most`, the pixels of a word that equal the pixel `lag` to their left; `second`
/// and `before` are the words to its left. If all three words are white, or all black, the pixels agree at every lag:
/// their number is returned instead of counted.
pub(crate) fn add_word(
    counts: &mut [u64; 128],
    least: usize,
    most: usize,
    second: u64,
    before: u64,
    word: u64,
    mask: u64,
) -> u64
    requires least { 1 ≤ least }
    requires least_small { least < 64 }
    requires most { most ≤ 127 }
    requires room { (lag : ℕ) → slice_index counts.old lag + 128 < 2 ^ 64 }
    ensures counts { (p m : ℕ → Bool) (place c : ℕ) → second ≡ pixels_word p place 64 →
        before ≡ pixels_word p (place + 64) 64 → word ≡ pixels_word p (place + 128) 64 →
        mask ≡ pixels_word m c 64 → (lag : ℕ) → least ≤ lag → lag ≤ most →
        slice_index counts.new lag + result ≡ slice_index counts.old lag +
        agreed_from (pixels_from p (place + 128)) (pixels_from p (place + 128 - lag))
        (pixels_from m c) 64 }
    ensures room { (lag : ℕ) → slice_index counts.new lag + result ≤ slice_index counts.old lag +
        64 }
{
    let end = most + 1;
    if is_even(second, before, word) {
        return u64::from(mask.count_ones());
    }
    if end <= 64 {
        add_lags(counts, least..end, least as u32, before, word, word, mask);
    } else {
        add_lags(counts, least..64, least as u32, before, word, word, mask);
        add_lags(counts, 64..end, 0, second, before, word, mask);
    }
    0
}

/// Counts the pixels of a word at these lags, which are the shifts from `shift` on of the words `first` and `next`.
fn add_lags(
    counts: &mut [u64; 128],
    lags: Range<usize>,
    shift: u32,
    first: u64,
    next: u64,
    word: u64,
    mask: u64,
)
    requires end { lags.end ≤ 128 }
    requires shift { shift < 64 }
    requires fits { lags.end + shift ≤ lags.start + 64 }
    requires room { (lag : ℕ) → slice_index counts.old lag + 64 < 2 ^ 64 }
    ensures counts { (p m : ℕ → Bool) (place a c : ℕ) → first ≡ pixels_word p place 64 →
        next ≡ pixels_word p (place + 64) 64 → word ≡ pixels_word p a 64 →
        mask ≡ pixels_word m c 64 → (lag : ℕ) → lags.start ≤ lag → lag < lags.end →
        slice_index counts.new lag ≡ slice_index counts.old lag + agreed_from (pixels_from p a)
        (pixels_from p (place + 64 + lags.start - (shift + lag))) (pixels_from m c) 64 }
    ensures below { (lag : ℕ) → lag < lags.start →
        slice_index counts.new lag ≡ slice_index counts.old lag }
    ensures above { (lag : ℕ) → lags.end ≤ lag →
        slice_index counts.new lag ≡ slice_index counts.old lag }
    ensures room { (lag : ℕ) → slice_index counts.new lag ≤ slice_index counts.old lag + 64 }
{
    let mut near = joined(first, next, shift);
    let mut far = first >> shift;
    for lag in lags.start..lags.end {
        counts[lag] += agreed_word(mask, word, near);
        near = far << 63 | near >> 1;
        far >>= 1;
    }
}

/// The number of pixels of a row that equal the adaptive pixel at `offset`.
pub(crate) fn agreeing_in_row(row: &[u8], above: &[u8], width: u32, offset: u8) -> u64
    requires offset { offset ≤ 127 }
    ensures agreed { (lines : Lines) → row.now ≡ packed_row lines.row →
        above.now ≡ packed_row lines.above →
        result ≡ part_agreement lines width offset 0 (64 * div_ceil width 64) }
    ensures small { result ≤ 2 ^ 32 }
{
    let words = (width as usize).div_ceil(64);
    let mut agreeing = 0;
    let mut second = 0;
    let mut before = 0;
    for k in 0..words {
        let word = word_at(row, k + 2);
        let mask = mask_at(width, k);
        agreeing += agreeing_in_word(above, k, offset, second, before, word, mask);
        second = before;
        before = word;
    }
    agreeing
}

/// Adds to the counts at the lags from `from` up to `end`, the given number of times, modulo 2^64.
pub(crate) fn add_each(
    counts: &mut [u64; 128],
    more: &[u64; 128],
    times: u64,
    from: usize,
    end: usize,
)
    requires end { end ≤ 128 }
    ensures counts { (lag : ℕ) → from ≤ lag → lag < end → slice_index counts.new lag ≡
        (slice_index counts.old lag + times * slice_index more.now lag) % 2 ^ 64 }
{
    for lag in from..end {
        counts[lag] = counts[lag].wrapping_add(times.wrapping_mul(more[lag]));
    }
}

/// Adds the same number at each lag from `from` up to `end`.
pub(crate) fn add_all(counts: &mut [u64; 128], from: usize, end: usize, more: u64)
    requires end { end ≤ 128 }
    requires room { (lag : ℕ) → slice_index counts.old lag + more < 2 ^ 64 }
    ensures counts { (lag : ℕ) → from ≤ lag → lag < end →
        slice_index counts.new lag ≡ slice_index counts.old lag + more }
{
    for lag in from..end {
        counts[lag] += more;
    }
}
