//! Counts rows of at most 64 pixels, each of which is one word, and rows of at most 128 pixels, of two words.

ghost use Rattle.std.specs.Prelude.{ℕ, ◌+◌, ◌*◌, ◌%◌, ◌^◌, ◌≡◌, ◌≤◌, ◌<◌, Bool, slice_index};
ghost use Rattle.raster_core.specs.Lines.{Lines};
ghost use Rattle.raster_core.specs.Machine.Words.{word as pixels_word, led, is_within, agreed_from, part_agreement, pixels_from};

use crate::words::{agreed_word, joined};

/// Adds to the counts at the lags from `least` to `most`, modulo 2^64, the given number of times the pixels of a row of
/// one word that equal the pixel `lag` to their left.
#[inline(always)]
pub(crate) fn add_narrow(
    counts: &mut [u64; 128],
    least: usize,
    most: usize,
    word: u64,
    mask: u64,
    times: u64,
)
    requires least { least < 64 }
    requires some { 1 ≤ least }
    requires most { most ≤ 127 }
    ensures counts { (lines : Lines) (width : ℕ) → word ≡ pixels_word (led lines.row) 128 64 →
        mask ≡ pixels_word (is_within width) 0 64 → (lag : ℕ) → least ≤ lag → lag ≤ most →
        slice_index counts.new lag ≡ (slice_index counts.old lag +
        times * part_agreement lines width lag 0 64) % 2 ^ 64 }
{
    let mut near = joined(0, word, least as u32);
    for lag in least..most + 1 {
        let agreed = agreed_word(mask, word, near);
        counts[lag] = counts[lag].wrapping_add(times.wrapping_mul(agreed));
        near >>= 1;
    }
}

/// Two words, one after the other.
#[inline(always)]
pub(crate) fn both_words(first: u64, second: u64) -> u128
    ensures { (p : ℕ → Bool) (place : ℕ) → first ≡ pixels_word p place 64 →
        second ≡ pixels_word p (place + 64) 64 → result ≡ pixels_word p place 128 }
{
    u128::from(first) << 64 | u128::from(second)
}

/// The number of pixels in the mask that are the same in both.
#[inline(always)]
fn agreed_wide(mask: u128, one: u128, other: u128) -> u64
    ensures { (p q m : ℕ → Bool) (a b c : ℕ) → one ≡ pixels_word p a 128 →
        other ≡ pixels_word q b 128 → mask ≡ pixels_word m c 128 → result ≡
        agreed_from (pixels_from p a) (pixels_from q b) (pixels_from m c) 128 }
{
    u64::from((mask & !(one ^ other)).count_ones())
}

/// The same as `add_narrow` for a row of two words.
#[inline(never)]
pub(crate) fn add_wide(
    counts: &mut [u64; 128],
    least: usize,
    most: usize,
    pixels: u128,
    mask: u128,
    times: u64,
)
    requires least { least < 64 }
    requires some { 1 ≤ least }
    requires most { most ≤ 127 }
    ensures counts { (lines : Lines) (width : ℕ) → pixels ≡ pixels_word (led lines.row) 128 128 →
        mask ≡ pixels_word (is_within width) 0 128 → (lag : ℕ) → least ≤ lag → lag ≤ most →
        slice_index counts.new lag ≡ (slice_index counts.old lag +
        times * part_agreement lines width lag 0 128) % 2 ^ 64 }
{
    let mut left = pixels >> least;
    for lag in least..most + 1 {
        let same = agreed_wide(mask, pixels, left);
        counts[lag] = counts[lag].wrapping_add(times.wrapping_mul(same));
        left >>= 1;
    }
}
