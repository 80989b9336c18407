//! Rows of pixels as words of 64, the first pixel in the most significant bit.

ghost use Rattle.std.specs.Prelude.{ℕ, ◌+◌, ◌-◌, ◌*◌, ◌^◌, ◌≡◌, ◌≤◌, ◌<◌, Bool, List};
ghost use Rattle.raster_core.specs.Packed.{packed_row};
ghost use Rattle.raster_core.specs.Machine.Words.{word, led, is_within, agreed_from, pixels_from};

/// The word at `place` of a row that is preceded by two white words. After its bytes, the row is white.
pub(crate) fn word_at(row: &[u8], place: usize) -> u64
    requires { place < 2 ^ 32 }
    ensures { (line : List Bool) → row.now ≡ packed_row line →
        result ≡ word (led line) (64 * place) 64 }
{
    if place < 2 {
        return 0;
    }
    let first = 8 * (place - 2);
    let mut word: u64 = 0;
    if first + 8 <= row.len() {
        'inside: for i in 0..8usize {
            word = word << 8 | u64::from(row[first + i]);
        }
    } else if first < row.len() {
        let count = row.len() - first;
        'across: for i in 0..count {
            word = word << 8 | u64::from(row[first + i]);
        }
        word <<= 8 * (8 - count);
    }
    word
}

/// Which pixels of the word at `place` are to the left of `width`.
pub(crate) fn mask_at(width: u32, place: usize) -> u64
    requires { place < 2 ^ 32 }
    ensures { result ≡ word (is_within width) (64 * place) 64 }
{
    let first = 64 * place;
    let end = width as usize;
    if first + 64 <= end {
        u64::MAX
    } else if end <= first {
        0
    } else {
        u64::MAX << (64 - (end - first))
    }
}

/// The 64 pixels that end `shift` pixels before the end of two words.
#[inline(always)]
pub(crate) fn joined(first: u64, second: u64, shift: u32) -> u64
    requires { shift < 64 }
    ensures { (p : ℕ → Bool) (place : ℕ) → first ≡ word p place 64 → second ≡ word p (place + 64) 64
        → result ≡ word p (place + 64 - shift) 64 }
{
    first << 1 << (63 - shift) | second >> shift
}

/// The number of pixels in the mask that are the same in both words.
#[inline(always)]
pub(crate) fn agreed_word(mask: u64, one: u64, other: u64) -> u64
    ensures agreed { (p q m : ℕ → Bool) (a b c : ℕ) → one ≡ word p a 64 → other ≡ word q b 64 →
        mask ≡ word m c 64 → result ≡ agreed_from (pixels_from p a) (pixels_from q b)
        (pixels_from m c) 64 }
    ensures small { result ≤ 64 }
{
    u64::from((mask & !(one ^ other)).count_ones())
}
