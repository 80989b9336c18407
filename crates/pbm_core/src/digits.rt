//! Finds the pixels of the plain form among buffered bytes.

ghost use Rattle.std.specs.Prelude.{◌≤◌, IfSome};
ghost use Rattle.pbm_core.specs.Private.{MakeByte, FindsPixels};

use crate::header_reader::is_white;
use crate::rows::pixel_of;

/// A word of eight digits 0.
const ZEROS: u64 = 0x3030_3030_3030_3030;
/// The bits that are the same in both digits.
const SAME_BITS: u64 = 0xfefe_fefe_fefe_fefe;
/// Multiplying a word of eight bytes 0 or 1 by this gathers their bits in the highest byte.
const GATHER: u64 = 0x0102_0408_1020_4080;

/// The place where pixels end among bytes, and the byte into which they are packed.
#[derive(Clone, Copy)]
pub(crate) struct Found {
    pub(crate) end: usize,
    pub(crate) byte: u8,
}

/// Finds the next pixels, up to eight, if all of them are among these bytes.
#[inline(always)]
pub(crate) fn find_pixels(bytes: &[u8], count: u32) -> Option<Found>
    requires some { 1 ≤ count }
    requires few { count ≤ 8 }
    ensures { IfSome result (FindsPixels count bytes.now) }
{
    if let Some(byte) = eight_digits(bytes, count) {
        return Some(Found { end: 8, byte });
    }
    find_each(bytes, count)
}

/// The byte of eight pixels, if their digits are adjacent.
#[inline(always)]
fn eight_digits(bytes: &[u8], count: u32) -> Option<u8>
    requires { count ≤ 8 }
    ensures { IfSome result (λ byte. FindsPixels count bytes.now
        (record { end = 8; byte = byte })) }
{
    if count < 8 {
        return None;
    }
    match bytes.first_chunk::<8>() {
        Some(digits) => gathered(digits),
        None => None,
    }
}

/// The byte into which eight digits are packed.
#[inline(always)]
fn gathered(digits: &[u8; 8]) -> Option<u8>
    ensures { IfSome result (MakeByte 8 digits.now) }
{
    let word = u64::from_be_bytes(*digits);
    if word & SAME_BITS != ZEROS {
        return None;
    }
    Some(((word - ZEROS).wrapping_mul(GATHER) >> 56) as u8)
}

/// Finds pixels one by one, each preceded by any white space.
fn find_each(bytes: &[u8], count: u32) -> Option<Found>
    requires some { 1 ≤ count }
    requires few { count ≤ 8 }
    ensures { IfSome result (FindsPixels count bytes.now) }
{
    let mut left = count;
    let mut made = 0u8;
    let mut end = 0;
    'bytes: while end < bytes.len() {
        let byte = bytes[end];
        end += 1;
        match pixel_of(byte) {
            Some(black) => {
                made = made * 2 + u8::from(black);
                left -= 1;
                if left == 0 {
                    let byte = made << (8 - count);
                    return Some(Found { end, byte });
                }
            }
            None => {
                if !is_white(byte) {
                    return None;
                }
            }
        }
    }
    None
}
