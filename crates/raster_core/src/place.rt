//! The position in a row at which decoding stopped for lack of code bytes.

ghost use Rattle.std.specs.Prelude.{◌≡◌, ◌+◌, ◌*◌, ◌/◌, ◌%◌, ◌^◌, ◌<◌, List, Bool, Some, IfSome, false, true};
ghost use Rattle.raster_core.specs.Packed.{packed_row};
ghost use Rattle.raster_core.specs.Machine.Registers.{before};

use crate::bytes::byte_at;

/// The source of a code stopped after `count` pixels of a byte; `past` contains the last pixels before that position.
#[derive(Clone, Copy)]
pub(crate) struct Pause {
    pub(crate) count: u32,
    pub(crate) past: u128,
}

/// How far a row is decoded, if its code may not have arrived completely.
#[derive(Clone, Copy)]
pub struct RowPlace {
    /// Whether its pixels have begun: the pseudo-pixel before them is decoded.
    pub(crate) is_begun: bool,
    /// The number of pixels decoded.
    pub(crate) done: u32,
    /// The last pixels decoded, the most recent in the least significant bit.
    pub(crate) past: u128,
}

/// How far a row is decoded, as numbers that anyone may store.
#[repr(C)]
#[derive(Clone, Copy, PartialEq, Eq, Debug)]
pub struct RowPlaceNumbers {
    /// Whether its pixels have begun, 0 or 1: the pseudo-pixel before them is decoded.
    pub is_begun: u8,
    /// The number of pixels decoded.
    pub done: u32,
    /// The last 128 pixels decoded, one bit each, the most recent in the least significant bit: the upper 64.
    pub past_high: u64,
    /// The lower 64.
    pub past_low: u64,
}

impl RowPlace {
    ghost use Rattle.raster_core.specs.Row.{row_place_numbers};

    /// The beginning of a row.
    pub fn start() -> RowPlace
        ensures none { result.is_begun ≡ false }
        ensures done { result.done ≡ 0 }
        ensures past { result.past ≡ 0 }
    {
        RowPlace {
            is_begun: false,
            done: 0,
            past: 0,
        }
    }

    /// The number of pixels of the row that are decoded.
    pub fn done(&self) -> u32
        ensures { result ≡ self.now.done }
    {
        self.done
    }

    /// The position as numbers.
    pub fn numbers(&self) -> RowPlaceNumbers
        ensures { result ≡ row_place_numbers self.now }
    {
        RowPlaceNumbers {
            is_begun: u8::from(self.is_begun),
            done: self.done,
            past_high: (self.past >> 64) as u64,
            past_low: (self.past % 0x1_0000_0000_0000_0000) as u64,
        }
    }

    /// The position that has these numbers, if there is one.
    pub fn from_numbers(numbers: RowPlaceNumbers) -> Option<RowPlace>
        ensures same { (place : RowPlace) → numbers ≡ row_place_numbers place →
            result ≡ Some place }
        ensures is { IfSome result (λ place. row_place_numbers place ≡ numbers) }
    {
        if numbers.is_begun > 1 {
            return None;
        }
        let high = u128::from(numbers.past_high);
        Some(RowPlace {
            is_begun: numbers.is_begun == 1,
            done: numbers.done,
            past: high * 0x1_0000_0000_0000_0000 + u128::from(numbers.past_low),
        })
    }

    /// The position after `done` pixels of a row; `past` contains the last of them.
    pub(crate) fn behind(done: u32, past: u128) -> RowPlace
        ensures begun { result.is_begun ≡ true }
        ensures done { result.done ≡ done }
        ensures past { result.past ≡ past }
    {
        RowPlace {
            is_begun: true,
            done,
            past,
        }
    }

    /// The position within byte i of a row at which the source stopped.
    pub(crate) fn within(i: usize, pause: Pause) -> RowPlace
        requires { 8 * i + pause.count < 2 ^ 32 }
        ensures begun { result.is_begun ≡ true }
        ensures done { result.done ≡ 8 * i + pause.count }
        ensures past { result.past ≡ pause.past }
    {
        RowPlace::behind(8 * i as u32 + pause.count, pause.past)
    }
}

/// Byte i of a row and the two bytes before it.
pub(crate) fn register_at(bytes: &[u8], i: usize) -> u32
    ensures is { (row : List Bool) → bytes.now ≡ packed_row row →
        result ≡ before row (8 * i + 8) 24 }
    ensures small { result < 2 ^ 24 }
{
    let near = byte_at(bytes, i);
    if i == 0 {
        return near;
    }
    let middle = byte_at(bytes, i - 1);
    if i == 1 {
        return middle * 256 + near;
    }
    let far = byte_at(bytes, i - 2);
    far * 0x1_0000 + middle * 256 + near
}

/// The 24 pixels of a row that end with the fifteenth after the one at x.
pub(crate) fn around_at(bytes: &[u8], x: u32) -> u32
    ensures is { (row : List Bool) → bytes.now ≡ packed_row row → result ≡ before row (x + 16) 24 }
    ensures small { result < 2 ^ 24 }
{
    let i = (x / 8) as usize;
    let shift = x % 8;
    let register = register_at(bytes, i + 1);
    let next = byte_at(bytes, i + 2);
    ((register << shift) % 0x100_0000 + (next >> (8 - shift))) % 0x100_0000
}
