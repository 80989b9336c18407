//! Three rows of pixels in one caller-supplied slice.

ghost use Rattle.std.specs.Prelude.{◌≡◌, ℕ, ◌+◌, ◌*◌, ◌<◌, ◌≤◌, List, length, slice_range};
ghost use Rattle.std.specs.Int.{div_ceil};
ghost use Rattle.raster_core.specs.Packed.{row_placed, row_bytes, with_part, rows_at, with_current, next_place};

use crate::rows::Rows;
use std::ops::Range;

/// The number of bytes in the three rows of a window.
pub fn window_bytes(width: u32) -> usize
    ensures { result ≡ 3 * div_ceil width 8 }
{
    3 * width.div_ceil(8) as usize
}

/// The range of the current row in the bytes of a window, if it is at this place.
#[inline(always)]
pub fn current_row(width: u32, place: u8) -> Range<usize>
    requires { place < 3 }
    ensures start { result.start ≡ place * div_ceil width 8 }
    ensures end { result.end ≡ place * div_ceil width 8 + div_ceil width 8 }
    ensures inside { result.end ≤ 3 * div_ceil width 8 }
    ensures row { (bytes : List ℕ) → length bytes ≡ 3 * div_ceil width 8 →
        slice_range bytes result.start result.end ≡ (rows_at place width bytes).current }
    ensures put { (bytes row : List ℕ) → length bytes ≡ 3 * div_ceil width 8 →
        length row ≡ div_ceil width 8 →
        rows_at place width (with_part result.start result.end bytes row)
        ≡ with_current (rows_at place width bytes) row }
{
    let long = width.div_ceil(8) as usize;
    let start = place as usize * long;
    start..start + long
}

/// A row and the two rows above it, one bit per pixel, the first pixel in the most significant bit, at three places of
/// one caller-supplied slice.
#[derive(Drop)]
pub struct Window<'a> {
    /// The three rows. Code that writes here must leave padding bits 0.
    pub rows: &'a mut [u8],
    /// The place of the current row. The row above is at the next place, and the row two above at the place after that,
    /// in a ring.
    pub(crate) place: u8,
    width: u32,
    ghost long: { length rows.now ≡ 3 * div_ceil width 8 },
    ghost within: { place < 3 },
}

/// The next of the three places.
fn next_place(place: u8) -> u8
    requires { place < 3 }
    ensures { result ≡ next_place place }
{
    if place == 2 { 0 } else { place + 1 }
}

/// The row at a place.
#[inline(always)]
fn row_placed(rows: &[u8], width: u32, place: u8) -> &[u8]
    requires long { length rows.now ≡ 3 * div_ceil width 8 }
    requires place { place < 3 }
    ensures { result.now ≡ row_placed (row_bytes width) rows.now place }
{
    &rows[current_row(width, place)]
}

impl<'a> Window<'a> {
    ghost use Rattle.raster_core.specs.Packed.{HasLines, row_of, white_lines};
    ghost use Rattle.raster_core.specs.Window.{held, width_of, current_place, memory_of, turned, repeated};
    ghost use Rattle.raster_core.specs.Machine.Rows.{held_in};

    /// A window over `window_bytes` bytes, with all three rows white.
    pub fn over(bytes: &'a mut [u8], width: u32) -> Window<'a>
        requires { length bytes.old ≡ 3 * div_ceil width 8 }
        ensures width { width_of result ≡ width }
        ensures white { HasLines (held result) (white_lines width) }
        ensures same_reference { memory_of result ≡ bytes.entry.ghost_name }
        ensures first { current_place result ≡ 0 }
    {
        let mut window = Window {
            rows: bytes,
            place: 0,
            width,
        };
        window.clear();
        window
    }

    /// A window over the rows that an earlier window of this width left, with the current row at this place.
    pub fn resume(bytes: &'a mut [u8], width: u32, place: u8) -> Window<'a>
        requires long { length bytes.old ≡ 3 * div_ceil width 8 }
        requires place { place < 3 }
        ensures held { held result ≡ rows_at place width bytes.old }
        ensures width { width_of result ≡ width }
        ensures place { current_place result ≡ place }
        ensures same_reference { memory_of result ≡ bytes.entry.ghost_name }
    {
        let rows = bytes;
        Window { rows, place, width }
    }

    /// The width in pixels.
    pub fn width(&self) -> u32
        ensures { result ≡ width_of self.now }
    {
        self.width
    }

    /// The place of the current row: 0, 1 or 2.
    pub fn place(&self) -> u8
        ensures place { result ≡ current_place self.now }
        ensures within { result < 3 }
    {
        self.place
    }

    /// Row 0 is the current row, row 1 the one above it, and row 2 the one above that.
    #[inline(always)]
    pub fn row(&self, k: u8) -> &[u8]
        requires { k ≤ 2 }
        ensures { result.now ≡ row_of (held self.now) k }
    {
        let above = next_place(self.place);
        let place = match k {
            0 => self.place,
            1 => above,
            _ => next_place(above),
        };
        row_placed(&*self.rows, self.width, place)
    }

    /// The current row and the two above it.
    #[inline(always)]
    pub(crate) fn rows(&self) -> Rows<'_>
        ensures { held_in result ≡ held self.now }
    {
        let above = next_place(self.place);
        let second = next_place(above);
        Rows {
            current: row_placed(&*self.rows, self.width, self.place),
            above: row_placed(&*self.rows, self.width, above),
            second: row_placed(&*self.rows, self.width, second),
            width: self.width,
        }
    }

    /// Moves down one row: the new rows 0, 1 and 2 are the old rows 2, 0 and 1. The current row must then be
    /// overwritten.
    pub fn turn(&mut self)
        ensures turned { held self.new ≡ turned (held self.old) }
        ensures place { current_place self.new ≡ next_place (next_place (current_place self.old)) }
        ensures same_memory { memory_of self.new ≡ memory_of self.old }
    {
        self.place = if self.place == 0 { 2 } else { self.place - 1 };
    }

    /// Moves down one row, to a row that equals the current one.
    pub fn repeat(&mut self)
        ensures repeated { held self.new ≡ repeated (held self.old) }
        ensures place { current_place self.new ≡ next_place (next_place (current_place self.old)) }
        ensures same_memory { memory_of self.new ≡ memory_of self.old }
    {
        let above = current_row(self.width, self.place);
        self.turn();
        let current = current_row(self.width, self.place);
        self.rows.copy_within(above, current.start);
    }

    /// Makes all three rows white.
    pub fn clear(&mut self)
        ensures width { width_of self.new ≡ width_of self.old }
        ensures white { HasLines (held self.new) (white_lines (width_of self.old)) }
        ensures same_place { current_place self.new ≡ current_place self.old }
        ensures same_memory { memory_of self.new ≡ memory_of self.old }
    {
        self.rows.fill(0);
    }
}
