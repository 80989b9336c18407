//! Computes the contexts of four pixels at once, for the three-line template.

ghost use Rattle.std.specs.Prelude.{ℕ, ◌≡◌, ◌+◌, ◌*◌, ◌^◌, ◌<◌, ◌≤◌, false, true};
ghost use Rattle.raster_core.specs.Machine.Registers.{is_moved};
ghost use Rattle.raster_core.specs.Machine.Lanes.{lane, second_lane, above_lane, moved_above_lane, far_lane, row_lane, near, HasAround, HasFar, HasPixels};
ghost use Rattle.raster_core.specs.Machine.Lanes.{AreBeside};

use crate::shape::Shape;

/// A window times this is in four lanes of 16 bits, shifted left by one more bit in each.
const STEPS: u64 = 0x0008_0004_0002_0001;

/// The contribution of six pixels of the row two above to four contexts: three pixels each.
macro_rules! second_table {
    ($($window:literal)*) => { [$(($window * STEPS) << 4 & 0x0380_0380_0380_0380),*] };
}

/// The contribution of eight pixels of the row above to four contexts: five pixels each.
macro_rules! above_table {
    ($($window:literal)*) => { [$(($window * STEPS) >> 1 & 0x007C_007C_007C_007C),*] };
}

/// The contribution of seven pixels of the row above to four contexts, if the adaptive pixel has moved: four pixels
/// each.
macro_rules! moved_above_table {
    ($($window:literal)*) => { [$(($window * STEPS) & 0x0078_0078_0078_0078),*] };
}

/// The contribution of four adaptive pixels to four contexts.
macro_rules! far_table {
    ($($window:literal)*) => { [$(($window * STEPS) >> 1 & 0x0004_0004_0004_0004),*] };
}

/// Four of six pixels of a row, each with the two before it.
macro_rules! row_table {
    ($($window:literal)*) => { [$(($window * STEPS) >> 3 & 0x0007_0007_0007_0007),*] };
}

static SECOND_LANES: [u64; 64] = second_table!(
    0 1 2 3 4 5 6 7 8 9 10 11 12 13 14 15 16 17 18 19 20 21 22 23
    24 25 26 27 28 29 30 31 32 33 34 35 36 37 38 39 40 41 42 43 44 45 46 47
    48 49 50 51 52 53 54 55 56 57 58 59 60 61 62 63
);

static ABOVE_LANES: [u64; 256] = above_table!(
    0 1 2 3 4 5 6 7 8 9 10 11 12 13 14 15 16 17 18 19 20 21 22 23
    24 25 26 27 28 29 30 31 32 33 34 35 36 37 38 39 40 41 42 43 44 45 46 47
    48 49 50 51 52 53 54 55 56 57 58 59 60 61 62 63 64 65 66 67 68 69 70 71
    72 73 74 75 76 77 78 79 80 81 82 83 84 85 86 87 88 89 90 91 92 93 94 95
    96 97 98 99 100 101 102 103 104 105 106 107 108 109 110 111 112 113 114 115 116 117 118 119
    120 121 122 123 124 125 126 127 128 129 130 131 132 133 134 135 136 137 138 139 140 141 142 143
    144 145 146 147 148 149 150 151 152 153 154 155 156 157 158 159 160 161 162 163 164 165 166 167
    168 169 170 171 172 173 174 175 176 177 178 179 180 181 182 183 184 185 186 187 188 189 190 191
    192 193 194 195 196 197 198 199 200 201 202 203 204 205 206 207 208 209 210 211 212 213 214 215
    216 217 218 219 220 221 222 223 224 225 226 227 228 229 230 231 232 233 234 235 236 237 238 239
    240 241 242 243 244 245 246 247 248 249 250 251 252 253 254 255
);

static MOVED_ABOVE_LANES: [u64; 128] = moved_above_table!(
    0 1 2 3 4 5 6 7 8 9 10 11 12 13 14 15 16 17 18 19 20 21 22 23
    24 25 26 27 28 29 30 31 32 33 34 35 36 37 38 39 40 41 42 43 44 45 46 47
    48 49 50 51 52 53 54 55 56 57 58 59 60 61 62 63 64 65 66 67 68 69 70 71
    72 73 74 75 76 77 78 79 80 81 82 83 84 85 86 87 88 89 90 91 92 93 94 95
    96 97 98 99 100 101 102 103 104 105 106 107 108 109 110 111 112 113 114 115 116 117 118 119
    120 121 122 123 124 125 126 127
);

static FAR_LANES: [u64; 16] = far_table!(0 1 2 3 4 5 6 7 8 9 10 11 12 13 14 15);

static ROW_LANES: [u64; 64] = row_table!(
    0 1 2 3 4 5 6 7 8 9 10 11 12 13 14 15 16 17 18 19 20 21 22 23
    24 25 26 27 28 29 30 31 32 33 34 35 36 37 38 39 40 41 42 43 44 45 46 47
    48 49 50 51 52 53 54 55 56 57 58 59 60 61 62 63
);

/// The lanes of a window of six pixels of the row two above.
#[inline(always)]
fn second_lanes(window: u32) -> u64
    requires { window < 64 }
    ensures lanes { (j : ℕ) → j < 4 → lane result j ≡ second_lane window j }
    ensures small { result ≤ 2 ^ 58 }
{
    SECOND_LANES[window as usize]
}

/// The lanes of a window of eight pixels of the row above.
#[inline(always)]
fn above_lanes(window: u32) -> u64
    requires { window < 256 }
    ensures lanes { (j : ℕ) → j < 4 → lane result j ≡ above_lane window j }
    ensures small { result ≤ 2 ^ 58 }
{
    ABOVE_LANES[window as usize]
}

/// The lanes of a window of seven pixels of the row above.
#[inline(always)]
fn moved_above_lanes(window: u32) -> u64
    requires { window < 128 }
    ensures lanes { (j : ℕ) → j < 4 → lane result j ≡ moved_above_lane window j }
    ensures small { result ≤ 2 ^ 58 }
{
    MOVED_ABOVE_LANES[window as usize]
}

/// The lanes of four adaptive pixels.
#[inline(always)]
fn far_lanes(window: u32) -> u64
    requires { window < 16 }
    ensures lanes { (j : ℕ) → j < 4 → lane result j ≡ far_lane window j }
    ensures small { result ≤ 2 ^ 58 }
{
    FAR_LANES[window as usize]
}

/// The lanes of a window of six pixels of the row.
#[inline(always)]
fn row_lanes(window: u32) -> u64
    requires { window < 64 }
    ensures lanes { (j : ℕ) → j < 4 → lane result j ≡ row_lane window j }
    ensures small { result ≤ 2 ^ 58 }
{
    ROW_LANES[window as usize]
}

/// The lanes of windows of both rows above.
#[inline(always)]
fn both_lanes(second_window: u32, above_window: u32) -> u64
    requires second { second_window < 64 }
    requires above { above_window < 256 }
    ensures lanes { (j : ℕ) → j < 4 →
        lane result j ≡ second_lane second_window j + above_lane above_window j }
    ensures small { result ≤ 2 ^ 59 }
{
    second_lanes(second_window) + above_lanes(above_window)
}

/// The lanes of windows of both rows above and of adaptive pixels.
#[inline(always)]
fn moved_lanes(second_window: u32, above_window: u32, far_window: u32) -> u64
    requires second { second_window < 64 }
    requires above { above_window < 128 }
    requires far { far_window < 16 }
    ensures lanes { (j : ℕ) → j < 4 → lane result j ≡ second_lane second_window j +
        moved_above_lane above_window j + far_lane far_window j }
    ensures small { result ≤ 2 ^ 60 }
{
    second_lanes(second_window) + moved_above_lanes(above_window) + far_lanes(far_window)
}

/// These lanes doubled, plus the lanes of a window of the row.
#[inline(always)]
fn moved_pixel_lanes(second_window: u32, above_window: u32, far_window: u32, row_window: u32) -> u64
    requires second { second_window < 64 }
    requires above { above_window < 128 }
    requires far { far_window < 16 }
    requires row { row_window < 64 }
    ensures { (j : ℕ) → j < 4 → lane result j ≡
        2 * (second_lane second_window j + moved_above_lane above_window j + far_lane far_window j)
        + row_lane row_window j }
{
    let moved = moved_lanes(second_window, above_window, far_window);
    moved + moved + row_lanes(row_window)
}

/// The lanes of windows of both rows above, doubled, plus the lanes of a window of the row.
#[inline(always)]
fn pixel_lanes(second_window: u32, above_window: u32, row_window: u32) -> u64
    requires second { second_window < 64 }
    requires above { above_window < 256 }
    requires row { row_window < 64 }
    ensures { (j : ℕ) → j < 4 → lane result j ≡
        2 * (second_lane second_window j + above_lane above_window j) + row_lane row_window j }
{
    let both = both_lanes(second_window, above_window);
    both + both + row_lanes(row_window)
}

/// The contribution of the rows above to the contexts of a byte's first four pixels.
#[inline(always)]
pub(crate) fn first_around(second_bytes: u32, above_bytes: u32) -> u64
    ensures { HasAround result second_bytes above_bytes 0 4 }
{
    both_lanes((second_bytes >> 11) % 64, (above_bytes >> 10) % 256)
}

/// The same for its last four pixels.
#[inline(always)]
pub(crate) fn last_around(second_bytes: u32, above_bytes: u32) -> u64
    ensures { HasAround result second_bytes above_bytes 4 4 }
{
    both_lanes((second_bytes >> 7) % 64, (above_bytes >> 6) % 256)
}

/// The moved adaptive pixels for a byte's eight pixels, the first in the most significant bit.
#[inline(always)]
fn far_pixels(offset: u8, past: u128, byte: u8) -> u32
    requires some { 1 ≤ offset }
    requires offset { offset ≤ 127 }
    ensures { HasFar result offset past byte }
{
    if offset < 8 {
        ((past % 256) as u32 * 256 + byte as u32) >> offset
    } else {
        ((past >> (offset - 8)) % 256) as u32
    }
}

/// The same if the adaptive pixel has moved, otherwise 0.
#[inline(always)]
pub(crate) fn far_of<const MOVED: bool>(offset: u8, past: u128, byte: u8) -> u32
    requires offset { offset ≤ 127 }
    requires moved { MOVED ≡ is_moved offset }
    ensures { (second above : ℕ) →
        AreBeside (near MOVED second above result) offset second above byte past }
{
    if MOVED {
        far_pixels(offset, past, byte)
    } else {
        0
    }
}

/// For each of a byte's first four pixels, twice its context plus the pixel. `row` contains the byte and the one before
/// it, and `far` the adaptive pixels if they have moved.
#[inline(always)]
pub(crate) fn first_pixels<const MOVED: bool>(
    second_bytes: u32,
    above_bytes: u32,
    far: u32,
    row: u32,
) -> u64
    ensures { HasPixels result (near MOVED second_bytes above_bytes far) row 0 4 }
{
    let second_window = (second_bytes >> 11) % 64;
    let row_window = (row >> 4) % 64;
    if MOVED {
        let above_window = (above_bytes >> 11) % 128;
        return moved_pixel_lanes(second_window, above_window, (far >> 4) % 16, row_window);
    }
    pixel_lanes(second_window, (above_bytes >> 10) % 256, row_window)
}

/// The same for its last four pixels.
#[inline(always)]
pub(crate) fn last_pixels<const MOVED: bool>(
    second_bytes: u32,
    above_bytes: u32,
    far: u32,
    row: u32,
) -> u64
    ensures { HasPixels result (near MOVED second_bytes above_bytes far) row 4 4 }
{
    let second_window = (second_bytes >> 7) % 64;
    if MOVED {
        let above_window = (above_bytes >> 7) % 128;
        return moved_pixel_lanes(second_window, above_window, far % 16, row % 64);
    }
    pixel_lanes(second_window, (above_bytes >> 6) % 256, row % 64)
}

/// Whether pixels are coded with the three-line template and the adaptive pixel in its nominal position.
#[inline(always)]
pub(crate) fn has_lanes<const TWO_LINE: bool, const MOVED: bool>(shape: Shape, offset: u8) -> bool
    requires template { TWO_LINE ≡ shape.two_line }
    requires moved { MOVED ≡ is_moved offset }
    ensures three { result ≡ true → shape.two_line ≡ false }
    ensures nominal { result ≡ true → offset ≡ 0 }
{
    !TWO_LINE && !MOVED
}
