//! Chooses the offset of the adaptive pixel for the next stripe as JBIG-KIT does.

ghost use Rattle.std.specs.Prelude.{◌≡◌};
ghost use Rattle.raster_core.specs.Choice.{leads};

use crate::columns::{Columns, count_columns, is_same};
use crate::shape::Shape;

/// The number of pixels after which no further row of a stripe is counted.
const ENOUGH: u32 = 2048;
/// The greatest width of an image.
const MOST_WIDTH: u32 = 1 << 20;

/// For each lag that may be chosen, the number of counted pixels of a stripe that equal the pixel `lag` to their left.
/// It consists of plain numbers, and may be in caller-supplied memory with arbitrary contents: its numbers are then
/// meaningless, and every call is safe.
#[repr(C)]
#[derive(Drop)]
pub struct Choice {
    /// The counts. The first is that of the nominal position.
    counts: [u32; 128],
    /// The width of the image; a value above 1048576 counts as 1048576.
    width: u32,
    /// The number of pixels counted.
    pixels: u32,
    /// Not 0 for the two-line template.
    two_line: u8,
    /// Not 0 with typical prediction.
    typical: u8,
    /// The greatest lag that may be chosen; a value above 127 counts as 127.
    most: u8,
    /// Not 0 if the offset is reset after each stripe.
    reset: u8,
}

/// The counts of the lags on which a choice depends.
#[derive(Clone, Copy)]
struct Extremes {
    best: u32,
    worst: u32,
}

impl Choice {
    ghost use Rattle.std.specs.Prelude.{ℕ, ◌+◌, ◌-◌, ◌^◌, ◌≡◌, ◌≤◌, ◌<◌, ◌%◌, [], ◌∷◌, ◌++◌, List, map, min, Some, true, if◌then◌else◌};
    ghost use Rattle.raster_core.specs.Choice.{PixelCounts, counting_with, first_best, greatest_of, is_worth, kit_offset, least_of};
    ghost use Rattle.raster_core.specs.Counting.{AddsAt, AreLines, HasCounted, HasCounts, counting_of, counts_in, fit_lines, is_offered, is_reset};
    ghost use Rattle.raster_core.specs.Lines.{Lines, may_be_typical};
    ghost use Rattle.raster_core.specs.Offset.{candidates};
    ghost use Rattle.raster_core.specs.Tally.{least_lag};
    ghost use Rattle.raster_core.specs.Window.{shape_mode};

    /// A choice with no row counted. The lags that may be chosen are those from 5 (two-line template) or 3 (three-line
    /// template) to `most`; a value above 127 counts as 127, and a width above 1048576 as 1048576. `reset` says whether
    /// each stripe ends in SDRST, after which the adaptive pixel is in its nominal position.
    pub fn new(shape: Shape, most: u8, reset: bool) -> Choice
        ensures counting { counting_of result ≡
            counting_with (shape_mode shape) (min most 127) (min shape.width (2 ^ 20)) }
        ensures reset { is_reset result ≡ reset }
        ensures counted { HasCounted result [] }
    {
        Choice {
            counts: [0; 128],
            width: shape.width,
            pixels: 0,
            two_line: u8::from(shape.two_line),
            typical: u8::from(shape.typical),
            most,
            reset: u8::from(reset),
        }
    }

    /// Begins the next stripe: resets all counts, whatever they were.
    pub fn restart(&mut self)
        ensures counting { counting_of self.new ≡ counting_of self.old }
        ensures reset { is_reset self.new ≡ is_reset self.old }
        ensures counted { HasCounted self.new [] }
    {
        self.counts = [0; 128];
        self.pixels = 0;
    }

    /// Counts the next row of a stripe, which is below the row `above`: white at the top of an image and after a reset.
    /// Both may have any padding; missing bytes are white. A typical row is not counted, and no row once more than
    /// 2,048 pixels have been.
    pub fn count_row(&mut self, row: &[u8], above: &[u8])
        ensures counted { (stripe : List Lines) (lines : Lines) → HasCounted self.old stripe →
            AreLines row.now above.now lines → HasCounted self.new
            (stripe ++ fit_lines (counting_of self.old).width lines ∷ []) }
        ensures counting { counting_of self.new ≡ counting_of self.old }
        ensures reset { is_reset self.new ≡ is_reset self.old }
    {
        if self.pixels > ENOUGH {
            return;
        }
        let columns = self.columns();
        if columns.end <= columns.first {
            return;
        }
        if self.is_typical(row, above) {
            return;
        }
        self.add_row(row, above, columns);
    }

    /// The offset of the adaptive pixel for the next stripe, after a stripe that was coded at the offset `current`: 0 is
    /// the nominal position.
    pub fn offset(&self, current: u8) -> u8
        ensures chosen { (stripe : List Lines) → HasCounted self.now stripe →
            is_offered (counting_of self.now) current ≡ true →
            result ≡ kit_offset (counting_of self.now) (is_reset self.now) stripe current }
        ensures offered { is_offered (counting_of self.now) current ≡ true →
            is_offered (counting_of self.now) result ≡ true }
    {
        let unmoved = self.unmoved(current);
        let extremes = self.extremes();
        if self.is_worth(extremes, current) {
            self.first_best()
        } else {
            unmoved
        }
    }

    /// Whether a stripe may be coded at this offset.
    pub fn offers(&self, offset: u8) -> bool
        ensures { result ≡ is_offered (counting_of self.now) offset }
    {
        offset == 0 || offset >= self.least() && offset <= self.most()
    }

    /// The offset for the next stripe if the adaptive pixel does not move.
    fn unmoved(&self, current: u8) -> u8
        ensures { result ≡ (if is_reset self.now then 0 else current) }
    {
        if self.reset != 0 { 0 } else { current }
    }

    /// The width of the image.
    pub fn width(&self) -> u32
        ensures { result ≡ (counting_of self.now).width }
    {
        self.width.min(MOST_WIDTH)
    }

    /// The greatest lag that may be chosen.
    fn most(&self) -> u8
        ensures { result ≡ (counting_of self.now).most }
    {
        self.most.min(127)
    }

    /// The least lag that may be chosen.
    fn least(&self) -> u8
        ensures lag { result ≡ least_lag (counting_of self.now).mode.two_line }
        ensures some { 1 ≤ result }
        ensures small { result ≤ 5 }
    {
        if self.two_line != 0 { 5 } else { 3 }
    }

    /// The columns that are counted.
    fn columns(&self) -> Columns
        ensures first { result.first ≡ (counting_of self.now).most }
        ensures end { result.end ≡ (counting_of self.now).width - 2 }
    {
        Columns {
            first: u32::from(self.most()),
            end: self.width().saturating_sub(2),
        }
    }

    /// Whether a row is typical.
    fn is_typical(&self, row: &[u8], above: &[u8]) -> bool
        ensures { (lines : Lines) → AreLines row.now above.now lines →
            result ≡ may_be_typical (counting_of self.now).mode
            (fit_lines (counting_of self.now).width lines) }
    {
        self.typical != 0 && is_same(row, above, self.width())
    }

    /// Counts a row in these columns.
    fn add_row(&mut self, row: &[u8], above: &[u8], columns: Columns)
        requires some { columns.first < columns.end }
        requires narrow { columns.end ≤ 2 ^ 20 }
        ensures nominal { AddsAt columns self.old self.new row.now above.now 0 }
        ensures lags { (lag : ℕ) → least_lag (counting_of self.old).mode.two_line ≤ lag →
            lag ≤ (counting_of self.old).most →
            AddsAt columns self.old self.new row.now above.now lag }
        ensures pixels { self.new.pixels ≡
            (self.old.pixels + (columns.end - columns.first)) % 2 ^ 32 }
        ensures counting { counting_of self.new ≡ counting_of self.old }
        ensures reset { is_reset self.new ≡ is_reset self.old }
    {
        let least = usize::from(self.least());
        let most = usize::from(self.most());
        let mut agreed = [0; 128];
        let nominal = count_columns(&mut agreed, row, above, columns, least, most);
        self.counts[0] = self.counts[0].wrapping_add(nominal as u32);
        for lag in least..most + 1 {
            self.counts[lag] = self.counts[lag].wrapping_add(agreed[lag] as u32);
        }
        self.pixels = self.pixels.wrapping_add(columns.end - columns.first);
    }

    /// The best and the worst count of a lag.
    fn extremes(&self) -> Extremes
        ensures best { (n : PixelCounts) → HasCounts self.now n →
            result.best ≡ greatest_of (map n.at
            (candidates (counting_of self.now).mode.two_line (counting_of self.now).most)) }
        ensures worst { (n : PixelCounts) → HasCounts self.now n →
            result.worst ≡ least_of n.pixels (map n.at
            (candidates (counting_of self.now).mode.two_line (counting_of self.now).most)) }
    {
        let mut best = 0;
        let mut worst = self.pixels;
        for lag in self.least()..self.most() + 1 {
            let count = self.counts[usize::from(lag)];
            best = best.max(count);
            worst = worst.min(count);
        }
        Extremes { best, worst }
    }

    /// Whether the adaptive pixel moves away from the current offset.
    fn is_worth(&self, extremes: Extremes, current: u8) -> bool
        ensures { current ≤ 127 → result ≡
            is_worth (counts_in self.now) extremes.best extremes.worst current }
    {
        let Extremes { best, worst } = extremes;
        let pixels = self.pixels;
        let here = self.counts[usize::from(current.min(127))];
        pixels > ENOUGH
            && pixels.saturating_sub(best) < pixels / 8
            && leads(pixels, best, here)
            && leads(pixels, best, pixels.saturating_sub(here))
            && best.saturating_sub(worst) > pixels / 4
    }

    /// The first offset with the greatest count: 0 if no lag has a greater count than the nominal position.
    fn first_best(&self) -> u8
        ensures best { (n : PixelCounts) → HasCounts self.now n → first_best n (0 ∷
            candidates (counting_of self.now).mode.two_line (counting_of self.now).most) ≡ Some
            result }
        ensures offered { is_offered (counting_of self.now) result ≡ true }
    {
        let mut best = 0;
        for lag in self.least()..self.most() + 1 {
            if self.counts[usize::from(lag)] > self.counts[usize::from(best)] {
                best = lag;
            }
        }
        best
    }
}

/// Whether the best count leads another one: by more than the pixels that it misses, and by more than a sixteenth of
/// all pixels. It leads each greater count, too, as JBIG-KIT's unsigned difference does.
fn leads(pixels: u32, best: u32, other: u32) -> bool
    ensures { result ≡ leads pixels best other }
{
    if best < other {
        return true;
    }
    let lead = best - other;
    lead > pixels.saturating_sub(best) && lead > pixels / 16
}

const _: () = prove!(std::mem::size_of::<Choice>() == 524);
