//! Rows at a stride, as a consumer of rows.

ghost use Rattle.std.specs.Prelude.{◌≡◌, ◌≤◌, ◌<◌, ◌+◌, ◌*◌, ◌++◌, ℕ, Some, None, length, is_some, true};

use t85_core::{Fault, RowSink};

/// Space for `fit` rows of `row` bytes, each `stride` bytes after the one before. When it is full, it accepts one more
/// byte, which is discarded, and then fails: that distinguishes more rows than fit from rows that just fit.
#[derive(Drop)]
pub struct LinedSink<'a> {
    pub bytes: &'a mut [u8],
    pub row: usize,
    pub stride: usize,
    /// The number of rows that fit.
    pub fit: u32,
    /// The number of rows received.
    pub y: u32,
    /// The first byte of the first row that did not fit.
    pub spilled: Option<u8>,
    /// The number of calls that failed, modulo 2^64.
    pub failures: u64,
    ghost some: { 1 ≤ row },
    ghost apart: { row ≤ stride },
    ghost rows_within: { (k : ℕ) → k < fit → k * stride + row ≤ length bytes.now },
    ghost not_too_many: { y ≤ fit },
    ghost spilled_last: { is_some spilled ≡ true → y ≡ fit },
    ghost full: { 0 < failures → is_some spilled ≡ true },
}

impl<'a> LinedSink<'a> {
    ghost use Rattle.devices.specs.Device.{AppendsBeginning, one_more};
    ghost use Rattle.libt85.specs.LinedSink.{lined_state, taken};

    /// No rows yet, in this memory.
    pub fn new(bytes: &'a mut [u8], row: usize, stride: usize, fit: u32) -> LinedSink<'a>
        requires some { 1 ≤ row }
        requires apart { row ≤ stride }
        requires room { (k : ℕ) → k < fit → k * stride + row ≤ length bytes.old }
        ensures room { result.bytes ≡ bytes.entry }
        ensures row { result.row ≡ row }
        ensures stride { result.stride ≡ stride }
        ensures fit { result.fit ≡ fit }
        ensures no_row { result.y ≡ 0 }
        ensures unspilled { result.spilled ≡ None }
        ensures failures { result.failures ≡ 0 }
    {
        LinedSink {
            bytes,
            row,
            stride,
            fit,
            y: 0,
            spilled: None,
            failures: 0,
        }
    }

    /// Accepts a row.
    fn put_row(&mut self, bytes: &[u8])
        requires room { self.old.y < self.old.fit }
        requires long { length bytes.now ≡ self.old.row }
        ensures taken { taken (lined_state self.new) ≡
            taken (lined_state self.old) ++ bytes.now }
        ensures same_target { self.new.bytes.ghost_name ≡ self.old.bytes.ghost_name }
        ensures same_row { self.new.row ≡ self.old.row }
        ensures same_failures { self.new.failures ≡ self.old.failures }
    {
        let start = self.y as usize * self.stride;
        self.bytes[start..start + self.row].copy_from_slice(bytes);
        self.y += 1;
    }

    /// Rejects a row that does not fit, except its first byte.
    fn spill(&mut self, bytes: &[u8])
        requires full { self.old.y ≡ self.old.fit }
        requires some { 1 ≤ length bytes.now }
        ensures taken { AppendsBeginning (Some (taken (lined_state self.old)))
            (Some (taken (lined_state self.new))) bytes.now }
        ensures same_target { self.new.bytes.ghost_name ≡ self.old.bytes.ghost_name }
        ensures same_row { self.new.row ≡ self.old.row }
        ensures failures { self.new.failures ≡ one_more self.old.failures }
    {
        if self.spilled.is_none() {
            self.spilled = Some(bytes[0]);
        }
        self.failures = self.failures.wrapping_add(1);
    }
}

impl RowSink for LinedSink<'_> {
    ghost use Rattle.libt85.specs.LinedSink.{lined_view};

    ghost view = { λ s. lined_view s };

    ghost row_bytes = { λ s. Some s.row };

    fn put_rows(&mut self, bytes: &[u8], count: u32) -> Result<(), Fault> {
        let mut copy = 0;
        while copy < count {
            if self.y == self.fit {
                self.spill(bytes);
                return Err(Fault::Write);
            }
            self.put_row(bytes);
            copy += 1;
        }
        Ok(())
    }
}
