//! Rows at a stride, as a producer of rows.

ghost use Rattle.std.specs.Prelude.{◌≡◌, ◌≢◌, ◌≤◌, ◌<◌, ◌++◌, ℕ, List, [], Some, true, false, length, min, take};
ghost use Rattle.libt85.specs.Delivered.{lined};

use crate::memory::Whole;
use pbm_core::{Form, PbmFault, Size, read_row};
use t85_core::RowSource;

/// Rows of `row` bytes, each `stride` bytes after the one before, as far as they are present.
#[derive(Drop)]
pub struct LinedSource<'a> {
    /// The memory from the next row on.
    pub rest: &'a [u8],
    /// The number of rows still to come.
    pub rows: u32,
    pub row: usize,
    pub stride: usize,
    ghost some: { 1 ≤ row },
    ghost apart: { row ≤ stride },
}

impl<'a> LinedSource<'a> {
    pub fn new(bytes: &'a [u8], rows: u32, row: usize, stride: usize) -> LinedSource<'a>
        requires some { 1 ≤ row }
        requires apart { row ≤ stride }
        ensures rows { lined result.rows result.row result.stride result.rest.now ≡
            lined rows row stride bytes.now }
        ensures row { result.row ≡ row }
    {
        LinedSource {
            rest: bytes,
            rows,
            row,
            stride,
        }
    }

    /// Moves to the next row.
    fn advance(&mut self)
        requires some { self.old.rows ≢ 0 }
        ensures same { lined self.old.rows self.old.row self.old.stride self.old.rest.now ≡
            take (min self.old.row (length self.old.rest.now)) self.old.rest.now ++
            lined self.new.rows self.new.row self.new.stride self.new.rest.now }
        ensures end { length self.old.rest.now < self.old.row → lined self.new.rows self.new.row
            self.new.stride self.new.rest.now ≡ [] }
        ensures same_row { self.new.row ≡ self.old.row }
    {
        let (_, rest) = self.rest.split_at(self.stride.min(self.rest.len()));
        self.rest = rest;
        self.rows -= 1;
    }

    /// Moves to the next row, and returns its bytes, as far as they are present.
    fn step(&mut self) -> &'a [u8]
        ensures same { lined self.old.rows self.old.row self.old.stride self.old.rest.now ≡
            result.now ++ lined self.new.rows self.new.row self.new.stride self.new.rest.now }
        ensures within { length result.now ≤ self.old.row }
        ensures end { length result.now < self.old.row → lined self.new.rows self.new.row
            self.new.stride self.new.rest.now ≡ [] }
        ensures same_row { self.new.row ≡ self.old.row }
    {
        if self.rows == 0 {
            return &[];
        }
        let (front, _) = self.rest.split_at(self.row.min(self.rest.len()));
        self.advance();
        front
    }

    /// Moves past the next row and returns true, if it is complete and has these bytes. Otherwise does nothing and
    /// returns false.
    #[inline(always)]
    fn pass_one(&mut self, row: &[u8]) -> bool
        requires whole { length row.now ≡ self.old.row }
        ensures passed { result ≡ true → lined self.old.rows self.old.row self.old.stride
            self.old.rest.now ≡ row.now ++ lined self.new.rows self.new.row self.new.stride
            self.new.rest.now }
        ensures other { result ≡ false → (rest : List ℕ) → lined self.old.rows self.old.row
            self.old.stride self.old.rest.now ≡ row.now ++ rest → ⊥ }
        ensures none { result ≡ false → self.new ≡ self.old }
        ensures same_row { self.new.row ≡ self.old.row }
    {
        if self.rows == 0 || self.rest.len() < self.row {
            return false;
        }
        let (front, _) = self.rest.split_at(self.row);
        if front != row {
            return false;
        }
        self.advance();
        true
    }
}

impl RowSource for LinedSource<'_> {
    ghost use Rattle.pbm_core.specs.declared.form.Form.TheVariants.{Raw};

    ghost view = { λ s. record {
      remaining = Some (lined s.rows s.row s.stride s.rest.now);
      held = [];
      left = length (lined s.rows s.row s.stride s.rest.now);
      failures = 0;
      source = 0;
    } };

    ghost origin = { λ s. record { form = Raw; row = Some s.row; reference = 0 } };

    fn next_row(&mut self, size: Size, row: &mut [u8]) -> Result<(), PbmFault> {
        let mut front = Whole { rest: self.step() };
        read_row(&mut front, size, Form::Raw, row)
    }

    #[inline(always)]
    fn pass_equal(&mut self, _size: Size, row: &[u8], most: u32) -> u32 {
        let mut count = 0;
        'rows: while count < most {
            if !self.pass_one(row) {
                return count;
            }
            count += 1;
        }
        count
    }
}
