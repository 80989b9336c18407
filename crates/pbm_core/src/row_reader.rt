//! Reads a row from pieces.

ghost use Rattle.std.specs.Prelude.{◌≡◌, ◌≤◌, ◌∷◌, ◌++◌, ℕ, Bool, List, [], length};
ghost use Rattle.pbm_core.specs.declared.fault.PbmFault.TheVariants.{Truncated};
ghost use Rattle.pbm_core.specs.declared.form.Form.{Form};
ghost use Rattle.pbm_core.specs.declared.form.Form.TheVariants.{Raw, Plain};
ghost use Rattle.pbm_core.specs.Pbm.{bytes_of_row};
ghost use Rattle.pbm_core.specs.Image.{RowFault};
ghost use Rattle.pbm_core.specs.RowPieces.{HasFilled, HoldsPixels, PutsPixel, TakesRowPiece, piece_row};

use crate::fault::PbmFault;
use crate::form::Form;
use crate::header_reader::is_white;
use crate::rows::{clear_padding, pixel_of};
use crate::size::Size;

/// The state of a row that is read from pieces. The bytes that are complete are in the caller's row. Any values are
/// safe.
#[derive(Clone, Copy, Debug, PartialEq, Eq)]
pub struct RowReader {
    /// The number of bytes of a raw row, or of pixels of a plain one, so far.
    pub filled: u32,
    /// The pixels of a plain row that fill no whole byte, as a binary number.
    pub made: u8,
}

/// The result of a piece.
#[derive(Clone, Copy, Debug, PartialEq, Eq)]
pub enum RowOutcome {
    /// The row is not complete.
    More,
    /// The row is complete, and the reader is before the next.
    Row,
    /// A byte is not a digit.
    Broken(PbmFault),
}

/// The result of a piece, and the number of its bytes that were consumed.
#[derive(Clone, Copy, Debug, PartialEq, Eq)]
pub struct RowProgress {
    pub taken: usize,
    pub outcome: RowOutcome,
}

impl RowReader {
    /// A reader before the first byte of a row.
    pub fn start() -> RowReader
        ensures raw { (width : ℕ) → (row : List ℕ) → 1 ≤ width →
            HasFilled Raw result width row [] }
        ensures plain { (width : ℕ) → (row : List ℕ) → 1 ≤ width →
            HasFilled Plain result width row [] }
    {
        RowReader { filled: 0, made: 0 }
    }

    /// Reads the next piece, up to the end of the row, or to the byte that is not a digit. Without either, it consumes
    /// the whole piece. The row has `row_bytes` bytes, and is the same in each call until it is complete. Then it has
    /// its pixels, packed, with the bits after the last pixel set to 0. After an error, its contents are unspecified.
    pub fn read(&mut self, size: Size, form: Form, row: &mut [u8], piece: &[u8]) -> RowProgress
        requires { length row.old ≡ bytes_of_row size.width }
        ensures within { result.taken ≤ length piece.now }
        ensures takes { (before : List ℕ) → HasFilled form self.old size.width row.old before →
            TakesRowPiece form size.width before piece.now (piece_row self.new row.new) result }
    {
        match form {
            Form::Raw => self.read_raw(size, row, piece),
            Form::Plain => self.read_plain(size, row, piece),
        }
    }

    /// The error of a row that ends here.
    pub fn end(&self) -> PbmFault
        ensures ends { (form : Form) → (width : ℕ) → (before : List ℕ) → (row : List ℕ) →
            HasFilled form self.now width row before → RowFault form width before result }
        ensures truncated { result ≡ Truncated }
    {
        PbmFault::Truncated
    }

    /// Copies the bytes of a row of the raw form.
    fn read_raw(&mut self, size: Size, row: &mut [u8], piece: &[u8]) -> RowProgress
        requires { length row.old ≡ bytes_of_row size.width }
        ensures within { result.taken ≤ length piece.now }
        ensures takes { (before : List ℕ) → HasFilled Raw self.old size.width row.old before →
            TakesRowPiece Raw size.width before piece.now (piece_row self.new row.new) result }
    {
        let at = row.len().min(self.filled as usize);
        let taken = piece.len().min(row.len() - at);
        row[at..at + taken].copy_from_slice(&piece[..taken]);
        if at + taken < row.len() {
            self.filled = (at + taken) as u32;
            return RowProgress {
                taken,
                outcome: RowOutcome::More,
            };
        }
        clear_padding(row, size);
        *self = RowReader::start();
        RowProgress {
            taken,
            outcome: RowOutcome::Row,
        }
    }

    /// Reads digits of a row of the plain form.
    fn read_plain(&mut self, size: Size, row: &mut [u8], piece: &[u8]) -> RowProgress
        requires { length row.old ≡ bytes_of_row size.width }
        ensures within { result.taken ≤ length piece.now }
        ensures takes { (before : List ℕ) → HasFilled Plain self.old size.width row.old before →
            TakesRowPiece Plain size.width before piece.now (piece_row self.new row.new) result }
    {
        let mut taken = 0;
        'bytes: while taken < piece.len() {
            let byte = piece[taken];
            taken += 1;
            let outcome = match pixel_of(byte) {
                Some(black) => {
                    if !self.put(size, row, black) {
                        continue;
                    }
                    RowOutcome::Row
                }
                None => {
                    if is_white(byte) {
                        continue;
                    }
                    RowOutcome::Broken(PbmFault::BadDigit)
                }
            };
            return RowProgress { taken, outcome };
        }
        RowProgress {
            taken,
            outcome: RowOutcome::More,
        }
    }

    /// Adds a pixel, and returns whether it is the last of its row.
    fn put(&mut self, size: Size, row: &mut [u8], black: bool) -> bool
        requires { length row.old ≡ bytes_of_row size.width }
        ensures { (pixels : List Bool) → HoldsPixels self.old size.width row.old pixels →
            PutsPixel self.new size.width row.new (pixels ++ black ∷ []) result }
    {
        let at = self.filled.min(size.width - 1);
        let made = self.made % 128 * 2 + u8::from(black);
        let filled = at + 1;
        let count = at % 8 + 1;
        if filled == size.width {
            row[at as usize / 8] = made << (8 - count);
            *self = RowReader::start();
            return true;
        }
        if count == 8 {
            row[at as usize / 8] = made;
            *self = RowReader { filled, made: 0 };
        } else {
            *self = RowReader { filled, made };
        }
        false
    }
}
