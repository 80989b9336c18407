//! A PBM that is read from pieces, in a struct that a C caller owns.

ghost use Rattle.std.specs.Prelude.{◌≡◌, ◌≤◌, ◌+◌, ℕ, List, Bool, length};
ghost use Rattle.pbm_core.specs.Pbm.{bytes_of_row};
ghost use Rattle.libt85.specs.Pbm.{BeginsPbm, EndsPbm, InPbmHeader, InPbmRows, IsPbmStatus, ReadsPbmHeader, ReadsPbmRow, TellsPbmHeader, TellsPart, pbm_call, pbm_hold, pbm_status};

mod stored;

use crate::status::{NOT_BEGUN, OTHER_VERSION};
use pbm_core::{HeaderOutcome, PbmFault, RowOutcome, Size, row_bytes};

/// The version of `T85Pbm`, and its size in bytes.
const VERSION: u32 = 1;

const SIZE: usize = 64;
/// The next part of the file: the header, rows, or nothing more after an error.
const HEADER: u32 = 0;

const ROWS: u32 = 1;

const ENDED: u32 = 2;

const MOST_WIDTH: u32 = 1_048_576;

/// The state of a PBM, which the caller owns. A call is safe whatever bytes it contains.
#[repr(C)]
#[derive(Clone, Copy)]
pub struct T85Pbm {
    pub version: u32,
    /// The next part of the file: `HEADER`, `ROWS` or `ENDED`.
    pub next: u32,
    /// The size and the form, once the header is read.
    pub width: u32,
    pub height: u32,
    /// Not 0 if the rows consist of digits.
    pub is_plain: u32,
    /// The number of rows still to come.
    pub rows_left: u32,
    // The fields of `RowReader`, and others of `HeaderReader`.
    pub filled: u32,
    pub made: u8,
    pub place: u8,
    /// How the PBM has ended, if it has an error.
    pub status: u8,
    pub spare: u8,
    pub value: u64,
    pub reserved: [u64; 3],
}

/// The result of a call.
#[derive(Clone, Copy)]
pub enum PbmAnswer {
    /// The header is read.
    Header,
    Row,
    More,
    /// All rows were read.
    Done,
    Broken(PbmFault),
    /// The caller's row is shorter than the width.
    ShortRow,
    /// The struct was not initialized, or has another version, or its header is not read.
    NotBegun,
    /// An error was returned before, with this status.
    Ended(u8),
}

/// The result of a call, and the number of bytes consumed.
#[derive(Clone, Copy)]
pub struct PbmReport {
    pub answer: PbmAnswer,
    pub taken: usize,
}

/// Initializes the state. `size` is the size of the caller's struct. Returns 0; or 50 if the size is wrong, and then
/// `pbm` is unchanged.
#[unsafe(no_mangle)]
pub extern "C" fn t85_pbm_start(pbm: &mut T85Pbm, size: usize) -> u8
    ensures { BeginsPbm size pbm.old pbm.new result }
{
    if size != SIZE {
        return OTHER_VERSION;
    }
    *pbm = T85Pbm::first();
    0
}

/// Consumes bytes of a PBM, up to the end of its header, to the byte at which its error shows, or all of them.
///
/// Returns 60 if the header is read; 62 if all bytes were consumed; 31 to 35 for an error. Returns 53 if the struct was
/// not initialized; then nothing is consumed or changed. After an error it returns the same status again, and after the
/// header 60 again.
///
/// `taken` is the number of bytes consumed.
#[unsafe(no_mangle)]
pub extern "C" fn t85_pbm_header(pbm: &mut T85Pbm, bytes: &[u8], taken: &mut usize) -> u8
    ensures { IsPbmStatus (ReadsPbmHeader pbm.old pbm.new (pbm_call bytes.now taken.new)) result }
{
    let told = pbm.read_header(bytes);
    *taken = told.taken;
    told.answer.status()
}

/// Consumes bytes after the header, up to the end of a row, to a byte that is not a digit, or all of them. `row` is the
/// same memory in each call until its row is complete.
///
/// Returns 61 if the row is complete: the first bytes of `row`, as the width requires; 62 if all bytes were consumed; 0
/// after the last row, whatever the length of `row`; 38 for a byte that is not a digit. Returns 55 if the row is shorter
/// than its width, and 53 if the struct was not initialized or its header is not read; then nothing is consumed or
/// changed. After an error it returns the same status again.
///
/// `taken` is the number of bytes consumed.
#[unsafe(no_mangle)]
pub extern "C" fn t85_pbm_row(
    pbm: &mut T85Pbm,
    bytes: &[u8],
    row: &mut [u8],
    taken: &mut usize,
) -> u8
    ensures { IsPbmStatus (ReadsPbmRow (pbm_hold pbm.old row.old) (pbm_hold pbm.new row.new)
        (pbm_call bytes.now taken.new)) result }
{
    let told = pbm.read_row(bytes, row);
    *taken = told.taken;
    told.answer.status()
}

/// Returns the status of a PBM that ends here: 0 after the last row; 36 in the header or before the last row is
/// complete; the status of an error that was returned before; 53 if the struct was not initialized.
#[unsafe(no_mangle)]
pub extern "C" fn t85_pbm_end(pbm: &T85Pbm) -> u8
    ensures { EndsPbm pbm.now result }
{
    if pbm.version != VERSION {
        return NOT_BEGUN;
    }
    if pbm.next == HEADER {
        return 30 + pbm.header_reader().end().number();
    }
    if pbm.next == ROWS {
        if pbm.rows_left == 0 {
            return 0;
        }
        return 30 + pbm.row_reader().end().number();
    }
    if pbm.next == ENDED {
        return pbm.status;
    }
    NOT_BEGUN
}

impl PbmAnswer {
    fn status(self) -> u8
        ensures { result ≡ pbm_status self }
    {
        match self {
            PbmAnswer::Done => 0,
            PbmAnswer::Broken(fault) => 30 + fault.number(),
            PbmAnswer::NotBegun => 53,
            PbmAnswer::ShortRow => 55,
            PbmAnswer::Header => 60,
            PbmAnswer::Row => 61,
            PbmAnswer::More => 62,
            PbmAnswer::Ended(status) => status,
        }
    }

    /// This result, with nothing consumed.
    fn alone(self) -> PbmReport
        ensures answer { result.answer ≡ self }
        ensures taken { result.taken ≡ 0 }
    {
        PbmReport {
            answer: self,
            taken: 0,
        }
    }
}

impl T85Pbm {
    /// Consumes bytes of the header.
    fn read_header(&mut self, bytes: &[u8]) -> PbmReport
        ensures { ReadsPbmHeader self.old self.new (pbm_call bytes.now result.taken) result.answer }
    {
        if self.version != VERSION {
            return PbmAnswer::NotBegun.alone();
        }
        if self.next == HEADER {
            return self.take_header(bytes);
        }
        if self.next == ROWS {
            return PbmAnswer::Header.alone();
        }
        if self.next == ENDED {
            return PbmAnswer::Ended(self.status).alone();
        }
        PbmAnswer::NotBegun.alone()
    }

    /// Consumes bytes of a header that is not complete.
    fn take_header(&mut self, bytes: &[u8]) -> PbmReport
        requires version { self.old.version ≡ 1 }
        requires next { self.old.next ≡ 0 }
        ensures within { result.taken ≤ length bytes.now }
        ensures tells { (before : List ℕ) → InPbmHeader self.old before →
            TellsPbmHeader before self.new (pbm_call bytes.now result.taken) result.answer }
    {
        let mut reader = self.header_reader();
        let progress = reader.read(bytes);
        let answer = match progress.outcome {
            HeaderOutcome::More => {
                self.keep(reader);
                PbmAnswer::More
            }
            HeaderOutcome::Header(size, form) => {
                self.enter_rows(size, form);
                PbmAnswer::Header
            }
            HeaderOutcome::Broken(fault) => {
                self.end(30 + fault.number());
                PbmAnswer::Broken(fault)
            }
        };
        PbmReport {
            answer,
            taken: progress.taken,
        }
    }

    /// Consumes bytes of a row.
    fn read_row(&mut self, bytes: &[u8], row: &mut [u8]) -> PbmReport
        ensures { ReadsPbmRow (pbm_hold self.old row.old) (pbm_hold self.new row.new)
            (pbm_call bytes.now result.taken) result.answer }
    {
        if self.version != VERSION {
            return PbmAnswer::NotBegun.alone();
        }
        if self.next == ENDED {
            return PbmAnswer::Ended(self.status).alone();
        }
        if self.next != ROWS {
            return PbmAnswer::NotBegun.alone();
        }
        if self.rows_left == 0 {
            return PbmAnswer::Done.alone();
        }
        let size = match self.size() {
            Some(size) => size,
            None => return PbmAnswer::NotBegun.alone(),
        };
        let needed = row_bytes(size.width);
        if row.len() < needed {
            return PbmAnswer::ShortRow.alone();
        }
        self.take_row(size, bytes, &mut row[..needed])
    }

    /// Consumes bytes of a row that is not complete.
    fn take_row(&mut self, size: Size, bytes: &[u8], row: &mut [u8]) -> PbmReport
        requires width { self.old.width ≡ size.width }
        requires whole { length row.old ≡ bytes_of_row size.width }
        requires left { 1 ≤ self.old.rows_left }
        ensures within { result.taken ≤ length bytes.now }
        ensures tells { (before : List ℕ) → (rows : List (List Bool)) →
            InPbmRows self.old row.old before rows →
            TellsPart before rows (pbm_hold self.new row.new)
            (pbm_call bytes.now result.taken) result.answer }
        ensures same_width { self.new.width ≡ self.old.width }
        ensures same_form { self.new.is_plain ≡ self.old.is_plain }
    {
        let mut reader = self.row_reader();
        let progress = reader.read(size, self.form(), row, bytes);
        self.filled = reader.filled;
        self.made = reader.made;
        let answer = match progress.outcome {
            RowOutcome::More => PbmAnswer::More,
            RowOutcome::Row => {
                self.rows_left -= 1;
                PbmAnswer::Row
            }
            RowOutcome::Broken(fault) => {
                self.end(30 + fault.number());
                PbmAnswer::Broken(fault)
            }
        };
        PbmReport {
            answer,
            taken: progress.taken,
        }
    }
}

const _: () = prove!(std::mem::size_of::<T85Pbm>() == SIZE);
