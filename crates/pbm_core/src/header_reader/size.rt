//! The width and the height of a PBM header.

ghost use Rattle.std.specs.Prelude.{◌≡◌, ◌≢◌, ◌≤◌, ◌∷◌, ◌++◌, ℕ, List, [], IfOk, IfErr};
ghost use Rattle.pbm_core.specs.declared.fault.PbmFault.TheVariants.{TooWide, TooTall};
ghost use Rattle.pbm_core.specs.declared.header_reader.Place.TheVariants as place;
ghost use Rattle.pbm_core.specs.Pbm.{BeginsSpace, IsDigit, IsPbmHeader};
ghost use Rattle.pbm_core.specs.Refusal.{most_width, most_height, SizeFault};
ghost use Rattle.pbm_core.specs.HeaderPieces.{HasScannedTo, IsStep, limit_behind};

use crate::fault::PbmFault;
use crate::header_reader::{
    HeaderReader, MOST_WIDTH, Place, Step, begins_space, is_digit, is_line_end,
};
use crate::size::Size;

impl HeaderReader {
    /// Reads a byte after a digit.
    pub(super) fn read_digits(self, byte: u8) -> Step
        ensures { (before : List ℕ) → HasScannedTo place.Digits self before →
            IsStep (before ++ byte ∷ []) result }
    {
        if is_digit(byte) {
            return Step::More(self.read_digit(byte));
        }
        let ends = begins_space(byte);
        if !ends {
            return Step::Broken(PbmFault::BadNumber);
        }
        if self.width == 0 {
            self.end_width(byte)
        } else {
            self.end_height(byte)
        }
    }

    /// The greatest value of the number that is read.
    fn limit(self) -> u32
        ensures { result ≡ limit_behind self.width }
    {
        if self.width == 0 {
            MOST_WIDTH
        } else {
            u32::MAX
        }
    }

    /// Reads another digit.
    fn read_digit(self, byte: u8) -> HeaderReader
        requires { IsDigit byte }
        ensures digits { (before : List ℕ) → HasScannedTo place.Digits self before →
            HasScannedTo place.Digits result (before ++ byte ∷ []) }
        ensures place { result.place ≡ place.Digits }
    {
        let past = u64::from(self.limit()) + 1;
        let value = (self.value.min(past) * 10 + u64::from(byte - b'0')).min(past);
        HeaderReader {
            place: Place::Digits,
            value,
            ..self
        }
    }

    /// Reads the first byte after the width.
    fn end_width(self, byte: u8) -> Step
        requires space { BeginsSpace byte }
        requires width { self.width ≡ 0 }
        ensures { (before : List ℕ) → HasScannedTo place.Digits self before →
            IsStep (before ++ byte ∷ []) result }
    {
        match judged(self.value, MOST_WIDTH, PbmFault::TooWide) {
            Ok(width) => Step::More(HeaderReader { width, ..self }.enter_space(byte)),
            Err(fault) => Step::Broken(fault),
        }
    }

    /// Reads the first byte after the height.
    fn end_height(self, byte: u8) -> Step
        requires space { BeginsSpace byte }
        requires width { self.width ≢ 0 }
        ensures { (before : List ℕ) → HasScannedTo place.Digits self before →
            IsStep (before ++ byte ∷ []) result }
    {
        match judged(self.value, u32::MAX, PbmFault::TooTall) {
            Ok(_) => {}
            Err(fault) => return Step::Broken(fault),
        }
        if byte == b'#' {
            return Step::More(HeaderReader {
                place: Place::LastComment,
                ..self
            });
        }
        self.whole()
    }

    /// Reads a byte of the comment after the height.
    pub(super) fn read_last_comment(self, byte: u8) -> Step
        ensures { (before : List ℕ) → HasScannedTo place.LastComment self before →
            IsStep (before ++ byte ∷ []) result }
    {
        if is_line_end(byte) {
            return self.whole();
        }
        Step::More(HeaderReader {
            place: Place::LastComment,
            ..self
        })
    }

    /// The header of this size.
    fn whole(self) -> Step
        ensures { (bytes : List ℕ) → 1 ≤ self.width → self.width ≤ most_width → 1 ≤ self.value →
            self.value ≤ most_height → IsPbmHeader bytes self.form self.width self.value →
            IsStep bytes result }
    {
        let width = match judged(u64::from(self.width), MOST_WIDTH, PbmFault::TooWide) {
            Ok(width) => width,
            Err(fault) => return Step::Broken(fault),
        };
        let height = match judged(self.value, u32::MAX, PbmFault::TooTall) {
            Ok(height) => height,
            Err(fault) => return Step::Broken(fault),
        };
        Step::Whole(Size { width, height }, self.form)
    }
}

/// The number, if it is accepted: 0 is rejected, and so is a number above the limit.
fn judged(value: u64, limit: u32, large: PbmFault) -> Result<u32, PbmFault>
    ensures number { IfOk result (λ n. (n ≡ value) × (1 ≤ n) × (n ≤ limit)) }
    ensures fault { IfErr result (λ fault. SizeFault limit large value fault) }
{
    if value == 0 {
        return Err(PbmFault::ZeroSize);
    }
    if value > u64::from(limit) {
        return Err(large);
    }
    Ok(value as u32)
}
