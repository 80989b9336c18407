//! Reads a header from pieces, byte by byte.

ghost use Rattle.std.specs.Prelude.{◌≡◌, ◌≢◌, ◌≤◌, ◌↔◌, ◌∷◌, ◌++◌, ℕ, List, [], codes, length, IfSome, IsNone, IsTrue};
ghost use Rattle.std.specs.List.{AllByRecursion, flat_map};
ghost use Rattle.pbm_core.specs.declared.fault.PbmFault.TheVariants.{Truncated};
ghost use Rattle.pbm_core.specs.declared.form.Form.{Form};
ghost use Rattle.pbm_core.specs.declared.header_reader.Place.TheVariants as place;
ghost use Rattle.pbm_core.specs.Pbm.{letter_of, BeginsSpace, IsDigit, IsLineEnd, IsSpace, IsWhite};
ghost use Rattle.pbm_core.specs.Refusal.{HeaderFault};
ghost use Rattle.pbm_core.specs.HeaderPieces.{HasScanned, HasScannedTo, IsHeaderFront, IsStep, TakesHeaderPiece};

mod size;

use crate::fault::PbmFault;
use crate::form::Form;
use crate::size::Size;

const MOST_WIDTH: u32 = 1_048_576;

/// The part to which the last byte belongs that was read.
#[derive(Clone, Copy, Debug, PartialEq, Eq)]
pub enum Place {
    /// No byte was read.
    Start,
    /// The P.
    Letter,
    /// The digit after the P.
    Letters,
    /// White space or a complete comment, before a number.
    Gap,
    /// A comment before a number.
    Comment,
    /// A number.
    Digits,
    /// A comment after both numbers.
    LastComment,
}

/// The state of a header that is read from pieces. It has a fixed size, and represents all bytes so far. Any values are
/// safe.
#[derive(Clone, Copy, Debug, PartialEq, Eq)]
pub struct HeaderReader {
    pub place: Place,
    pub form: Form,
    /// The width, or 0 as long as it is not complete.
    pub width: u32,
    /// The number so far. One above its limit is represented by the limit plus one.
    pub value: u64,
}

/// The result of a piece.
#[derive(Clone, Copy, Debug, PartialEq, Eq)]
pub enum HeaderOutcome {
    /// The header is not complete, and has no error so far.
    More,
    /// The header is complete.
    Header(Size, Form),
    /// No header begins with these bytes.
    Broken(PbmFault),
}

/// The result of a piece, and the number of its bytes that were consumed.
#[derive(Clone, Copy, Debug, PartialEq, Eq)]
pub struct HeaderProgress {
    pub taken: usize,
    pub outcome: HeaderOutcome,
}

/// The result of a byte.
#[derive(Clone, Copy)]
pub(crate) enum Step {
    More(HeaderReader),
    Whole(Size, Form),
    Broken(PbmFault),
}

impl HeaderReader {
    /// A reader before the first byte.
    pub fn start() -> HeaderReader
        ensures { HasScanned result [] }
    {
        HeaderReader {
            place: Place::Start,
            form: Form::Raw,
            width: 0,
            value: 0,
        }
    }

    /// Reads the next piece, up to the end of the header, or to the byte at which its error shows. Without either, it
    /// consumes the whole piece. After the header or an error, the reader is of no more use.
    pub fn read(&mut self, piece: &[u8]) -> HeaderProgress
        ensures within { result.taken ≤ length piece.now }
        ensures takes { (before : List ℕ) → HasScanned self.old before →
            TakesHeaderPiece before piece.now self.new result }
    {
        let mut taken = 0;
        'bytes: while taken < piece.len() {
            let step = self.step(piece[taken]);
            taken += 1;
            let outcome = match step {
                Step::More(next) => {
                    *self = next;
                    continue;
                }
                Step::Whole(size, form) => HeaderOutcome::Header(size, form),
                Step::Broken(fault) => HeaderOutcome::Broken(fault),
            };
            return HeaderProgress { taken, outcome };
        }
        HeaderProgress {
            taken,
            outcome: HeaderOutcome::More,
        }
    }

    /// The error of a header that ends here.
    pub fn end(&self) -> PbmFault
        ensures ends { (before : List ℕ) → HasScanned self.now before → HeaderFault before result }
        ensures truncated { result ≡ Truncated }
    {
        PbmFault::Truncated
    }

    /// Reads a byte.
    pub(crate) fn step(self, byte: u8) -> Step
        ensures { (before : List ℕ) → HasScanned self before →
            IsStep (before ++ byte ∷ []) result }
    {
        match self.place {
            Place::Start => self.read_letter(byte),
            Place::Letter => self.read_form(byte),
            Place::Letters => self.read_first_space(byte),
            Place::Gap => self.read_gap(byte),
            Place::Comment => Step::More(self.read_comment(byte)),
            Place::Digits => self.read_digits(byte),
            Place::LastComment => self.read_last_comment(byte),
        }
    }

    /// Reads the P.
    fn read_letter(self, byte: u8) -> Step
        ensures { IsStep (byte ∷ []) result }
    {
        if byte != b'P' {
            return Step::Broken(PbmFault::NotPbm);
        }
        Step::More(HeaderReader {
            place: Place::Letter,
            ..self
        })
    }

    /// Reads the digit after the P.
    fn read_form(self, byte: u8) -> Step
        ensures { IsStep (codes "P" ++ byte ∷ []) result }
    {
        match form_of(byte) {
            Some(form) => Step::More(HeaderReader {
                place: Place::Letters,
                form,
                width: 0,
                value: 0,
            }),
            None => Step::Broken(PbmFault::NotPbm),
        }
    }

    /// Reads the byte after the letters.
    fn read_first_space(self, byte: u8) -> Step
        ensures { (before : List ℕ) → HasScannedTo place.Letters self before →
            IsStep (before ++ byte ∷ []) result }
    {
        if !begins_space(byte) {
            return Step::Broken(PbmFault::NotPbm);
        }
        Step::More(self.enter_space(byte))
    }

    /// Reads the first byte of a space before a number.
    fn enter_space(self, byte: u8) -> HeaderReader
        requires { BeginsSpace byte }
        ensures { (front : List ℕ) → (spaces : List (List ℕ)) →
            IsHeaderFront self.form self.width front → AllByRecursion IsSpace spaces →
            HasScanned result (front ++ (flat_map (λ s. s) spaces ++ byte ∷ [])) }
    {
        let place = if byte == b'#' {
            Place::Comment
        } else {
            Place::Gap
        };
        HeaderReader { place, ..self }
    }

    /// Reads a byte after a space.
    fn read_gap(self, byte: u8) -> Step
        ensures { (before : List ℕ) → HasScannedTo place.Gap self before →
            IsStep (before ++ byte ∷ []) result }
    {
        if begins_space(byte) {
            return Step::More(self.enter_space(byte));
        }
        if !is_digit(byte) {
            return Step::Broken(PbmFault::BadNumber);
        }
        Step::More(HeaderReader {
            place: Place::Digits,
            value: u64::from(byte - b'0'),
            ..self
        })
    }

    /// Reads a byte of a comment before a number.
    fn read_comment(self, byte: u8) -> HeaderReader
        ensures { (before : List ℕ) → HasScannedTo place.Comment self before →
            HasScanned result (before ++ byte ∷ []) }
    {
        let place = if is_line_end(byte) {
            Place::Gap
        } else {
            Place::Comment
        };
        HeaderReader { place, ..self }
    }
}

/// The form with this second letter.
fn form_of(letter: u8) -> Option<Form>
    ensures some { IfSome result (λ form. letter ≡ letter_of form) }
    ensures none { IsNone result → (form : Form) → letter ≢ letter_of form }
{
    match letter {
        b'4' => Some(Form::Raw),
        b'1' => Some(Form::Plain),
        _ => None,
    }
}

/// Whether the byte is white space, or the `#` of a comment.
fn begins_space(byte: u8) -> bool
    ensures { IsTrue result ↔ BeginsSpace byte }
{
    is_white(byte) || byte == b'#'
}

/// Whether the byte is white space.
pub(crate) fn is_white(byte: u8) -> bool
    ensures { IsTrue result ↔ IsWhite byte }
{
    byte == b' ' || (9 <= byte && byte <= 13)
}

/// Whether the byte ends a line, and a comment.
fn is_line_end(byte: u8) -> bool
    ensures { IsTrue result ↔ IsLineEnd byte }
{
    byte == b'\n' || byte == b'\r'
}

fn is_digit(byte: u8) -> bool
    ensures { IsTrue result ↔ IsDigit byte }
{
    b'0' <= byte && byte <= b'9'
}
