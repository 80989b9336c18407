//! The errors of a stream, an image, or a choice of options, and of reading and writing.

ghost use Rattle.std.specs.Prelude.{◌≡◌};
ghost use Rattle.t85_core.specs.Fault.{fault_number};

use pbm_core::PbmFault;
use thiserror::Error;

#[derive(Clone, Copy, Debug, PartialEq, Eq, Error)]
pub enum Fault {
    #[error("header is shorter than 20 bytes")]
    ShortHeader,
    #[error("reserved bits of the header are set")]
    ReservedBits,
    #[error("differential layers are not supported")]
    Layers,
    #[error("number of planes is not one")]
    Planes,
    #[error("width, height or stripe length is zero")]
    ZeroSize,
    #[error("image is wider than 1048576")]
    TooWide,
    #[error("adaptive pixel range is above 127")]
    MoveRange,
    #[error("private prediction table is not supported")]
    PrivateTable,
    #[error("input ends too early")]
    Truncated,
    #[error("unexpected escape code")]
    BadEscape,
    #[error("image was aborted")]
    Aborted,
    #[error("adaptive pixel move is not allowed")]
    MoveRefused,
    #[error("second adaptive pixel move in a stripe")]
    SecondMove,
    #[error("new height is not allowed")]
    LengthRefused,
    #[error("second new height")]
    SecondLength,
    #[error("input changed between the two readings")]
    Changed,
    #[error("input cannot be read")]
    Read,
    #[error("output cannot be written")]
    Write,
    #[error("out of memory")]
    OutOfMemory,
    #[error("options field has a bit outside 0x68")]
    OptionBits,
    #[error("stripe length is zero")]
    StripeZero,
    #[error("-m is above 127")]
    MoveLarge,
    #[error("announced height is below the image's height")]
    AnnouncedLow,
    #[error("image has more rows than --max-rows")]
    TooManyRows,
    #[error("variable height needs an input file")]
    VariableHeight,
    #[error("comment is too long")]
    CommentLong,
    #[error("{0}")]
    Pbm(PbmFault),
}

impl Fault {
    /// The documented number of the error.
    pub fn number(&self) -> u8
        ensures { result ≡ fault_number self.now }
    {
        match self {
            Fault::ShortHeader => 1,
            Fault::ReservedBits => 2,
            Fault::Layers => 3,
            Fault::Planes => 4,
            Fault::ZeroSize => 5,
            Fault::TooWide => 6,
            Fault::MoveRange => 7,
            Fault::PrivateTable => 8,
            Fault::Truncated => 9,
            Fault::BadEscape => 10,
            Fault::Aborted => 11,
            Fault::MoveRefused => 12,
            Fault::SecondMove => 13,
            Fault::LengthRefused => 14,
            Fault::SecondLength => 15,
            Fault::Changed => 16,
            Fault::Read => 17,
            Fault::Write => 18,
            Fault::OutOfMemory => 19,
            Fault::OptionBits => 20,
            Fault::StripeZero => 21,
            Fault::MoveLarge => 22,
            Fault::AnnouncedLow => 23,
            Fault::TooManyRows => 24,
            Fault::VariableHeight => 25,
            Fault::CommentLong => 26,
            Fault::Pbm(fault) => 30 + fault.number(),
        }
    }
}
