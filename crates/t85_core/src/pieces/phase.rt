//! Whether a height may still arrive in a stream, and what comes next in it.

ghost use Rattle.std.specs.Prelude.{◌≡◌};
ghost use Rattle.t85_core.specs.Header.{is_variable};
ghost use Rattle.t85_core.specs.Options.{fields_of};
ghost use Rattle.t85_core.specs.Phases.{first_phase, phase_behind, phase_is_first, phase_is_open, phase_looks};

use crate::header::Header;
use crate::pieces::code::InCode;
use crate::pieces::course::Stage;
use crate::pieces::head::Head;

/// The position behind the end marker of a code.
#[derive(Clone, Copy, Drop)]
pub struct Behind {
    pub code: InCode,
    /// The marker segments that have arrived there.
    pub head: Head,
}

/// Whether a height may still arrive (T.82, 6.2.6.2), and the next item in the stream.
#[derive(Clone, Copy, Drop)]
pub enum Phase {
    /// The height is known.
    Known(Stage),
    /// A height may arrive next, before the first stripe. These marker segments have arrived.
    First(Head),
    /// A height may arrive behind the end marker of this code.
    Code(InCode),
    /// A height may arrive next, behind an end marker.
    Behind(Behind),
    /// A height behind the last stripe has ended the image.
    Late,
}

impl Behind {
    ghost use Rattle.t85_core.specs.Stages.{head_start};

    /// Behind the end marker of this code. Nothing has arrived there yet.
    pub fn start(code: InCode) -> Behind
        ensures { result ≡ record { code = code; head = head_start } }
    {
        Behind {
            code,
            head: Head::start(),
        }
    }
}

impl Phase {
    /// Before the first stripe of a stream with this header.
    pub fn first(header: &Header) -> Phase
        ensures { result ≡ first_phase (is_variable (fields_of header.now)) }
    {
        if header.is_variable() {
            Phase::First(Head::start())
        } else {
            Phase::Known(Stage::Head(Head::start()))
        }
    }

    /// Whether no height was known before the end of the image.
    pub fn is_open(&self) -> bool
        ensures { result ≡ phase_is_open self.now }
    {
        match self {
            Phase::Known(_) => false,
            _ => true,
        }
    }

    /// Whether a height may arrive.
    pub fn looks(&self) -> bool
        ensures { result ≡ phase_looks self.now }
    {
        match self {
            Phase::Known(_) => false,
            Phase::Late => false,
            _ => true,
        }
    }

    /// Whether a height may arrive before the first stripe.
    pub fn is_first(&self) -> bool
        ensures { result ≡ phase_is_first self.now }
    {
        match self {
            Phase::First(_) => true,
            _ => false,
        }
    }

    /// The marker segments among which a height may arrive next.
    pub fn behind(&self) -> Head
        ensures { result ≡ phase_behind self.now }
    {
        match self {
            Phase::First(head) => *head,
            Phase::Behind(behind) => behind.head,
            _ => Head::start(),
        }
    }
}
