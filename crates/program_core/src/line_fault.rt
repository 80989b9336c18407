//! Why the arguments of a command line give no job.

ghost use Rattle.std.specs.Prelude.{◌≡◌};
ghost use Rattle.clap.specs.Words.{kind_of};
ghost use Rattle.t85_core.specs.declared.fault.Fault.TheVariants as fault;
ghost use Rattle.program_core.specs.Line.{Tells, status_of};
ghost use Rattle.program_core.specs.declared.line_fault.LineFault.TheVariants as line_fault;

use clap::error::ErrorKind;
use std::alloc::{AllocError, Global};
use t85_core::Fault;

/// Why the arguments give no job.
#[derive(Debug, Drop)]
pub enum LineFault {
    /// The text of the help, or of the version.
    Help(String),
    /// The text about a mistake in the arguments.
    Usage(String),
    Fault(Fault),
}

impl LineFault {
    /// The exit status: 0 for help and version, 1 for lack of memory, 2 for a mistake.
    pub fn status(&self) -> u8
        ensures { result ≡ status_of self.now }
    {
        match self {
            LineFault::Help(_) => 0,
            LineFault::Usage(_) => 2,
            LineFault::Fault(Fault::OutOfMemory) => 1,
            LineFault::Fault(_) => 2,
        }
    }
}

impl From<AllocError> for LineFault {
    ghost from_gives = { λ _ e. e ≡ line_fault.Fault fault.OutOfMemory };

    fn from(_error: AllocError) -> LineFault {
        LineFault::Fault(Fault::OutOfMemory)
    }
}

/// The `LineFault` for an error of clap.
pub(crate) fn fault_of(alloc: Global, error: clap::Error) -> LineFault
    ensures { Tells (kind_of error) result }
{
    let kind = error.kind();
    if kind == ErrorKind::OutOfMemory {
        return LineFault::Fault(Fault::OutOfMemory);
    }
    let text = match format!(in alloc; "{error}") {
        Ok(text) => text,
        Err(_) => return LineFault::Fault(Fault::OutOfMemory),
    };
    match kind {
        ErrorKind::DisplayHelp | ErrorKind::DisplayVersion => LineFault::Help(text),
        _ => LineFault::Usage(text),
    }
}
