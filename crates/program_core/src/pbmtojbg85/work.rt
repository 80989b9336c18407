//! The job that the arguments ask for.

ghost use Rattle.std.specs.Prelude.{◌≡◌, None, option_map, string_bytes};
ghost use Rattle.t85_core.specs.Options.{refusal_of};

use super::words::comment_bytes;
use t85_core::Options;

/// The job that the arguments ask for, with accepted options.
#[derive(Debug, Drop)]
pub struct Job {
    /// The options byte of the stream.
    pub p: u32,
    /// The rows per stripe.
    pub s: u32,
    /// The greatest offset of the adaptive template pixel.
    pub m: u32,
    /// The height to announce, if any; otherwise the header has the image's own height.
    pub announced: Option<u32>,
    /// Whether each stripe ends in a reset (SDRST).
    pub reset: bool,
    pub comment: Option<String>,
    /// The input file; standard input if `None` or `-`.
    pub input: Option<String>,
    /// The output file; standard output if `None` or `-`.
    pub output: Option<String>,
    ghost accepted: { refusal_of p s m (option_map string_bytes comment) ≡ None },
}

impl Job {
    ghost use Rattle.t85_core.specs.Options.{settings_of};
    ghost use Rattle.program_core.specs.Pbmtojbg85.{settings_asked};

    /// The options that the job asks for, which are accepted.
    pub(super) fn options(&self) -> Options<'_>
        ensures { settings_of result ≡ settings_asked self.now }
    {
        match Options::new(
            self.p,
            self.s,
            self.m,
            self.announced,
            self.reset,
            comment_bytes(&self.comment),
        ) {
            Ok(options) => options,
            Err(_) => unreachable!(),
        }
    }
}
