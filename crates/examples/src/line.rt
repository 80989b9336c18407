//! Writes the `--info` line of an image's stream.

ghost use Rattle.std.specs.Prelude.{OnOk, IfErr, IfSome};
ghost use Rattle.t85_core.specs.Options.{settings_of};
ghost use Rattle.examples.specs.Image.{IsOfImage};
ghost use Rattle.examples.specs.Line.{WritesLine};

use crate::held::Held;
use pbm_core::trial::Drip;
use pbm_core::{Input, Output};
use qm_core::laws as coder;
use std::alloc::Global;
use t85_core::laws::lines;
use t85_core::{Fault, Options, info, to_jbg};

/// Writes the stream of an image into a caller's slice, and then the line about that stream.
pub fn line_of_encoded<R: Input, W: Output>(
    alloc: Global,
    input: &mut R,
    options: &Options<'_>,
    room: &mut [u8],
    output: &mut W,
) -> Result<(), Fault>
    ensures line { OnOk result (IfSome (R.view input.old).remaining
        (λ bytes. WritesLine (settings_of options.now) bytes (W.view output.old).contents
        (W.view output.new).contents)) }
    ensures told { IfErr result (λ fault. IfSome (R.view input.old).remaining
        (λ _. IsOfImage fault)) }
{
    // Laws of codes and streams for the proof.
    coder::places();
    coder::codes();
    lines();
    let mut stream = Drip::new(room, usize::MAX, None, false);
    to_jbg(alloc, input, &mut stream, options)?;
    let mut held = Held {
        rest: stream.written(),
    };
    info(&mut held, output)
}
