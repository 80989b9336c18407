//! A stream that ends too early.

ghost use Rattle.std.specs.Prelude.{IfSome};
ghost use Rattle.raster_core.specs.Raster.{Raster};
ghost use Rattle.examples.specs.Cut.{Begins, WritesFirst};

use crate::held::Held;
use pbm_core::{Input, Output};
use std::alloc::Global;
use t85_core::laws::{code_denotes, headers, lines};
use t85_core::{Fault, to_pbm};

/// Writes the image of a stream, which may end anywhere.
///
/// Whatever fails, a prefix of the image is written, and if no write failed, only whole rows. For a stream with
/// variable height nothing is written, since it is not read twice; for one with a fixed height, the header and rows are
/// written once the header is complete.
pub fn rows_of_cut<R: Input, W: Output>(
    alloc: Global,
    input: &mut R,
    output: &mut W,
) -> Result<(), Fault>
    ensures { IfSome (R.view input.old).remaining
        (λ bytes. (raster : Raster) → Begins raster bytes →
        WritesFirst raster bytes (W.view output.old).contents (W.view output.new).contents result) }
{
    // Laws of streams for the proof.
    code_denotes();
    headers();
    lines();
    let mut again: Option<Held<'_>> = None;
    to_pbm(alloc, input, &mut again, u32::MAX, output)
}
