//! Encodes an image, and decodes its stream to the same image.

ghost use Rattle.std.specs.Prelude.{OnOk, IfErr, IfSome};
ghost use Rattle.examples.specs.Image.{WritesRawForm, IsOfImage};

use crate::held::Held;
use pbm_core::laws::images;
use pbm_core::trial::Drip;
use pbm_core::{Input, Output};
use std::alloc::Global;
use t85_core::laws::{headers, lines};
use t85_core::{Fault, Options, to_jbg, to_pbm};

/// Writes the stream of an image into a caller's slice, and decodes it to the image in the raw form. The stream is
/// never rejected: an error is one of the image, of memory or of an output.
pub fn round_trip<R: Input, W: Output>(
    alloc: Global,
    input: &mut R,
    options: &Options<'_>,
    room: &mut [u8],
    output: &mut W,
) -> Result<(), Fault>
    ensures again { OnOk result (IfSome (R.view input.old).remaining
        (λ bytes. WritesRawForm bytes (W.view output.old).contents (W.view output.new).contents)) }
    ensures told { IfErr result (λ fault. IfSome (R.view input.old).remaining
        (λ _. IsOfImage fault)) }
{
    // Laws of images and streams for the proof.
    images();
    headers();
    lines();
    let mut stream = Drip::new(room, usize::MAX, None, false);
    to_jbg(alloc, input, &mut stream, options)?;
    let mut first = Held {
        rest: stream.written(),
    };
    let mut again = Some(Held {
        rest: stream.written(),
    });
    to_pbm(alloc, &mut first, &mut again, u32::MAX, output)
}
