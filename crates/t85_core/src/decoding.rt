//! Decoding an image.

ghost use Rattle.std.specs.Prelude.{◌≡◌, ◌≢◌, ◌<◌, Ok, Err, OnOk, IfErr, IfSome};
ghost use Rattle.raster_core.specs.Packed.{row_bytes};
ghost use Rattle.raster_core.specs.Window.{width_of};
ghost use Rattle.t85_core.specs.Height.{MayBeHeight};
ghost use Rattle.t85_core.specs.Options.{fields_of};
ghost use Rattle.t85_core.specs.Change.{input_change, output_change};
ghost use Rattle.t85_core.specs.Decode.{Decode};
ghost use Rattle.t85_core.specs.DecodeRows.{PutsRows};
ghost use Rattle.t85_core.specs.Lent.{walk_lent as over};
ghost use Rattle.t85_core.specs.Private.Buffers.{ReadsOn};
ghost use Rattle.t85_core.specs.RowSink.{WritesOn};
ghost use Rattle.t85_core.specs.Private.Views.{passage_of};
ghost use Rattle.t85_core.specs.States.DecodeStripes.{ImageRead, ImageCut};
ghost use Rattle.t85_core.specs.Private.DecodeStripes.{ImageUnwritten};
ghost use Rattle.t85_core.specs.States.SizedImage.{sized_of};
ghost use Rattle.t85_core.specs.Private.Reading.{RowsTurn};
ghost use Rattle.t85_core.specs.Failures.{SameOutput};
ghost use Rattle.t85_core.specs.declared.fault.Fault.{Fault};
ghost use Rattle.t85_core.specs.declared.fault.Fault.TheVariants.{Truncated, Write};

use crate::byte_source::HeldSource;
use crate::fault::Fault;
use crate::header::{Header, SizedImage};
use crate::laws::coder_laws;
use crate::lent::Lent;
use crate::output_buffer::{IMAGE_HELD, OutputBuffer};
use crate::pieces::piece::Piece;
use crate::pieces::walk::Walk;
use crate::row_sink::RowSink;
use devices::{Buffered, Input, Output, WriteFault};
use pbm_core::{Size, write_header};
use qm_core::Learned;
use raster_core::Window;

/// Decodes a stream and writes its image. The input is positioned after the header.
///
/// If the stream is broken, it writes the rows that the bytes before the error determine, and returns the error.
pub fn decode<R: Input, W: Output>(
    header: &Header,
    height: u32,
    window: &mut Window<'_>,
    input: &mut R,
    output: &mut W,
) -> Result<(), Fault>
    requires width { width_of window.old ≡ header.now.xd }
    requires height { MayBeHeight header.now.yd height }
    ensures outcome { Decode (fields_of header.now) height (input_change R.view input.old input.new)
        (output_change W.view output.old output.new) result }
    ensures same_output { SameOutput (W.view output.old) (W.view output.new) }
{
    // The proof uses these laws of the coder.
    coder_laws();
    let image = SizedImage {
        header: *header,
        height,
    };
    let size = Size {
        width: header.xd,
        height,
    };
    match write_header(output, size) {
        Ok(()) => {}
        Err(WriteFault) => return Err(Fault::Write),
    }
    let mut stream = Buffered::new(input);
    let mut buffer: OutputBuffer<'_, W, IMAGE_HELD> = OutputBuffer::new(output);
    let outcome = decode_image(&image, window, &mut stream, &mut buffer);
    buffer.finish(outcome)
}

/// Decodes the bytes after the header of a stream, and passes the rows of the image to a sink, equal rows together.
///
/// If the stream is broken, it passes the rows that the bytes before the error determine, and returns the error. Returns
/// `Fault::Write` if the sink fails.
pub fn decode_rows<K: RowSink>(
    header: &Header,
    height: u32,
    window: &mut Window<'_>,
    body: &[u8],
    sink: &mut K,
) -> Result<(), Fault>
    requires width { width_of window.old ≡ header.now.xd }
    requires height { MayBeHeight header.now.yd height }
    requires row { IfSome (K.row_bytes sink.old) (λ n. n ≡ row_bytes header.now.xd) }
    ensures rows { PutsRows (fields_of header.now) height body.now (K.view sink.old)
        (K.view sink.new) result }
{
    // The proof uses these laws of the coder.
    coder_laws();
    let image = SizedImage {
        header: *header,
        height,
    };
    let mut stream = Piece { rest: body };
    decode_image(&image, window, &mut stream, sink)
}

/// Passes the rows of an image to a sink.
fn decode_image<S: HeldSource, K: RowSink>(
    image: &SizedImage,
    window: &mut Window<'_>,
    stream: &mut S,
    sink: &mut K,
) -> Result<(), Fault>
    requires width { width_of window.old ≡ image.now.header.xd }
    requires row { IfSome (K.row_bytes sink.old) (λ n. n ≡ row_bytes image.now.header.xd) }
    ensures ok { OnOk result (ImageRead (fields_of image.now.header) image.now.height (passage_of
        (S.view stream.old) (S.view stream.new) (K.view sink.old) (K.view sink.new))) }
    ensures err { IfErr result (λ f. f ≢ Write → ImageCut (fields_of image.now.header)
        image.now.height (passage_of (S.view stream.old) (S.view stream.new)
        (K.view sink.old) (K.view sink.new)) f) }
    ensures unwritten { IfErr result (λ _. ImageUnwritten (fields_of image.now.header)
        image.now.height (passage_of (S.view stream.old) (S.view stream.new)
        (K.view sink.old) (K.view sink.new))) }
    ensures reads { ReadsOn (S.view stream.old) (S.view stream.new) result }
    ensures writes { WritesOn (K.view sink.old) (K.view sink.new) result }
{
    // The proof uses these laws of the coder.
    coder_laws();
    let mut learned = Learned::new();
    let mut lent = Lent {
        window,
        learned: &mut learned,
    };
    let mut walk = Walk::start(image, &mut lent);
    // The image has no more rows than its height, so it ends within the loop.
    let mut row = 0;
    'rows: while row <= image.height {
        let count = next_rows(image, &mut walk, &mut lent, stream)?;
        if count == 0 {
            return Ok(());
        }
        sink.put_rows(lent.window.row(0), count)?;
        row += count;
    }
    Ok(())
}

/// Decodes the next rows, which are equal, and returns how many: 0 if the image is complete. Reads more input when the
/// buffer is exhausted.
#[inline(always)]
fn next_rows<S: HeldSource>(
    image: &SizedImage,
    walk: &mut Walk,
    lent: &mut Lent<'_, '_>,
    stream: &mut S,
) -> Result<u32, Fault>
    ensures turn { RowsTurn (sized_of image.now) (over walk.old lent.old)
        (over walk.new lent.new) (S.view stream.old) (S.view stream.new) result }
{
    'turns: loop {
        let count = walk.repeat_rows(image, lent);
        if count > 0 {
            return Ok(count);
        }
        let mut piece = Piece {
            rest: stream.held(),
        };
        let answer = walk.course.next(&mut walk.stage, image, lent, &mut piece);
        let left = piece.rest.len();
        match answer {
            Ok(is_row) => {
                stream.keep(left);
                return Ok(u32::from(is_row));
            }
            Err(fault) => match fault {
                Fault::Truncated => {
                    stream.keep(left);
                    stream.refill()?;
                }
                _ => {
                    // After an error, no byte remains buffered.
                    stream.keep(0);
                    return Err(fault);
                }
            },
        }
    }
}
