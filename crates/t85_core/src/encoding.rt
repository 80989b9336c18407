//! Encodes an image.

ghost use Rattle.std.specs.Prelude.{◌≡◌, ◌≤◌, ◌<◌, OnOk, IfErr, IfSome, IsErrOf, false};
ghost use Rattle.t85_core.specs.Change.{input_change, output_change};
ghost use Rattle.devices.specs.Device.{SameInput};
ghost use Rattle.pbm_core.specs.Pbm.{bytes_of_row};
ghost use Rattle.pbm_core.specs.declared.fault.PbmFault.{PbmFault};
ghost use Rattle.raster_core.specs.Window.{held, width_of};
ghost use Rattle.t85_core.specs.Encode.{Encode, IsEncodeFault, layout_for};
ghost use Rattle.t85_core.specs.Private.EncodeRows.{EndsInRow, RowTaken};
ghost use Rattle.t85_core.specs.Private.EncodeStripes.{ImageRefused, ImageCoded, JbgShort};
ghost use Rattle.t85_core.specs.Jbg.{jbg, is_low};
ghost use Rattle.t85_core.specs.Options.{settings_of};
ghost use Rattle.t85_core.specs.RowSink.{WritesOn};
ghost use Rattle.t85_core.specs.Failures.{CountsRead, IfMissing, SameOutput};
ghost use Rattle.t85_core.specs.declared.fault.Fault.TheVariants.{Write, Pbm};
ghost use Rattle.t85_core.specs.States.Passage.{passage_from};

mod by_row;
mod learning;
mod rows;
mod segments;
mod sink;
mod steps;

pub use self::by_row::RowEncoder;
pub use self::by_row::numbers::RowNumbers;
pub use self::learning::Learning;
use self::steps::write_head;
use crate::fault::Fault;
use crate::laws::{code_denotes, fronts};
use crate::options::Options;
use crate::output_buffer::{ByteTarget, IMAGE_HELD, OutputBuffer, ROW_HELD};
use crate::row_source::{PbmRows, RowSource};
use devices::{Input, Output};
use pbm_core::{Form, Size};
use raster_core::{Window, current_row};

/// Encodes an image of this size. The input is positioned after the header of the image.
///
/// If rows are missing, the output is a prefix of the stream of every image that begins with the rows read, and
/// includes each stripe whose rows were all read. Each row is read when it is needed, and nothing after it.
pub fn encode<R: Input, W: Output>(
    size: Size,
    form: Form,
    options: &Options<'_>,
    window: &mut Window<'_>,
    input: &mut R,
    output: &mut W,
) -> Result<(), Fault>
    requires width { width_of window.old ≡ size.width }
    ensures outcome { Encode (settings_of options.now) (layout_for form size) (input_change
        R.view input.old input.new) (output_change W.view output.old output.new) result }
    ensures same_input { SameInput (R.view input.old) (R.view input.new) }
    ensures same_output { SameOutput (W.view output.old) (W.view output.new) }
{
    let mut rows = PbmRows { input, form };
    encode_by::<PbmRows<'_, R>, W, IMAGE_HELD>(size, options, window, &mut rows, output)
}

/// Like `encode`, for the rows of a source. It buffers little, for an output whose writes make no system calls.
pub fn encode_rows<S: RowSource, W: Output>(
    size: Size,
    options: &Options<'_>,
    window: &mut Window<'_>,
    source: &mut S,
    output: &mut W,
) -> Result<(), Fault>
    requires width { width_of window.old ≡ size.width }
    requires row { IfSome (S.origin source.old).row (λ n. n ≡ bytes_of_row size.width) }
    ensures outcome { Encode (settings_of options.now) (layout_for (S.origin source.old).form size)
        (input_change S.view source.old source.new) (output_change W.view output.old output.new)
        result }
    ensures same_input { SameInput (S.view source.old) (S.view source.new) }
    ensures same_origin { S.origin source.new ≡ S.origin source.old }
    ensures same_output { SameOutput (W.view output.old) (W.view output.new) }
{
    encode_by::<S, W, ROW_HELD>(size, options, window, source, output)
}

/// Like `encode_rows`, with a buffer of the given size.
fn encode_by<S: RowSource, W: Output, const HELD: usize>(
    size: Size,
    options: &Options<'_>,
    window: &mut Window<'_>,
    source: &mut S,
    output: &mut W,
) -> Result<(), Fault>
    requires width { width_of window.old ≡ size.width }
    requires row { IfSome (S.origin source.old).row (λ n. n ≡ bytes_of_row size.width) }
    requires held { 0 < HELD }
    requires few_held { HELD ≤ 4096 }
    ensures outcome { Encode (settings_of options.now) (layout_for (S.origin source.old).form size)
        (input_change S.view source.old source.new) (output_change W.view output.old output.new)
        result }
    ensures same_input { SameInput (S.view source.old) (S.view source.new) }
    ensures same_origin { S.origin source.new ≡ S.origin source.old }
    ensures same_output { SameOutput (W.view output.old) (W.view output.new) }
{
    // The proof uses this law.
    code_denotes();
    if options.is_low(size) {
        return Err(Fault::AnnouncedLow);
    }
    let mut buffer: OutputBuffer<'_, W, HELD> = OutputBuffer::new(output);
    let outcome = encode_image(size, options, window, source, &mut buffer);
    buffer.finish(outcome)
}

/// Writes the stream to the buffer.
fn encode_image<S: RowSource, P: ByteTarget>(
    size: Size,
    options: &Options<'_>,
    window: &mut Window<'_>,
    source: &mut S,
    target: &mut P,
) -> Result<(), Fault>
    requires width { width_of window.old ≡ size.width }
    requires row { IfSome (S.origin source.old).row (λ n. n ≡ bytes_of_row size.width) }
    requires low { is_low (settings_of options.now) size.height ≡ false }
    ensures ok { OnOk result (ImageCoded (layout_for (S.origin source.old).form size)
        (jbg (settings_of options.now)) (passage_from (S.view source.old) (S.view source.new)
        (P.view target.old).text (P.view target.new).text)) }
    ensures short { IfMissing result (JbgShort (settings_of options.now)
        (layout_for (S.origin source.old).form size) (passage_from (S.view source.old)
        (S.view source.new) (P.view target.old).text (P.view target.new).text)) }
    ensures unwritten { IsErrOf result Write → ImageRefused (layout_for
        (S.origin source.old).form size) (jbg (settings_of options.now)) (passage_from
        (S.view source.old) (S.view source.new) (P.view target.old).text
        (P.view target.new).text) }
    ensures among { IfErr result IsEncodeFault }
    ensures reads { CountsRead (S.view source.old).failures (S.view source.new).failures result }
    ensures same_input { SameInput (S.view source.old) (S.view source.new) }
    ensures same_origin { S.origin source.new ≡ S.origin source.old }
    ensures writes { WritesOn (P.view target.old) (P.view target.new) result }
{
    // The proof uses these laws about the output after some rows.
    fronts();
    let mut learning = Learning::first(size, options);
    let mut encoder = RowEncoder::new(size, options);
    window.clear();
    write_head(size, options, target)?;
    'rows: while encoder.left() > 0 {
        read_next_row(size, window, source)?;
        encoder.put_taken(window, &mut learning, target)?;
        encoder.put_equal(window, &mut learning, source, target)?;
    }
    encoder.end(window, &mut learning, target)
}

/// Moves down one row in the window, and reads that row.
fn read_next_row<S: RowSource>(
    size: Size,
    window: &mut Window<'_>,
    source: &mut S,
) -> Result<(), Fault>
    requires width { width_of window.old ≡ size.width }
    requires row { IfSome (S.origin source.old).row (λ n. n ≡ bytes_of_row size.width) }
    ensures ok { OnOk result (RowTaken (S.origin source.old).form size.width
        (S.view source.old).remaining (S.view source.new).remaining (held window.old)
        (held window.new)) }
    ensures short { IfErr result (λ f. (fault : PbmFault) × (f ≡ Pbm fault) × EndsInRow
        (S.origin source.old).form size.width (S.view source.old).remaining
        (S.view source.new).remaining fault) }
    ensures width { width_of window.new ≡ width_of window.old }
    ensures same_origin { S.origin source.new ≡ S.origin source.old }
    ensures among { IfErr result IsEncodeFault }
    ensures reads { CountsRead (S.view source.old).failures (S.view source.new).failures result }
    ensures same_input { SameInput (S.view source.old) (S.view source.new) }
{
    window.turn();
    let current = current_row(window.width(), window.place());
    match source.next_row(size, &mut window.rows[current]) {
        Ok(()) => Ok(()),
        Err(fault) => Err(Fault::Pbm(fault)),
    }
}
