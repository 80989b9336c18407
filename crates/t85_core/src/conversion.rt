//! Converts whole files: a stream to its image, and an image to its stream.

ghost use Rattle.std.specs.Prelude.{◌≡◌, true};
ghost use Rattle.t85_core.specs.Height.{MayBeHeight};
ghost use Rattle.t85_core.specs.Change.{input_change, output_change};
ghost use Rattle.t85_core.specs.Options.{fields_of, settings_of};
ghost use Rattle.t85_core.specs.Header.{is_variable};
ghost use Rattle.t85_core.specs.Failures.{FlushesOutput};
ghost use Rattle.t85_core.specs.ToPbm.{ToPbmAt, ToPbmBehind, ToPbm, is_same_header, second_reading, second_reading_of, delivery_of};
ghost use Rattle.t85_core.specs.ToJbg.{ToJbg, ToJbgAhead};
ghost use Rattle.devices.specs.Device.{SameInput};
ghost use Rattle.t85_core.specs.declared.fault.Fault.TheVariants.{Write, Pbm};

use crate::decoding::decode;
use crate::encoding::encode;
use crate::fault::Fault;
use crate::header::Header;
use crate::height::find_height;
use crate::laws::coder_laws;
use crate::options::Options;
use devices::{Buffered, DeviceFailed, Input, Output};
use pbm_core::laws::headers;
use pbm_core::read_header;
use raster_core::{Window, window_bytes};
use std::alloc::Global;

/// Decodes a stream to a raw PBM image of at most `max_rows` rows. The only memory that it allocates is for three rows.
///
/// If the header says that the height may change (VLENGTH), the height is found in the first input, and the image is
/// decoded from the second, which must contain the same bytes. Otherwise the second input is not used.
pub fn to_pbm<R: Input, Second: Input, W: Output>(
    alloc: Global,
    first: &mut R,
    again: &mut Option<Second>,
    max_rows: u32,
    output: &mut W,
) -> Result<(), Fault>
    ensures outcome { ToPbm max_rows (input_change R.view first.old first.new)
        (second_reading_of Second.view again.old again.new)
        (delivery_of W.view output.old output.new) result }
    ensures flushes { FlushesOutput (W.view output.old) (W.view output.new) result }
{
    // The proof uses these laws of the coder.
    coder_laws();
    let header = Header::read(first)?;
    if !header.is_variable() {
        return convert(alloc, &header, header.yd, max_rows, first, output);
    }
    match again {
        Some(reading) => convert_again(alloc, &header, max_rows, first, reading, output),
        None => Err(Fault::VariableHeight),
    }
}

/// Decodes a stream with variable height. The first input is positioned after the header.
fn convert_again<R: Input, Second: Input, W: Output>(
    alloc: Global,
    header: &Header,
    max_rows: u32,
    first: &mut R,
    again: &mut Second,
    output: &mut W,
) -> Result<(), Fault>
    requires variable { is_variable (fields_of header.now) ≡ true }
    ensures outcome { ToPbmBehind (fields_of header.now) max_rows (input_change R.view first.old
        first.new) (second_reading true (again.new ≡ again.old)
        (input_change Second.view again.old again.new))
        (delivery_of W.view output.old output.new) result }
    ensures flushes { FlushesOutput (W.view output.old) (W.view output.new) result }
{
    let height = find_height(header, first)?;
    match Header::read(again) {
        Ok(other) => {
            if !is_same(&other, header) {
                return Err(Fault::Changed);
            }
            convert(alloc, header, height, max_rows, again, output)
        }
        Err(fault) => match fault {
            Fault::Read => Err(Fault::Read),
            _ => Err(Fault::Changed),
        },
    }
}

/// Whether two headers are equal, and therefore written with the same bytes.
fn is_same(one: &Header, other: &Header) -> bool
    ensures { result ≡ is_same_header (fields_of one.now) (fields_of other.now) }
{
    one.xd == other.xd
        && one.yd == other.yd
        && one.l0 == other.l0
        && one.mx == other.mx
        && one.options == other.options
}

/// Decodes a body at a given height. The input is positioned after the header.
fn convert<R: Input, W: Output>(
    alloc: Global,
    header: &Header,
    height: u32,
    max_rows: u32,
    input: &mut R,
    output: &mut W,
) -> Result<(), Fault>
    requires height { MayBeHeight header.now.yd height }
    ensures outcome { ToPbmAt (fields_of header.now) height max_rows (input_change R.view input.old
        input.new) (delivery_of W.view output.old output.new) result }
    ensures flushes { FlushesOutput (W.view output.old) (W.view output.new) result }
{
    if height > max_rows {
        return Err(Fault::TooManyRows);
    }
    let mut rows = match vec![in alloc; 0u8; window_bytes(header.xd)] {
        Ok(rows) => rows,
        Err(_) => return Err(Fault::OutOfMemory),
    };
    let mut window = Window::over(rows.as_mut_slice(), header.xd);
    decode(header, height, &mut window, input, output)?;
    match output.flush() {
        Ok(()) => Ok(()),
        Err(DeviceFailed) => Err(Fault::Write),
    }
}

/// Encodes a PBM image. The only memory that it allocates is for three rows.
///
/// The input is read only while the bytes so far end within the header or the rows. Bytes that the last such read
/// returned beyond the rows are read ahead, and lost.
pub fn to_jbg<R: Input, W: Output>(
    alloc: Global,
    input: &mut R,
    output: &mut W,
    options: &Options<'_>,
) -> Result<(), Fault>
    ensures outcome { ToJbgAhead (settings_of options.now) (input_change R.view input.old input.new)
        (output_change W.view output.old output.new) (W.view output.new).flushed result }
    ensures flushes { FlushesOutput (W.view output.old) (W.view output.new) result }
{
    let mut source = Buffered::new(input);
    to_jbg_from(alloc, &mut source, output, options)
}

/// Encodes a PBM image, and consumes nothing after its rows.
fn to_jbg_from<R: Input, W: Output>(
    alloc: Global,
    input: &mut R,
    output: &mut W,
    options: &Options<'_>,
) -> Result<(), Fault>
    ensures outcome { ToJbg (settings_of options.now) (input_change R.view input.old input.new)
        (output_change W.view output.old output.new) (W.view output.new).flushed result }
    ensures same_input { SameInput (R.view input.old) (R.view input.new) }
    ensures flushes { FlushesOutput (W.view output.old) (W.view output.new) result }
{
    // The proof uses these laws about headers.
    headers();
    let (size, form) = match read_header(input) {
        Ok(header) => header,
        Err(fault) => return Err(Fault::Pbm(fault)),
    };
    if options.is_low(size) {
        return Err(Fault::AnnouncedLow);
    }
    let mut rows = match vec![in alloc; 0u8; window_bytes(size.width)] {
        Ok(rows) => rows,
        Err(_) => return Err(Fault::OutOfMemory),
    };
    let mut window = Window::over(rows.as_mut_slice(), size.width);
    encode(size, form, options, &mut window, input, output)?;
    match output.flush() {
        Ok(()) => Ok(()),
        Err(DeviceFailed) => Err(Fault::Write),
    }
}
