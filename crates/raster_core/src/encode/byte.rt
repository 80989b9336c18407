//! Encodes the pixels of a byte: all in one step, four at a time by lanes, or one after another.

ghost use Rattle.std.specs.Prelude.{◌≤◌, false};
ghost use Rattle.qm_core.specs.Puts.{HasRoom, Puts};
ghost use Rattle.raster_core.specs.Machine.Bytes.{byte_events, lane_events, IsMadeFor};

use crate::context::{context_of, past_and};
use crate::encode::runs::skip_pixels;
use crate::lanes::{far_of, first_pixels, last_pixels};
use crate::row_byte::RowByte;
use qm_core::{CodeSink, Coder, CoderFault, Context};

/// Encodes the pixel in the first of these lanes. Each lane is twice the context, plus the pixel.
#[inline(always)]
fn encode_one<W: CodeSink>(lanes: u64, coder: &mut Coder<'_, W>) -> Result<(), CoderFault>
    requires { HasRoom 1 coder.old }
    ensures { Puts W.CodeSink (lane_events lanes 1) coder.old coder.new result }
{
    let at = (lanes % 0x800) as u16;
    coder.put(Context::of(at / 2), at % 2 == 1)
}

/// Encodes the pixels in two lanes.
#[inline(always)]
fn encode_two<W: CodeSink>(lanes: u64, coder: &mut Coder<'_, W>) -> Result<(), CoderFault>
    requires { HasRoom 2 coder.old }
    ensures { Puts W.CodeSink (lane_events lanes 2) coder.old coder.new result }
{
    encode_one(lanes, coder)?;
    encode_one(lanes >> 16, coder)
}

/// Encodes the pixels in four lanes.
#[inline(always)]
fn encode_four<W: CodeSink>(lanes: u64, coder: &mut Coder<'_, W>) -> Result<(), CoderFault>
    requires { HasRoom 4 coder.old }
    ensures { Puts W.CodeSink (lane_events lanes 4) coder.old coder.new result }
{
    encode_two(lanes, coder)?;
    encode_two(lanes >> 32, coder)
}

/// Encodes a byte with the three-line template, computing the contexts of four pixels at once.
#[inline(always)]
fn encode_by_lanes<W: CodeSink, const MOVED: bool>(
    byte: RowByte,
    coder: &mut Coder<'_, W>,
) -> Result<(), CoderFault>
    requires template { IsMadeFor false MOVED byte.around.template }
    requires room { HasRoom 8 coder.old }
    ensures { Puts W.CodeSink (byte_events byte 8) coder.old coder.new result }
{
    let around = byte.around;
    let row = (around.past % 256) as u32 * 256 + u32::from(byte.byte);
    let far = far_of::<MOVED>(around.template.offset, around.past, byte.byte);
    let first = first_pixels::<MOVED>(around.second, around.above, far, row);
    encode_four(first, coder)?;
    let last = last_pixels::<MOVED>(around.second, around.above, far, row);
    encode_four(last, coder)
}

/// Encodes the first n pixels of a byte, one after another.
#[inline(always)]
pub(crate) fn encode_pixels<W: CodeSink, const TWO_LINE: bool, const MOVED: bool>(
    byte: RowByte,
    n: u32,
    coder: &mut Coder<'_, W>,
) -> Result<(), CoderFault>
    requires template { IsMadeFor TWO_LINE MOVED byte.around.template }
    requires few { n ≤ 8 }
    requires room { HasRoom n coder.old }
    ensures { Puts W.CodeSink (byte_events byte n) coder.old coder.new result }
{
    let offset = byte.around.template.offset;
    let mut second = byte.around.second >> 7;
    let mut above = byte.around.above >> 6;
    let mut row = u32::from(byte.byte);
    let mut past = byte.around.past;
    for _j in 0..n {
        let cx = context_of::<TWO_LINE, MOVED>(offset, second, above, past);
        let pixel = (row >> 7) % 2 == 1;
        coder.put(cx, pixel)?;
        past = past_and::<MOVED>(past, pixel);
        second *= 2;
        above *= 2;
        row *= 2;
    }
    Ok(())
}

/// Encodes a byte, in one step if possible.
#[inline(always)]
pub(crate) fn encode_byte<W: CodeSink, const TWO_LINE: bool, const MOVED: bool>(
    byte: RowByte,
    coder: &mut Coder<'_, W>,
) -> Result<(), CoderFault>
    requires template { IsMadeFor TWO_LINE MOVED byte.around.template }
    requires room { HasRoom 8 coder.old }
    ensures { Puts W.CodeSink (byte_events byte 8) coder.old coder.new result }
{
    if byte.is_run::<MOVED>() && skip_pixels(byte.byte == 255, 8, coder) {
        return Ok(());
    }
    if TWO_LINE {
        encode_pixels::<_, TWO_LINE, MOVED>(byte, 8, coder)
    } else {
        encode_by_lanes::<_, MOVED>(byte, coder)
    }
}
