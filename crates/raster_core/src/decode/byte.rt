//! Decodes the pixels of a byte.

ghost use Rattle.std.specs.Prelude.{◌≤◌, false};
ghost use Rattle.qm_core.specs.Reads.{ReaderReads};
ghost use Rattle.raster_core.specs.Machine.Decoded.{DecodesPixels, around_of};
ghost use Rattle.raster_core.specs.Machine.DecodedLanes.{DecodesLanes, lanes_around};
ghost use Rattle.raster_core.specs.Machine.Registers.{IsTemplate};

use crate::context::{context_of, past_and};
use crate::decode::registers::Registers;
use crate::decode::runs::skip_byte;
use crate::lanes::{first_around, has_lanes, last_around};
use crate::place::Pause;
use crate::uniform::past_eight;
use qm_core::{CodeBytes, Context, Reader, Stop};

/// Decodes n pixels of a byte, one after another. The result contains the last pixels of the row.
#[inline(always)]
pub(crate) fn decode_byte<S: CodeBytes, const TWO_LINE: bool, const MOVED: bool>(
    registers: Registers,
    n: u32,
    reader: &mut Reader<'_, S>,
) -> Result<u128, Pause>
    requires template { IsTemplate TWO_LINE MOVED registers.shape registers.offset }
    requires few { (1 ≤ n) × (n ≤ 8) }
    ensures reads { ReaderReads S.CodeBytes reader.old reader.new result }
    ensures pixels { DecodesPixels S.CodeBytes (around_of registers) n reader.old reader.new
        result }
{
    let mut second = registers.second >> 7;
    let mut above = registers.above >> 6;
    let mut past = registers.past;
    for j in 0..n {
        let cx = context_of::<TWO_LINE, MOVED>(registers.offset, second, above, past);
        let pixel = match reader.next(cx) {
            Ok(pixel) => pixel,
            Err(Stop) => return Err(Pause { count: j, past }),
        };
        past = past_and::<MOVED>(past, pixel);
        second *= 2;
        above *= 2;
    }
    Ok(past)
}

/// Decodes pixel n of a byte. The first of these lanes is the contribution of the rows above to its context.
#[inline(always)]
fn decode_one<S: CodeBytes>(
    lanes: u64,
    before: u128,
    n: u32,
    reader: &mut Reader<'_, S>,
) -> Result<u128, Pause>
    ensures reads { ReaderReads S.CodeBytes reader.old reader.new result }
    ensures pixels { DecodesLanes S.CodeBytes (lanes_around lanes before n) 1 reader.old reader.new
        result }
{
    let around = (lanes % 0x400) as u16 / 4 * 4;
    let cx = Context::of(around + (before % 4) as u16);
    match reader.next(cx) {
        Ok(pixel) => Ok(past_and::<false>(before, pixel)),
        Err(Stop) => Err(Pause {
            count: n,
            past: before,
        }),
    }
}

/// Decodes four pixels of a byte, from pixel n on.
#[inline(always)]
fn decode_four<S: CodeBytes>(
    lanes: u64,
    before: u128,
    n: u32,
    reader: &mut Reader<'_, S>,
) -> Result<u128, Pause>
    requires few { n ≤ 4 }
    ensures reads { ReaderReads S.CodeBytes reader.old reader.new result }
    ensures pixels { DecodesLanes S.CodeBytes (lanes_around lanes before n) 4 reader.old reader.new
        result }
{
    let one = decode_one(lanes, before, n, reader)?;
    let two = decode_one(lanes >> 16, one, n + 1, reader)?;
    let three = decode_one(lanes >> 32, two, n + 2, reader)?;
    decode_one(lanes >> 48, three, n + 3, reader)
}

/// Decodes the pixels of a byte: all eight in one step if the byte and the byte above it have the same single colour and
/// no code byte is needed. Otherwise it computes the contexts of four pixels at once, if tables contain them.
#[inline(always)]
pub(crate) fn decode_step<S: CodeBytes, const TWO_LINE: bool, const MOVED: bool>(
    registers: Registers,
    reader: &mut Reader<'_, S>,
) -> Result<u128, Pause>
    requires template { IsTemplate TWO_LINE MOVED registers.shape registers.offset }
    ensures reads { ReaderReads S.CodeBytes reader.old reader.new result }
    ensures pixels { DecodesPixels S.CodeBytes (around_of registers) 8 reader.old reader.new
        result }
{
    let byte = ((registers.above >> 8) % 256) as u8;
    if skip_byte::<MOVED>(registers, byte, &*reader.learned, &mut *reader.decoder) {
        return Ok(past_eight::<MOVED>(registers.past, byte));
    }
    if !has_lanes::<TWO_LINE, MOVED>(registers.shape, registers.offset) {
        return decode_byte::<_, TWO_LINE, MOVED>(registers, 8, reader);
    }
    let first = first_around(registers.second, registers.above);
    let half = decode_four(first, registers.past, 0, reader)?;
    let last = last_around(registers.second, registers.above);
    decode_four(last, half, 4, reader)
}
