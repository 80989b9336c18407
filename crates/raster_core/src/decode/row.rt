//! Decodes the pixels of a row that is not typical.

ghost use Rattle.std.specs.Prelude.{◌≡◌, ◌+◌, ◌-◌, ◌*◌, ◌%◌, ◌<◌, ◌≤◌, IfOk, IfErr};
ghost use Rattle.qm_core.specs.Source.{Pulls};
ghost use Rattle.qm_core.specs.Reads.{ReaderReads};
ghost use Rattle.raster_core.specs.Machine.Places.{IsPartOf};
ghost use Rattle.raster_core.specs.Machine.Decoded.{ByteEnds, DecodesRow, RowStops, row_around, row_part};
ghost use Rattle.raster_core.specs.Machine.Registers.{IsTemplate};

use crate::bytes::byte_at;
use crate::context::by_template;
use crate::decode::byte::{decode_byte, decode_step};
use crate::decode::registers::{Registers, RowContext};
use crate::decode::runs::skip_filled;
use crate::place::{RowPlace, around_at, register_at};
use qm_core::{CodeBytes, Reader};

/// Decodes the rest of a partially decoded byte, and stores it.
#[inline(never)]
fn end_byte<S: CodeBytes, const TWO_LINE: bool, const MOVED: bool>(
    context: RowContext<'_>,
    place: RowPlace,
    current: &mut [u8],
    reader: &mut Reader<'_, S>,
) -> Result<RowPlace, RowPlace>
    requires template { IsTemplate TWO_LINE MOVED context.shape context.offset }
    requires begun { 1 ≤ place.done % 8 }
    requires part { IsPartOf context.shape place current.old }
    ensures reads { ReaderReads S.CodeBytes reader.old reader.new result }
    ensures whole { IfOk result (λ to. to.done < context.entry.shape.width → to.done % 8 ≡ 0) }
    ensures within { IfOk result (λ to. to.done ≤ context.entry.shape.width) }
    ensures inside { IfErr result (λ at. at.done < context.entry.shape.width) }
    ensures ok { IfOk result (λ to. ByteEnds (Pulls S.gives S.failed) (row_around context.entry)
        (row_part place current.old reader.old) (row_part to current.new reader.new)) }
    ensures err { IfErr result (λ at. RowStops (Pulls S.gives S.failed) (row_around context.entry)
        (row_part place current.old reader.old) context.entry.shape.width
        (row_part at current.new reader.new)) }
{
    let begun = place.done % 8;
    let i = (place.done / 8) as usize;
    let n = (8 - begun).min(context.shape.width - place.done);
    let registers = Registers {
        shape: context.shape,
        offset: context.offset,
        second: around_at(context.second, place.done),
        above: around_at(context.above, place.done),
        past: place.past,
    };
    match decode_byte::<_, TWO_LINE, MOVED>(registers, n, reader) {
        Ok(past) => {
            current[i] = ((((past % 256) as u32) << (8 - begun - n)) % 256) as u8;
            Ok(RowPlace::behind(place.done + n, past))
        }
        Err(pause) => Err(RowPlace::behind(place.done + pause.count, pause.past)),
    }
}

/// Decodes the pixels of a row, from a byte on.
#[inline(always)]
fn decode_bytes<S: CodeBytes, const TWO_LINE: bool, const MOVED: bool>(
    context: RowContext<'_>,
    place: RowPlace,
    current: &mut [u8],
    reader: &mut Reader<'_, S>,
) -> Result<(), RowPlace>
    requires template { IsTemplate TWO_LINE MOVED context.shape context.offset }
    requires whole { place.done % 8 ≡ 0 }
    requires part { IsPartOf context.shape place current.old }
    ensures reads { ReaderReads S.CodeBytes reader.old reader.new result }
    ensures inside { IfErr result (λ at. at.done < context.entry.shape.width) }
    ensures leaves { DecodesRow (Pulls S.gives S.failed) (row_around context.entry)
        (row_part place current.old reader.old) context.entry.shape.width
        (row_part place current.new reader.new) result }
{
    let mut i = (place.done / 8) as usize;
    let mut above_bytes = register_at(context.above, i);
    let mut second_bytes = register_at(context.second, i);
    let mut past = place.past;
    let mut left = context.shape.width - place.done;
    'bytes: while left >= 8 {
        let before = Registers {
            shape: context.shape,
            offset: context.offset,
            second: second_bytes,
            above: above_bytes,
            past,
        };
        let words = skip_filled::<MOVED>(
            before,
            context,
            i,
            left,
            current,
            &*reader.learned,
            &mut *reader.decoder,
        );
        if words > 0 {
            i += 8 * words as usize;
            left -= 64 * words;
            continue;
        }
        above_bytes = above_bytes % 0x1_0000 * 256 + byte_at(context.above, i + 1);
        second_bytes = second_bytes % 0x1_0000 * 256 + byte_at(context.second, i + 1);
        let registers = Registers {
            shape: context.shape,
            offset: context.offset,
            second: second_bytes,
            above: above_bytes,
            past,
        };
        past = match decode_step::<_, TWO_LINE, MOVED>(registers, reader) {
            Ok(past) => past,
            Err(pause) => return Err(RowPlace::within(i, pause)),
        };
        current[i] = (past % 256) as u8;
        left -= 8;
        i += 1;
    }
    if left == 0 {
        return Ok(());
    }
    let n = left;
    let registers = Registers {
        shape: context.shape,
        offset: context.offset,
        second: second_bytes % 0x1_0000 * 256 + byte_at(context.second, i + 1),
        above: above_bytes % 0x1_0000 * 256 + byte_at(context.above, i + 1),
        past,
    };
    let last = match decode_byte::<_, TWO_LINE, MOVED>(registers, n, reader) {
        Ok(last) => last,
        Err(pause) => return Err(RowPlace::within(i, pause)),
    };
    current[i] = ((((last % 256) as u32) << (8 - n)) % 256) as u8;
    Ok(())
}

/// Decodes the rest of a row's pixels.
fn decode_rest<S: CodeBytes, const TWO_LINE: bool, const MOVED: bool>(
    context: RowContext<'_>,
    place: RowPlace,
    current: &mut [u8],
    reader: &mut Reader<'_, S>,
) -> Result<(), RowPlace>
    requires template { IsTemplate TWO_LINE MOVED context.shape context.offset }
    requires part { IsPartOf context.shape place current.old }
    ensures reads { ReaderReads S.CodeBytes reader.old reader.new result }
    ensures inside { IfErr result (λ at. at.done < context.entry.shape.width) }
    ensures leaves { DecodesRow (Pulls S.gives S.failed) (row_around context.entry)
        (row_part place current.old reader.old) context.entry.shape.width
        (row_part place current.new reader.new) result }
{
    // `near` has the same three references as `reader`. Behind `reader`, each would be loaded again after every write.
    if place.done % 8 == 0 {
        let mut near = Reader {
            learned: &mut *reader.learned,
            decoder: &mut *reader.decoder,
            source: &mut *reader.source,
        };
        return decode_bytes::<_, TWO_LINE, MOVED>(context, place, current, &mut near);
    }
    let from = end_byte::<_, TWO_LINE, MOVED>(context, place, current, reader)?;
    if from.done == context.shape.width {
        return Ok(());
    }
    let mut near = Reader {
        learned: &mut *reader.learned,
        decoder: &mut *reader.decoder,
        source: &mut *reader.source,
    };
    decode_bytes::<_, TWO_LINE, MOVED>(context, from, current, &mut near)
}

/// Decodes the rest of a row's pixels, with either template.
pub(crate) fn decode_pixels<S: CodeBytes>(
    context: RowContext<'_>,
    place: RowPlace,
    current: &mut [u8],
    reader: &mut Reader<'_, S>,
) -> Result<(), RowPlace>
    requires offset { context.offset ≤ 127 }
    requires part { IsPartOf context.shape place current.old }
    ensures reads { ReaderReads S.CodeBytes reader.old reader.new result }
    ensures inside { IfErr result (λ at. at.done < context.entry.shape.width) }
    ensures leaves { DecodesRow (Pulls S.gives S.failed) (row_around context.entry)
        (row_part place current.old reader.old) context.entry.shape.width
        (row_part place current.new reader.new) result }
{
    by_template!(
        decode_rest,
        context.shape,
        context.offset,
        (context, place, current, reader)
    )
}
