//! Decodes a row.

ghost use Rattle.std.specs.Prelude.{◌≡◌, ◌+◌, ◌*◌, ◌<◌, ◌≤◌, ◌↔◌, ◌++◌, ℕ, length, List, IsTrue, OnOk, OnErr, false, true};
ghost use Rattle.std.specs.Int.{div_ceil};
ghost use Rattle.qm_core.specs.Place.{Place, State, state_of};
ghost use Rattle.qm_core.specs.Decoder.{SourceGoesOn, StopsOnce, DecoderIsAt, has_stopped, decoder_state, source_of};
ghost use Rattle.qm_core.specs.declared.source.Pulled.{Pulled};
ghost use Rattle.qm_core.specs.Reads.{ReaderReads};
ghost use Rattle.raster_core.specs.Lines.{Lines};
ghost use Rattle.raster_core.specs.Window.{held};
ghost use Rattle.raster_core.specs.Packed.{HasLines, SameAbove, row_placed, rows_at, rows_beside, next_place};
ghost use Rattle.raster_core.specs.Machine.Continues.{RowContinues, row_progress};
ghost use Rattle.raster_core.specs.Machine.Places.{DecodesCurrent, LeavesPlace, MayCodeRow, MayGoOnIn, MayGoOnRow};
ghost use Rattle.qm_core.specs.Skipping.{RunDecoded, pixel_run};
ghost use Rattle.raster_core.specs.Row.{RowDecoded, IsRowStart, StandsInRow, RowPasses, CanSkipRow, again_event, row_task, row_left};

mod begin;
mod byte;
mod registers;
mod row;
mod runs;

use crate::context::flag_context;
use crate::decode::begin::begin_row;
use crate::decode::registers::RowContext;
use crate::decode::row::decode_pixels;
use crate::place::RowPlace;
use crate::shape::{Kept, Shape};
use crate::window::Window;
use qm_core::{CodeBytes, Decoder, Learned, Reader, Stop, laws};

/// The two rows above the row at a place, given the rows before it and after it in memory.
#[inline(always)]
fn rows_above<'a>(front: &'a [u8], back: &'a [u8], long: usize, place: u8) -> (&'a [u8], &'a [u8])
    requires place { place < 3 }
    requires front { length front.now ≡ place * long }
    requires back { length front.now + length back.now ≡ 2 * long }
    ensures long { length result.0.now ≡ long }
    ensures above { (row : List ℕ) → length row ≡ long →
        row_placed long (front.now ++ (row ++ back.now)) (next_place place) ≡ result.0.now }
    ensures second { (row : List ℕ) → length row ≡ long →
        row_placed long (front.now ++ (row ++ back.now)) (next_place (next_place place)) ≡
        result.1.now }
{
    match place {
        0 => back.split_at(long),
        1 => (back, front),
        _ => front.split_at(long),
    }
}

/// Decodes the rest of the row at a place, between the memory before it and after it, `sides`, which contains the two
/// rows above it.
// It cannot be part of `decode_at`: after the match in `rows_above`, the prover would not know there that the borrowed
// halves of the window are unchanged.
#[inline(always)]
fn decode_beside<S: CodeBytes>(
    shape: Shape,
    place: &mut RowPlace,
    kept: &mut Kept,
    sides: (&[u8], &[u8]),
    row: &mut [u8],
    at: u8,
    reader: &mut Reader<'_, S>,
) -> Result<(), Stop>
    requires goes_on { MayGoOnIn shape kept.old place.old reader.old.decoder.now }
    requires head { length sides.0.now ≡ at * div_ceil shape.width 8 }
    requires row { length row.old ≡ div_ceil shape.width 8 }
    requires tail { length sides.0.now + length sides.1.now ≡ 2 * div_ceil shape.width 8 }
    requires at { at < 3 }
    ensures reads { ReaderReads S.CodeBytes reader.old reader.new result }
    ensures place { LeavesPlace shape kept.old kept.new place.new result }
    ensures above { SameAbove
        (rows_beside at shape.width sides.entry.0.now row.old sides.entry.1.now)
        (rows_beside at shape.width sides.entry.0.now row.new sides.entry.1.now) }
    ensures row { RowContinues S.CodeBytes shape
        (row_progress kept.old place.old (rows_beside at shape.width sides.entry.0.now row.old
        sides.entry.1.now) reader.old)
        (row_progress kept.new place.new (rows_beside at shape.width sides.entry.0.now row.new
        sides.entry.1.now) reader.new) result }
{
    let long = shape.width.div_ceil(8) as usize;
    let (above, second) = rows_above(sides.0, sides.1, long, at);
    // The proof uses these laws of the coder.
    laws::answers();
    laws::apart();
    let flag = begin_row(shape, *place, *kept, reader)?;
    if flag {
        row.copy_from_slice(above);
    } else {
        let context = RowContext {
            shape,
            offset: kept.offset,
            above,
            second,
        };
        match decode_pixels(context, *place, row, reader) {
            Ok(()) => {}
            Err(at) => {
                *place = at;
                return Err(Stop);
            }
        }
    }
    kept.previous_typical = flag;
    Ok(())
}

/// Decodes the rest of the row at a place, in memory that contains it and the two rows above it, which remain
/// unchanged.
fn decode_at<S: CodeBytes>(
    shape: Shape,
    place: &mut RowPlace,
    kept: &mut Kept,
    rows: &mut [u8],
    current: u8,
    reader: &mut Reader<'_, S>,
) -> Result<(), Stop>
    requires goes_on { MayGoOnIn shape kept.old place.old reader.old.decoder.now }
    requires long { length rows.old ≡ 3 * div_ceil shape.width 8 }
    requires current { current < 3 }
    ensures reads { ReaderReads S.CodeBytes reader.old reader.new result }
    ensures place { LeavesPlace shape kept.old kept.new place.new result }
    ensures above { SameAbove (rows_at current shape.width rows.old)
        (rows_at current shape.width rows.new) }
    ensures row { RowContinues S.CodeBytes shape (row_progress kept.old place.old
        (rows_at current shape.width rows.old) reader.old) (row_progress kept.new place.new
        (rows_at current shape.width rows.new) reader.new) result }
{
    let long = shape.width.div_ceil(8) as usize;
    let (front, rest) = rows.split_at_mut(current as usize * long);
    let (row, back) = rest.split_at_mut(long);
    decode_beside(shape, place, kept, (front, back), row, current, reader)
}

/// Decodes the current row of a window, below the two rows above it.
///
/// After `Stop` the current row, `kept` and the context states are unspecified, and the decoder remains stopped.
pub fn decode_row<S: CodeBytes>(
    shape: Shape,
    kept: &mut Kept,
    window: &mut Window,
    learned: &mut Learned,
    decoder: &mut Decoder,
    source: &mut S,
) -> Result<(), Stop>
    requires row { MayCodeRow shape kept.old window.old }
    ensures stop { StopsOnce S.CodeBytes decoder.old decoder.new source.old source.new result }
    ensures offset { OnOk result (kept.new.offset ≡ kept.old.offset) }
    ensures window { DecodesCurrent window.old window.new }
    ensures row { (p : Place) (answers : List Pulled) (lines : Lines) →
        DecoderIsAt decoder.old p answers → HasLines (held window.old) lines →
        RowDecoded (source_of S.CodeBytes source.old answers) (row_task shape kept.old
        (state_of p learned.old) lines) (row_left kept.new (held window.new))
        (decoder_state source.new decoder.new learned.new) result }
{
    let mut place = RowPlace::start();
    let mut reader = Reader {
        learned,
        decoder,
        source,
    };
    decode_at(
        shape,
        &mut place,
        kept,
        window.rows,
        window.place,
        &mut reader,
    )
}

/// Decodes rows that equal the one above, after another such row, as long as the bits already read determine them, but
/// at most `most`, and adapts the context of the SLNTP pseudo-pixel. Returns how many. The window and `kept` are those
/// of the rows before.
#[inline(always)]
pub fn skip_rows(
    shape: Shape,
    kept: Kept,
    learned: &mut Learned,
    decoder: &mut Decoder,
    most: u32,
) -> u32
    ensures few { result ≤ most }
    ensures stop { has_stopped decoder.new ≡ has_stopped decoder.old }
    ensures none { result ≡ 0 → (decoder.new ≡ decoder.old) × (learned.new ≡ learned.old) }
    ensures typical { 0 < result → (shape.typical ≡ true) × (kept.previous_typical ≡ true) }
    ensures skipped { (p : Place) (answers : List Pulled) → DecoderIsAt decoder.old p answers →
        0 < result → RunDecoded (pixel_run decoder.old (state_of p learned.old) (again_event shape)
        result) answers decoder.new learned.new }
    ensures exact { (p : Place) (answers : List Pulled) → DecoderIsAt decoder.new p answers →
        result < most → CanSkipRow shape kept decoder.new (state_of p learned.new) answers → ⊥ }
{
    if !shape.typical {
        return 0;
    }
    if !kept.previous_typical {
        return 0;
    }
    decoder.next_run(learned, flag_context(shape.two_line), true, most)
}

/// Continues decoding the current row of a window, below the two rows above it, from the position `place`. At the
/// beginning of a row that is `RowPlace::start`, and after its end it is so again.
///
/// After `Stop` the row is decoded as far as the code bytes determine it. A call with a source of the bytes that follow
/// continues there.
pub fn go_on_row<S: CodeBytes>(
    shape: Shape,
    place: &mut RowPlace,
    kept: &mut Kept,
    window: &mut Window,
    learned: &mut Learned,
    decoder: &mut Decoder,
    source: &mut S,
) -> Result<(), Stop>
    requires row { MayGoOnRow shape kept.old place.old window.old decoder.old }
    ensures going { has_stopped decoder.new ≡ false }
    ensures source { SourceGoesOn S.CodeBytes source.old source.new result }
    ensures offset { kept.new.offset ≡ kept.old.offset }
    ensures kept { OnErr result (kept.new ≡ kept.old) }
    ensures window { DecodesCurrent window.old window.new }
    ensures within { place.new.done < shape.width }
    ensures start { OnOk result (IsRowStart place.new) }
    ensures row { (s : State) (answers : List Pulled) (lines : Lines) →
        StandsInRow (row_task shape kept.old s lines) place.old answers (held window.old)
        learned.old decoder.old → RowPasses (source_of S.CodeBytes source.old answers)
        (row_task shape kept.old s lines) (row_left kept.new (held window.new)) place.new
        (decoder_state source.new decoder.new learned.new) result }
{
    let mut reader = Reader {
        learned,
        decoder,
        source,
    };
    let outcome = decode_at(shape, place, kept, window.rows, window.place, &mut reader);
    reader.decoder.resume();
    if outcome.is_ok() {
        *place = RowPlace::start();
    }
    outcome
}
