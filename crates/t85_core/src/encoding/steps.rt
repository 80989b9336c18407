//! The steps of an encoder: the head of the stream, the move of a stripe, a row, and the end of a code.

ghost use Rattle.std.specs.Prelude.{[], ◌∷◌, ◌++◌, nat_lt, length, None, IfSome, ◌≡◌, ◌≤◌, ◌<◌, ◌+◌, ◌-◌, ◌^◌, List, ℕ, OnOk, OnErr, false, true, option_map, replicate};
ghost use Rattle.qm_core.specs.Place.{Place, state_of};
ghost use Rattle.raster_core.specs.Tally.{is_two_line, most_of};
ghost use Rattle.raster_core.specs.Offset.{candidates};
ghost use Rattle.qm_core.specs.Encoder.{EncoderIsAt, event_count, has_failed, encoder_state};
ghost use Rattle.raster_core.specs.Lines.{Lines};
ghost use Rattle.raster_core.specs.Packed.{HasLines};
ghost use Rattle.raster_core.specs.Window.{held, width_of};
ghost use Rattle.t85_core.specs.Jbg.{Settings, named_for, head_of, is_low};
ghost use Rattle.t85_core.specs.Options.{settings_of};
ghost use Rattle.t85_core.specs.States.Written.{EncoderStart, next_move};
ghost use Rattle.t85_core.specs.States.Written.{IsCountedTo};
ghost use Rattle.t85_core.specs.States.Written.{IsTallied, has_choice};
ghost use Rattle.t85_core.specs.States.ByRow.{IsSomewhere, IsLined};
ghost use Rattle.t85_core.specs.RowSink.{PutsBytes};
ghost use Rattle.t85_core.specs.Private.Buffers.{WritesOrFails};
ghost use Rattle.t85_core.specs.MostBytes.{AppendsAtMost};
ghost use Rattle.t85_core.specs.Private.AgainRows.{EventsOutcome};
ghost use Rattle.t85_core.specs.Private.RowCalls.{IsFresh, HasCoded, MayCode};
ghost use Rattle.t85_core.specs.Private.RowSteps.{MoveMade, MoveCut, sent_as, RowOutcome, CodeFinished, CodeEnded};
ghost use Rattle.raster_core.specs.Row.{again_event, row_task};

use crate::encoding::segments::{write_comment, write_marker, write_move};
use crate::encoding::sink::EntitySink;
use crate::fault::Fault;
use crate::options::Options;
use crate::output_buffer::ByteTarget;
use pbm_core::Size;
use qm_core::{CoderFault, Encoder, Learned};
use raster_core::{Kept, Shape, Tally, Window, encode_again, encode_row};

/// Writes the header of the stream, and the comment if there is one.
pub fn write_head<P: ByteTarget>(
    size: Size,
    options: &Options<'_>,
    target: &mut P,
) -> Result<(), Fault>
    requires low { is_low (settings_of options.now) size.height ≡ false }
    ensures { PutsBytes (head_of (settings_of options.now) size.width size.height) (P.view
        target.old) (P.view target.new) result }
{
    let header = options.header(size);
    target.put(&header.bytes())?;
    match options.comment {
        Some(text) => write_comment(text, target),
        None => Ok(()),
    }
}

/// The offset to which the adaptive pixel moves: the caller's, unless it is there already; or, if the caller chose
/// none, the one that would have served the previous stripe, if there is one.
fn next_offset(named: Option<u8>, current: u8, has_candidates: bool, tally: &Tally) -> Option<u8>
    requires named { IfSome named (λ t. t ≤ 127) }
    ensures is { (s : Settings) (width : ℕ) (at : EncoderStart) → current ≡ at.carry.offset →
        named ≡ named_for s at.stripe → has_candidates ≡ has_choice s →
        IsTallied s width at tally.now → option_map (λ t. (0, t)) result ≡ next_move s width at }
    ensures small { IfSome result (λ t. t ≤ 127) }
{
    match named {
        Some(offset) => {
            if offset == current {
                None
            } else {
                Some(offset)
            }
        }
        None => {
            if has_candidates {
                tally.choose(current)
            } else {
                None
            }
        }
    }
}

/// Moves the adaptive pixel to the caller's offset or, without one, if that would have served the previous stripe, and
/// writes the move.
pub fn move_pixel<P: ByteTarget>(
    kept: &mut Kept,
    named: Option<u8>,
    has_candidates: bool,
    tally: &Tally,
    target: &mut P,
) -> Result<(), Fault>
    requires named { IfSome named (λ t. t ≤ 127) }
    ensures ok { OnOk result ((s : Settings) (width : ℕ) (at : EncoderStart) →
        kept.old.offset ≡ at.carry.offset → named ≡ named_for s at.stripe →
        has_candidates ≡ has_choice s → IsTallied s width at tally.now →
        MoveMade (next_move s width at) at.carry.offset (P.view target.old).text
        (P.view target.new).text kept.old kept.new) }
    ensures cut { OnErr result ((s : Settings) (width : ℕ) (at : EncoderStart) →
        kept.old.offset ≡ at.carry.offset → named ≡ named_for s at.stripe →
        has_candidates ≡ has_choice s → IsTallied s width at tally.now →
        MoveCut s width at (P.view target.old).text (P.view target.new).text) }
    ensures few { AppendsAtMost 8 (P.view target.old).text (P.view target.new).text }
    ensures fails { WritesOrFails (P.view target.old) (P.view target.new) result }
{
    match next_offset(named, kept.offset, has_candidates, tally) {
        Some(offset) => {
            write_move(offset, target)?;
            kept.offset = offset;
            Ok(())
        }
        None => Ok(()),
    }
}

/// Encodes the window's current row.
pub fn code_row<P: ByteTarget>(
    shape: Shape,
    window: &Window<'_>,
    kept: &mut Kept,
    learned: &mut Learned,
    encoder: &mut Encoder,
    target: &mut P,
) -> Result<(), Fault>
    requires able { MayCode shape kept.old window.now encoder.old }
    requires somewhere { IsSomewhere encoder.old }
    requires lined { IsLined (held window.now) }
    ensures row { (p : Place) (pushed : List ℕ) (lines : Lines) → EncoderIsAt encoder.old p pushed →
        HasLines (held window.now) lines →
        RowOutcome (row_task shape kept.old (state_of p learned.old) lines) pushed kept.new
        (P.view target.old).text
        (encoder_state (P.view target.new).text encoder.new learned.new) result }
    ensures able { OnOk result (HasCoded shape kept.old kept.new encoder.old encoder.new) }
    ensures fails { WritesOrFails (P.view target.old) (P.view target.new) result }
{
    let mut ink = EntitySink::new(target);
    written(encode_row(shape, kept, window, learned, encoder, &mut ink))
}

/// Encodes this many typical rows after a typical row.
pub fn code_again<P: ByteTarget>(
    shape: Shape,
    kept: Kept,
    count: u32,
    learned: &mut Learned,
    encoder: &mut Encoder,
    target: &mut P,
) -> Result<(), Fault>
    requires typical { (shape.typical ≡ true) × (kept.previous_typical ≡ true) }
    requires few { event_count encoder.old + count ≤ 2 ^ 56 }
    requires going { has_failed encoder.old ≡ false }
    requires somewhere { IsSomewhere encoder.old }
    ensures rows { (p : Place) (pushed : List ℕ) → EncoderIsAt encoder.old p pushed →
        EventsOutcome (state_of p learned.old) pushed (replicate count (again_event shape))
        (P.view target.old).text
        (encoder_state (P.view target.new).text encoder.new learned.new) result }
    ensures able { OnOk result ((has_failed encoder.new ≡ false) ×
        (event_count encoder.new ≤ event_count encoder.old + count)) }
    ensures fails { WritesOrFails (P.view target.old) (P.view target.new) result }
{
    let mut ink = EntitySink::new(target);
    written(encode_again(shape, kept, count, learned, encoder, &mut ink))
}

/// The answer of a call whose coder answered so: its fault is a failed write.
fn written(answer: Result<(), CoderFault>) -> Result<(), Fault>
    ensures { result ≡ sent_as answer }
{
    match answer {
        Ok(()) => Ok(()),
        Err(_) => Err(Fault::Write),
    }
}

/// Ends a code. The encoder then begins another.
fn end_code<P: ByteTarget>(encoder: &mut Encoder, target: &mut P) -> Result<(), Fault>
    requires going { has_failed encoder.old ≡ false }
    requires somewhere { IsSomewhere encoder.old }
    ensures ended { (p : Place) (pushed : List ℕ) → EncoderIsAt encoder.old p pushed →
        CodeFinished p pushed (P.view target.old).text (P.view target.new).text result }
    ensures begins { OnOk result (IsFresh encoder.new) }
    ensures fails { WritesOrFails (P.view target.old) (P.view target.new) result }
{
    let mut ink = EntitySink::new(target);
    written(encoder.restart(&mut ink))
}

/// Ends a code, and writes the end marker. The encoder then begins another code.
pub fn end_entity<P: ByteTarget>(
    encoder: &mut Encoder,
    reset: bool,
    target: &mut P,
) -> Result<(), Fault>
    requires going { has_failed encoder.old ≡ false }
    requires somewhere { IsSomewhere encoder.old }
    ensures ended { (p : Place) (pushed : List ℕ) → EncoderIsAt encoder.old p pushed →
        CodeEnded p reset pushed (P.view target.old).text (P.view target.new).text result }
    ensures begins { OnOk result (IsFresh encoder.new) }
    ensures fails { WritesOrFails (P.view target.old) (P.view target.new) result }
{
    end_code(encoder, target)?;
    write_marker(reset, target)
}

/// Counts the window's current row, with the given offset, if there is one.
pub fn count_row(counted: Option<u8>, window: &Window<'_>, tally: &mut Tally)
    requires offset { IfSome counted (λ offset. offset ≤ 127) }
    ensures counts { (lines : List Lines) (l : Lines) → length lines < 2 ^ 32 - 1 →
        HasLines (held window.now) l → IsCountedTo (width_of window.now) counted tally.old lines →
        IsCountedTo (width_of window.now) counted tally.new (lines ++ l ∷ []) }
    ensures none { counted ≡ None → tally.new ≡ tally.old }
    ensures two_line { is_two_line tally.new ≡ is_two_line tally.old }
    ensures most { most_of tally.new ≡ most_of tally.old }
{
    if let Some(offset) = counted {
        tally.add_row(window, offset);
    }
}

/// Counts the window's current row so many times, each time below an equal row, with the given offset, if there is one.
pub fn count_again(counted: Option<u8>, window: &Window<'_>, count: u32, tally: &mut Tally)
    requires offset { IfSome counted (λ offset. offset ≤ 127) }
    ensures counts { (lines : List Lines) (l : Lines) → length lines + count < 2 ^ 32 →
        HasLines (held window.now) l → IsCountedTo (width_of window.now) counted tally.old lines →
        IsCountedTo (width_of window.now) counted tally.new (lines ++ replicate count l) }
    ensures two_line { is_two_line tally.new ≡ is_two_line tally.old }
    ensures most { most_of tally.new ≡ most_of tally.old }
{
    if let Some(offset) = counted {
        tally.add_rows(window, offset, count);
    }
}

/// Whether there are offsets to choose from.
pub fn has_candidates(shape: Shape, most: u8) -> bool
    ensures { result ≡ nat_lt 0 (length (candidates shape.two_line most)) }
{
    most >= if shape.two_line { 5 } else { 3 }
}
