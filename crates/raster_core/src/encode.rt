//! Encodes a row.

ghost use Rattle.std.specs.Prelude.{◌≡◌, ℕ, ◌+◌, ◌≤◌, List, IsTrue, OnOk, false, true, replicate};
ghost use Rattle.qm_core.specs.Encoder.{EncoderIsAt, FailsOnce, event_count, has_failed, encoder_state};
ghost use Rattle.qm_core.specs.Place.{Place, state_of};
ghost use Rattle.raster_core.specs.Machine.Places.{MayCodeRow};
ghost use Rattle.raster_core.specs.Lines.{Lines, may_be_typical};
ghost use Rattle.raster_core.specs.Packed.{HasLines};
ghost use Rattle.qm_core.specs.Puts.{HasRoom, IsUnchanged, Puts, failed_answer};
ghost use Rattle.qm_core.specs.Sink.{sink_at};
ghost use Rattle.raster_core.specs.Row.{RowEncoded, RowsEncodedAgain, again_event, row_task};
ghost use Rattle.raster_core.specs.Window.{shape_mode, held};
ghost use Rattle.raster_core.specs.Machine.Rows.{coded_events, flag_events};

mod byte;
mod row;
mod runs;

use crate::context::flag_context;
use crate::encode::row::encode_plain;
use crate::row_byte::Template;
use crate::rows::Rows;
use crate::shape::{Kept, Shape};
use crate::window::Window;
use qm_core::{CodeSink, Coder, CoderFault, Encoder, Learned, MAX_EVENTS};

/// Whether the current row may be typical: typical prediction is on, and the row equals the row above.
#[inline(always)]
fn is_typical(shape: Shape, window: &Window) -> bool
    ensures typical { IsTrue result → IsTrue shape.typical }
    ensures lines { (lines : Lines) → HasLines (held window.now) lines →
        result ≡ may_be_typical (shape_mode shape) lines }
{
    shape.typical && window.row(0) == window.row(1)
}

/// Encodes the SLNTP pseudo-pixel before a row, which signals whether the row is typical.
#[inline(always)]
fn encode_flag<W: CodeSink>(
    shape: Shape,
    previous: bool,
    flag: bool,
    coder: &mut Coder<'_, W>,
) -> Result<(), CoderFault>
    requires { HasRoom 1 coder.old }
    ensures { Puts W.CodeSink (flag_events shape previous flag) coder.old coder.new result }
{
    if shape.typical {
        coder.put(flag_context(shape.two_line), flag == previous)
    } else {
        Ok(())
    }
}

/// Encodes a row, as typical or pixel by pixel, as the flag says.
#[inline(always)]
fn encode_as<W: CodeSink>(
    shape: Shape,
    template: Template,
    rows: Rows<'_>,
    previous: bool,
    flag: bool,
    coder: &mut Coder<'_, W>,
) -> Result<(), CoderFault>
    requires { HasRoom (rows.width + 1) coder.old }
    ensures { Puts W.CodeSink (coded_events (shape_mode shape) template rows.entry previous flag)
        coder.old coder.new result }
{
    encode_flag(shape, previous, flag, coder)?;
    if flag {
        return Ok(());
    }
    encode_plain(template, rows, coder)
}

/// Encodes the current row of a window. The row is typical whenever it may be.
///
/// After an error, `kept` and the context states are unspecified, and the encoder has failed.
pub fn encode_row<W: CodeSink>(
    shape: Shape,
    kept: &mut Kept,
    window: &Window,
    learned: &mut Learned,
    encoder: &mut Encoder,
    out: &mut W,
) -> Result<(), CoderFault>
    requires row { MayCodeRow shape kept.old window.now }
    requires events { event_count encoder.old + shape.width + 1 ≤ MAX_EVENTS }
    ensures fails { FailsOnce W.failed encoder.old encoder.new out.old out.new result }
    ensures events { OnOk result (event_count encoder.new ≤ event_count encoder.old + shape.width +
        1) }
    ensures offset { OnOk result (kept.new.offset ≡ kept.old.offset) }
    ensures row { (p : Place) (pushed : List ℕ) (lines : Lines) → has_failed encoder.old ≡ false →
        EncoderIsAt encoder.old p pushed → HasLines (held window.now) lines →
        RowEncoded (sink_at W.CodeSink out.old pushed)
        (row_task shape kept.old (state_of p learned.old) lines) kept.new
        (encoder_state out.new encoder.new learned.new) result }
{
    let flag = is_typical(shape, window);
    // A typical row below a typical row is always the same decision. Nothing else is prepared for it.
    if flag && kept.previous_typical {
        let mut coder = Coder {
            learned,
            encoder,
            out,
        };
        return coder.put(flag_context(shape.two_line), true);
    }
    let rows = window.rows();
    let template = Template {
        two_line: shape.two_line,
        offset: kept.offset,
    };
    let mut coder = Coder {
        learned,
        encoder,
        out,
    };
    encode_as(
        shape,
        template,
        rows,
        kept.previous_typical,
        flag,
        &mut coder,
    )?;
    kept.previous_typical = flag;
    Ok(())
}

/// Encodes the SLNTP pseudo-pixels of the given number of typical rows, which follow a typical row.
#[inline(always)]
fn encode_flags<W: CodeSink>(
    shape: Shape,
    count: u32,
    coder: &mut Coder<'_, W>,
) -> Result<(), CoderFault>
    requires { HasRoom count coder.old }
    ensures puts { Puts W.CodeSink (replicate count (again_event shape)) coder.old coder.new
        result }
    ensures none { count ≡ 0 → IsUnchanged coder.old coder.new }
{
    let cx = flag_context(shape.two_line);
    for _row in 0..count {
        coder.put(cx, true)?;
    }
    Ok(())
}

/// Encodes the given number of rows, each of which equals the row above it, under typical prediction and after another
/// such row: `kept` is the state kept from that row, and remains so.
///
/// After an error, the context states are unspecified, and the encoder has failed.
pub fn encode_again<W: CodeSink>(
    shape: Shape,
    kept: Kept,
    count: u32,
    learned: &mut Learned,
    encoder: &mut Encoder,
    out: &mut W,
) -> Result<(), CoderFault>
    requires events { event_count encoder.old + count ≤ MAX_EVENTS }
    ensures fails { has_failed encoder.old ≡ false →
        FailsOnce W.failed encoder.old encoder.new out.old out.new result }
    ensures stuck { IsTrue (has_failed encoder.old) →
        (result ≡ failed_answer (replicate count (again_event shape))) ×
        (encoder.new ≡ encoder.old) × (learned.new ≡ learned.old) × (out.new ≡ out.old) }
    ensures none { count ≡ 0 →
        (encoder.new ≡ encoder.old) × (learned.new ≡ learned.old) × (out.new ≡ out.old) }
    ensures events { OnOk result (event_count encoder.new ≤ event_count encoder.old + count) }
    ensures rows { (p : Place) (pushed : List ℕ) → shape.typical ≡ true →
        kept.previous_typical ≡ true → has_failed encoder.old ≡ false →
        EncoderIsAt encoder.old p pushed → RowsEncodedAgain (sink_at W.CodeSink out.old pushed)
        shape (state_of p learned.old) count (encoder_state out.new encoder.new learned.new)
        result }
{
    let mut coder = Coder {
        learned,
        encoder,
        out,
    };
    encode_flags(shape, count, &mut coder)
}
