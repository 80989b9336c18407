//! Encodes rows one by one.

ghost use Rattle.std.specs.Prelude.{◌≡◌, ◌≢◌, ◌≤◌, ◌<◌, ◌*◌, ◌∷◌, ◌⊎◌, [], length, false, true, Err, Ok, None, OnOk, OnErr, IfErr, IfSome};
ghost use Rattle.std.specs.Io.KnownBytes.{Appends};
ghost use Rattle.pbm_core.specs.Pbm.{bytes_of_row};
ghost use Rattle.pbm_core.specs.Image.{pixels_of};
ghost use Rattle.std.specs.Int.{div_ceil};
ghost use Rattle.raster_core.specs.Packed.{rows_at, with_current};
ghost use Rattle.raster_core.specs.Window.{held, turned, width_of, current_place, memory_of};
ghost use Rattle.t85_core.specs.Encode.{raster_of};
ghost use Rattle.t85_core.specs.Jbg.{jbg, is_low};
ghost use Rattle.t85_core.specs.Failures.{OnlyWrites, writes_after};
ghost use Rattle.t85_core.specs.Options.{settings_of};
ghost use Rattle.t85_core.specs.RowNumbers.{row_numbers};
ghost use Rattle.t85_core.specs.States.ByRow.{view_of, MayGoOn, TakesNextRow, EndsImage, CutsImage, lent_to};
ghost use Rattle.t85_core.specs.States.RowSteps.{IsGoing};
ghost use Rattle.examples.specs.Rows.{MayTake};
ghost use Rattle.t85_core.specs.declared.encoding.by_row.RowEncoder.{RowEncoder};
ghost use Rattle.t85_core.specs.declared.fault.Fault.TheVariants.{AnnouncedLow, Write};

use pbm_core::{Output, Size};
use raster_core::{Window, current_row};
use t85_core::{Fault, Learning, Options, RowEncoder, RowNumbers};

/// Writes the stream of an image of two rows. The output is the stream of the whole image.
#[tactic(auto, using(crate::proofs::WritesJoin::after_ok))]
pub fn two_rows<W: Output>(
    size: Size,
    first: &[u8],
    second: &[u8],
    options: &Options<'_>,
    window: &mut Window<'_>,
    output: &mut W,
) -> Result<(), Fault>
    requires width { width_of window.old ≡ size.width }
    requires two { size.height ≡ 2 }
    requires first { length first.now ≡ bytes_of_row size.width }
    requires second { length second.now ≡ bytes_of_row size.width }
    ensures whole { OnOk result (Appends (W.view output.old).contents (W.view output.new).contents
        (jbg (settings_of options.now) (raster_of size.width (pixels_of size.width first.now ∷
        pixels_of size.width second.now ∷ [])))) }
    ensures low { is_low (settings_of options.now) size.height ≡ true → result ≡ Err AnnouncedLow }
    ensures err { IfErr result (λ f. (f ≡ Write) ⊎ (f ≡ AnnouncedLow)) }
    ensures only_low { result ≡ Err AnnouncedLow →
        is_low (settings_of options.now) size.height ≡ true }
    ensures writes { OnlyWrites (W.view output.old) (W.view output.new) result }
{
    let mut learning = Learning::new();
    let mut encoder = RowEncoder::start(size, options, window, &mut learning, output)?;
    encoder.put_row(first, window, &mut learning, output)?;
    encoder.put_row(second, window, &mut learning, output)?;
    encoder.finish(window, &mut learning, output)
}

/// Whether the encoder accepts another row.
pub fn takes_row(encoder: &RowEncoder) -> bool
    requires within { IsGoing encoder.now → encoder.now.rows ≤ encoder.now.size.height }
    ensures open_ { result ≡ true → IsGoing encoder.now }
    ensures left { result ≡ true → encoder.now.rows < encoder.now.size.height }
    ensures all { IsGoing encoder.now → encoder.now.rows < encoder.now.size.height → result ≡ true }
{
    !encoder.is_closed() && encoder.left() > 0
}

/// Ends the stream if the image may end here, and returns whether it did.
pub fn end_where_allowed<W: Output>(
    encoder: &mut RowEncoder,
    window: &mut Window<'_>,
    learning: &mut Learning,
    output: &mut W,
) -> Result<bool, Fault>
    requires width { width_of window.old ≡ encoder.old.size.width }
    requires going { IsGoing encoder.old }
    requires ready { MayGoOn encoder.old }
    ensures ended { result ≡ Ok true → EndsImage (view_of encoder.old learning.old)
        (held window.old) (W.view output.old).contents (W.view output.new).contents }
    ensures kept { result ≡ Ok false → (encoder.new ≡ encoder.old) × (learning.new ≡ learning.old) ×
        (output.new ≡ output.old) }
    ensures more { result ≡ Ok false → 0 < encoder.old.rows → (encoder.old.may_end ≡ false) ×
        (encoder.old.rows ≢ encoder.old.size.height) }
    ensures cut { OnErr result (CutsImage (view_of encoder.old learning.old) (held window.old)
        (W.view output.old).contents (W.view output.new).contents) }
    ensures err { IfErr result (λ f. f ≡ Write) }
    ensures writes { OnlyWrites (W.view output.old) (W.view output.new) result }
{
    if !encoder.may_finish() {
        return Ok(false);
    }
    encoder.finish(window, learning, output)?;
    Ok(true)
}

/// Encodes a row with an encoder rebuilt from another one's numbers, and returns its own numbers, unless a write fails.
pub fn put_by_numbers<W: Output>(
    size: Size,
    options: &Options<'_>,
    encoder: &RowEncoder,
    row: &[u8],
    window: &mut Window<'_>,
    learning: &mut Learning,
    output: &mut W,
) -> Option<RowNumbers>
    requires { MayTake (settings_of options.now) size encoder.now window.old row.now }
    ensures put { IfSome result (λ n. (e : RowEncoder) × (n ≡ row_numbers e) ×
        TakesNextRow (pixels_of size.width row.now)
        (lent_to encoder.now learning.old (held window.old) (W.view output.old).contents)
        (lent_to e learning.new (held window.new) (W.view output.new).contents)) }
    ensures failed { result ≡ None →
        (W.view output.new).failures ≡ writes_after Write (W.view output.old).failures }
{
    let mut again = RowEncoder::resume(size, options, &encoder.numbers())?;
    match again.put_row(row, window, learning, output) {
        Ok(()) => Some(again.numbers()),
        Err(_) => None,
    }
}

/// Encodes a row below the two that memory holds from an earlier call, at the place which that call returned. Returns
/// the new row's place.
pub fn row_below(memory: &mut [u8], width: u32, place: u8, row: &[u8]) -> u8
    requires memory { length memory.old ≡ 3 * div_ceil width 8 }
    requires place { place < 3 }
    requires row { length row.now ≡ div_ceil width 8 }
    ensures place { result < 3 }
    ensures rows { rows_at result width memory.new ≡
        with_current (turned (rows_at place width memory.old)) row.now }
{
    let mut window = Window::resume(memory, width, place);
    window.turn();
    write_current(&mut window, row);
    window.place()
}

/// Encodes the current row.
fn write_current(window: &mut Window<'_>, row: &[u8])
    requires row { length row.now ≡ div_ceil (width_of window.old) 8 }
    ensures row { held window.new ≡ with_current (held window.old) row.now }
    ensures width { width_of window.new ≡ width_of window.old }
    ensures same_place { current_place window.new ≡ current_place window.old }
    ensures same_memory { memory_of window.new ≡ memory_of window.old }
{
    let current = current_row(window.width(), window.place());
    window.rows[current].copy_from_slice(row);
}
