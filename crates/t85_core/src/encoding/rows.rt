//! Rows that a caller passes, and the beginning of a stream.

ghost use Rattle.std.specs.Prelude.{◌≡◌, ◌<◌, ◌-◌, [], ℕ, length, slice_index, OnErr, IfOk, IfErr, false};
ghost use Rattle.devices.specs.Device.{AppendsBeginning};
ghost use Rattle.pbm_core.specs.Pbm.{bytes_of_row, masked_row};
ghost use Rattle.pbm_core.specs.Image.{pixels_of};
ghost use Rattle.raster_core.specs.Packed.{with_current};
ghost use Rattle.raster_core.specs.Window.{held, turned, width_of};
ghost use Rattle.t85_core.specs.Lent.{StaysWindow, TurnsWindow};
ghost use Rattle.t85_core.specs.Jbg.{head_of, is_low};
ghost use Rattle.t85_core.specs.Options.{settings_of};
ghost use Rattle.t85_core.specs.States.Views.{text_taken};
ghost use Rattle.t85_core.specs.Private.Views.{WritesBehind};
ghost use Rattle.t85_core.specs.States.Sent.{here};
ghost use Rattle.t85_core.specs.States.ByRow.{view_of, IsLined, IsBelow, Stands};
ghost use Rattle.t85_core.specs.RowImage.{image_for};
ghost use Rattle.t85_core.specs.States.RowCalls.{HasNoRows};
ghost use Rattle.t85_core.specs.declared.fault.Fault.TheVariants.{Write};

use crate::encoding::by_row::RowEncoder;
use crate::encoding::learning::Learning;
use crate::encoding::steps::write_head;
use crate::fault::Fault;
use crate::options::Options;
use crate::output_buffer::{OutputBuffer, ROW_HELD};
use devices::Output;
use pbm_core::Size;
use pbm_core::laws::masks;
use raster_core::{Window, current_row};

/// Moves down one row in the window, and copies the row there. Bits after its last pixel are ignored.
pub fn take_row(row: &[u8], size: Size, window: &mut Window<'_>)
    requires whole { length row.now ≡ bytes_of_row size.width }
    requires width { width_of window.old ≡ size.width }
    ensures below { IsBelow (pixels_of size.width row.now) (held window.old) (held window.new) }
    ensures window { TurnsWindow window.old window.new }
{
    // The proof uses these laws about rows.
    masks();
    window.turn();
    let current = current_row(window.width(), window.place());
    copy_row(row, size, &mut window.rows[current]);
}

/// Clears the bits after the last pixel in all three rows, since a window that a caller keeps may contain anything.
pub fn clear_padding(size: Size, window: &mut Window<'_>)
    requires { width_of window.old ≡ size.width }
    ensures lined { IsLined (held window.new) }
    ensures stays { IsLined (held window.old) → held window.new ≡ held window.old }
    ensures window { StaysWindow window.old window.new }
{
    // The proof uses these laws about rows.
    masks();
    turn_cleared(size, window);
    turn_cleared(size, window);
    turn_cleared(size, window);
}

/// Moves down one row in the window, and clears the bits after the last pixel of the row that is there.
fn turn_cleared(size: Size, window: &mut Window<'_>)
    requires { width_of window.old ≡ size.width }
    ensures whole { length (held window.old).second ≡ bytes_of_row size.width }
    ensures rows { held window.new ≡ with_current (turned (held window.old))
        (masked_row size.width (held window.old).second) }
    ensures small { (k : ℕ) → slice_index (held window.new).current k < 256 }
    ensures window { TurnsWindow window.old window.new }
{
    window.turn();
    let current = current_row(window.width(), window.place());
    clear_last(size, &mut window.rows[current]);
}

/// Copies a row, and clears the bits after its last pixel.
fn copy_row(row: &[u8], size: Size, to: &mut [u8])
    requires whole { length row.now ≡ bytes_of_row size.width }
    requires room { length to.old ≡ bytes_of_row size.width }
    ensures masked { to.new ≡ masked_row size.width row.now }
    ensures small { (k : ℕ) → slice_index to.new k < 256 }
{
    to.copy_from_slice(row);
    clear_last(size, to);
}

/// Clears the bits after the last pixel.
fn clear_last(size: Size, row: &mut [u8])
    requires { length row.old ≡ bytes_of_row size.width }
    ensures masked { row.new ≡ masked_row size.width row.old }
    ensures small { (k : ℕ) → slice_index row.new k < 256 }
{
    let last = row.len() - 1;
    let padding = row.len() * 8 - size.width as usize;
    row[last] -= row[last] % (1u8 << padding);
}

/// Begins a stream, and writes the buffer.
pub fn start_held<W: Output>(
    size: Size,
    options: &Options<'_>,
    window: &mut Window<'_>,
    learning: &mut Learning,
    buffer: &mut OutputBuffer<'_, W, ROW_HELD>,
) -> Result<RowEncoder, Fault>
    requires width { width_of window.old ≡ size.width }
    requires low { is_low (settings_of options.now) size.height ≡ false }
    ensures begun { IfOk result (λ e. Stands (image_for options.now size) []
        (view_of e learning.new) (held window.new) (here (text_taken buffer.old))
        (W.view buffer.new.output.now).contents) }
    ensures begins { IfOk result (HasNoRows size) }
    ensures window { StaysWindow window.old window.new }
    ensures cut { OnErr result (AppendsBeginning (text_taken buffer.old) (text_taken buffer.new)
        (head_of (settings_of options.now) size.width size.height)) }
    ensures err { IfErr result (λ f. f ≡ Write) }
    ensures writes { WritesBehind buffer.old buffer.new result }
{
    window.clear();
    write_head(size, options, buffer)?;
    buffer.write_held()?;
    *learning = Learning::first(size, options);
    Ok(RowEncoder::new(size, options))
}
