//! Encodes bytes whose surroundings have the same colour.

ghost use Rattle.std.specs.Prelude.{◌≡◌, ◌≤◌};
ghost use Rattle.qm_core.specs.Puts.{HasRoom, Skips};
ghost use Rattle.raster_core.specs.Machine.Uniform.{uniform_event};
ghost use Rattle.raster_core.specs.Machine.Registers.{is_moved};
ghost use Rattle.raster_core.specs.Machine.Rows.{lines_in, HasRest, PassesRun, PutsRun, StandsAt, byte_range};

use crate::row_byte::Around;
use crate::rows::Rows;
use crate::uniform::{byte_of, is_all, is_all_above, is_filled, uniform_context};
use qm_core::{CodeSink, Coder};

/// Encodes the given number of pixels of a colour in one step, each in the context of that colour, and returns true, if
/// this involves no doubling and no byte of the code; otherwise does nothing and returns false.
#[inline(always)]
pub(crate) fn skip_pixels<W: CodeSink>(colour: bool, count: u32, coder: &mut Coder<'_, W>) -> bool
    requires few { count ≤ 64 }
    requires room { HasRoom count coder.old }
    ensures { Skips W.CodeSink (uniform_event colour) count coder.old coder.new result }
{
    coder.skip(uniform_context(colour), colour, count)
}

/// Encodes bytes of one colour below bytes of that colour, eight in a step, as long as this involves no byte of the
/// code, and returns how many bytes. The pixels before them must have the colour.
#[inline(never)]
fn skip_bytes<W: CodeSink>(
    colour: bool,
    rows: Rows<'_>,
    i: usize,
    coder: &mut Coder<'_, W>,
) -> usize
    requires rest { HasRest W.CodeSink rows i coder.old }
    ensures { PutsRun W.CodeSink colour (byte_range rows.entry i result) coder.old coder.new }
{
    let mut at = i;
    let mut left = rows.width - 8 * i as u32;
    'words: while is_all_above(colour, rows.above, rows.second, at, left)
        && is_all(colour, rows.current, at)
        && skip_pixels(colour, 64, coder)
    {
        at += 8;
        left -= 64;
    }
    at - i
}

/// The same if all preceding pixels in the registers have one colour; otherwise encodes nothing.
#[inline(always)]
pub(crate) fn skip_run<W: CodeSink, const MOVED: bool>(
    around: Around,
    rows: Rows<'_>,
    i: usize,
    coder: &mut Coder<'_, W>,
) -> usize
    requires moved { MOVED ≡ is_moved around.template.offset }
    requires stands { StandsAt around around.template (lines_in rows) i }
    requires rest { HasRest W.CodeSink rows i coder.old }
    ensures { PassesRun W.CodeSink around (byte_range rows.entry i result) coder.old coder.new }
{
    // Most bytes that are not part of a run end here.
    if around.second != around.above {
        return 0;
    }
    let colour = around.above == 0xFF_FFFF;
    if rows.current[i] == byte_of(colour)
        && is_filled::<MOVED>(colour, around.second, around.above, around.past)
    {
        skip_bytes(colour, rows, i, coder)
    } else {
        0
    }
}
