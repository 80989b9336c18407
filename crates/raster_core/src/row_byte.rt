//! A byte of a row, and the pixels that its contexts contain.

ghost use Rattle.std.specs.Prelude.{◌≡◌, ◌+◌, ◌<◌, ◌≤◌, ◌^◌};
ghost use Rattle.raster_core.specs.Machine.Registers.{past_bits};

use crate::bytes::byte_at;
use crate::rows::Rows;
use crate::uniform::{is_run, past_eight};

/// Which pixels a context contains: those of the two-line or the three-line template, and the adaptive pixel, which is
/// `offset` to the left in the row itself, or in its nominal position if `offset` is 0.
#[derive(Clone, Copy)]
pub(crate) struct Template {
    pub(crate) two_line: bool,
    pub(crate) offset: u8,
    ghost in_reach: { offset ≤ 127 },
}

/// The registers that a coder carries along a row.
#[derive(Clone, Copy)]
pub(crate) struct Around {
    pub(crate) template: Template,
    /// The last three bytes of the row two above.
    pub(crate) second: u32,
    /// The last three bytes of the row above.
    pub(crate) above: u32,
    /// The last pixels of the row itself: 64, or 128 for a moved adaptive pixel.
    pub(crate) past: u128,
    ghost second_fits: { second < 2 ^ 24 },
    ghost above_fits: { above < 2 ^ 24 },
    ghost past_fits: { past < 2 ^ past_bits template.offset },
}

/// A byte of a row, and the pixels around it: those before it, and the rows above up to the byte after it.
#[derive(Clone, Copy)]
pub(crate) struct RowByte {
    pub(crate) around: Around,
    pub(crate) byte: u8,
}

impl Around {
    ghost use Rattle.std.specs.Prelude.{length};
    ghost use Rattle.raster_core.specs.Machine.Rows.{lines_in, StandsAt, IsByte};

    /// The registers at the beginning of a row.
    #[inline(always)]
    pub(crate) fn start(template: Template, rows: Rows<'_>) -> Around
        ensures { StandsAt result template (lines_in rows.entry) 0 }
    {
        Around {
            template,
            second: byte_at(rows.second, 0),
            above: byte_at(rows.above, 0),
            past: 0,
        }
    }

    /// Byte i of a row, and the pixels around it.
    #[inline(always)]
    pub(crate) fn byte(self, rows: Rows<'_>, i: usize) -> RowByte
        requires inside { i < length rows.current.now }
        requires stands { StandsAt self self.template (lines_in rows) i }
        ensures { IsByte result self.template (lines_in rows.entry) i }
    {
        let byte = rows.current[i];
        RowByte {
            around: Around {
                template: self.template,
                second: self.second % 0x1_0000 * 256 + byte_at(rows.second, i + 1),
                above: self.above % 0x1_0000 * 256 + byte_at(rows.above, i + 1),
                past: self.past,
            },
            byte,
        }
    }
}

impl RowByte {
    ghost use Rattle.std.specs.Prelude.{nat_eq, true, IsTrue};
    ghost use Rattle.raster_core.specs.Machine.Registers.{is_moved};
    ghost use Rattle.raster_core.specs.Machine.Bytes.{byte_events, IsAllOf};
    ghost use Rattle.raster_core.specs.Machine.Rows.{PassesByte};
    ghost use Rattle.raster_core.specs.Machine.Uniform.{run_of};

    /// Whether the byte has one colour, and so do all pixels of its contexts.
    #[inline(always)]
    pub(crate) fn is_run<const MOVED: bool>(self) -> bool
        requires moved { MOVED ≡ is_moved self.around.template.offset }
        ensures run { IsTrue result → byte_events self 8 ≡ run_of (nat_eq self.byte 255) 8 }
        ensures all { IsAllOf self (nat_eq self.byte 255) → result ≡ true }
    {
        let Around {
            template,
            second,
            above,
            past,
        } = self.around;
        is_run::<MOVED>(template.offset, second, above, self.byte, past)
    }

    /// The registers after the byte.
    #[inline(always)]
    pub(crate) fn after<const MOVED: bool>(self) -> Around
        requires moved { MOVED ≡ is_moved self.around.template.offset }
        ensures { PassesByte self result }
    {
        Around {
            template: self.around.template,
            second: self.around.second,
            above: self.around.above,
            past: past_eight::<MOVED>(self.around.past, self.byte),
        }
    }
}
