//! Encodes the pixels of a row, byte by byte.

ghost use Rattle.qm_core.specs.Puts.{HasRoom, Puts};
ghost use Rattle.raster_core.specs.Machine.Bytes.{IsMadeFor};
ghost use Rattle.raster_core.specs.Machine.Rows.{plain_events};

use crate::context::by_template;
use crate::encode::byte::{encode_byte, encode_pixels};
use crate::encode::runs::skip_run;
use crate::row_byte::{Around, Template};
use crate::rows::Rows;
use qm_core::{CodeSink, Coder, CoderFault};

/// Encodes the pixels of a row, in code that is compiled for its template.
fn encode_bytes<W: CodeSink, const TWO_LINE: bool, const MOVED: bool>(
    template: Template,
    rows: Rows<'_>,
    coder: &mut Coder<'_, W>,
) -> Result<(), CoderFault>
    requires template { IsMadeFor TWO_LINE MOVED template }
    requires room { HasRoom rows.width coder.old }
    ensures { Puts W.CodeSink (plain_events template rows.entry) coder.old coder.new result }
{
    let whole = (rows.width / 8) as usize;
    let mut around = Around::start(template, rows);
    let mut i = 0;
    'bytes: while i < whole {
        let skipped = skip_run::<_, MOVED>(around, rows, i, coder);
        if skipped > 0 {
            i += skipped;
            continue;
        }
        let byte = around.byte(rows, i);
        encode_byte::<_, TWO_LINE, MOVED>(byte, coder)?;
        around = byte.after::<MOVED>();
        i += 1;
    }
    let last = rows.width % 8;
    if last == 0 {
        return Ok(());
    }
    encode_pixels::<_, TWO_LINE, MOVED>(around.byte(rows, i), last, coder)
}

/// Encodes the pixels of a row.
#[inline(always)]
pub(crate) fn encode_plain<W: CodeSink>(
    template: Template,
    rows: Rows<'_>,
    coder: &mut Coder<'_, W>,
) -> Result<(), CoderFault>
    requires room { HasRoom rows.width coder.old }
    ensures { Puts W.CodeSink (plain_events template rows.entry) coder.old coder.new result }
{
    by_template!(
        encode_bytes,
        template,
        template.offset,
        (template, rows, coder)
    )
}
