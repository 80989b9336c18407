//! Decodes what precedes the pixels of a row: the SLNTP pseudo-pixel.

ghost use Rattle.std.specs.Prelude.{◌≡◌, IsTrue, IsErr, OnOk, OnErr, IfOk, false, true};
ghost use Rattle.qm_core.specs.Decoder.{SourceGoesOn, has_stopped};
ghost use Rattle.qm_core.specs.Reads.{SameReader, reader_state};
ghost use Rattle.qm_core.specs.Source.{Pulls};
ghost use Rattle.raster_core.specs.Machine.Continues.{BeginsRow, StopsBeforeRow};
ghost use Rattle.raster_core.specs.Row.{FromRowPlace};

use crate::context::flag_context;
use crate::place::RowPlace;
use crate::shape::{Kept, Shape};
use qm_core::{CodeBytes, Reader, Stop};

/// Decodes the pseudo-pixel before a row, unless this has been done, and returns whether the row is typical.
pub(super) fn begin_row<S: CodeBytes>(
    shape: Shape,
    place: RowPlace,
    kept: Kept,
    reader: &mut Reader<'_, S>,
) -> Result<bool, Stop>
    requires going { place.is_begun ≡ true → has_stopped reader.old.decoder.now ≡ false }
    ensures lends { SameReader reader.old reader.new }
    ensures stopped { IsTrue (has_stopped reader.old.decoder.now) →
        (reader.new.decoder.now ≡ reader.old.decoder.now) ×
        (reader.new.source.now ≡ reader.old.source.now) }
    ensures going { OnOk result (has_stopped reader.new.decoder.now ≡
        has_stopped reader.old.decoder.now) }
    ensures stops { IsErr result → IsTrue (has_stopped reader.new.decoder.now) }
    ensures source { has_stopped reader.old.decoder.now ≡ false →
        SourceGoesOn S.CodeBytes reader.old.source.now reader.new.source.now result }
    ensures typical { IfOk result (λ flag. IsTrue (has_stopped reader.old.decoder.now) →
        flag ≡ false) }
    ensures ok { IfOk result (λ flag. FromRowPlace (Pulls S.gives S.failed) shape kept place
        (reader_state reader.old) (BeginsRow place flag reader.new)) }
    ensures err { OnErr result (FromRowPlace (Pulls S.gives S.failed) shape kept place
        (reader_state reader.old) (StopsBeforeRow place reader.new)) }
{
    if shape.typical && !place.is_begun {
        let pixel = reader.next(flag_context(shape.two_line))?;
        Ok(pixel == kept.previous_typical)
    } else {
        Ok(false)
    }
}
