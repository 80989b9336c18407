//! Finds the end marker of a code.

ghost use Rattle.std.specs.Prelude.{◌≡◌, ◌≤◌, ◌⊎◌, Bool, length, None, IfErr, IfOk, IsErrOf, IsOk, Some};
ghost use Rattle.t85_core.specs.declared.segments.Code.TheVariants as code;
ghost use Rattle.t85_core.specs.declared.fault.Fault.TheVariants.{Truncated};
ghost use Rattle.t85_core.specs.Private.PieceCode.{FindsMarker, MissesMarker, KeepsCode, SkipsSome, SkipBreaks};

use crate::byte_source::ByteSource;
use crate::fault::Fault;
use crate::pieces::piece::{Piece, whole_code};
use crate::segments::Code;

/// Skips the rest of a code, and returns whether its end marker resets. If the marker has not arrived yet, skips what
/// has.
pub fn find_marker(
    first: &mut Option<Code>,
    marker: Option<bool>,
    piece: &mut Piece<'_>,
) -> Result<bool, Fault>
    ensures ok { IfOk result (FindsMarker first.old marker piece.old.rest.now piece.new.rest.now) }
    ensures err { IfErr result (MissesMarker first.old marker piece.old.rest.now) }
    ensures more { IsErrOf result Truncated → KeepsCode first.old first.new marker
        piece.old.rest.now piece.new.rest.now }
    ensures gone { IfErr result (λ _. first.new ≡ None) }
    ensures few { IsErrOf result Truncated → length piece.new.rest.now ≤ 1 }
    ensures no_more { length piece.new.rest.now ≤ length piece.old.rest.now }
    ensures whole { (reset : Bool) → (marker ≡ Some reset) ⊎ (first.old ≡ Some (code.Marker reset))
        → IsOk result }
{
    if let Some(reset) = marker {
        return Ok(reset);
    }
    match first.take() {
        Some(Code::Marker(reset)) => Ok(reset),
        Some(Code::Byte(_)) => skip_some(piece),
        None => skip_some(piece),
    }
}

/// Skips bytes of a code, and its end marker, as far as they have arrived.
fn skip_some(piece: &mut Piece<'_>) -> Result<bool, Fault>
    ensures ok { IfOk result (SkipsSome piece.old.rest.now piece.new.rest.now) }
    ensures err { IfErr result (SkipBreaks piece.old.rest.now piece.new.rest.now) }
    ensures no_more { length piece.new.rest.now ≤ length piece.old.rest.now }
{
    'code: loop {
        piece.skip_plain();
        match whole_code(piece) {
            Ok(Code::Byte(_)) => {}
            Ok(Code::Marker(reset)) => return Ok(reset),
            Err(fault) => return Err(fault),
        }
    }
}
