//! Reads the marker segments before a code (T.82, 6.2.6).

ghost use Rattle.std.specs.Prelude.{◌≡◌, ◌≢◌, ◌≤◌, ◌^◌, ◌<◌, ◌++◌, ◌∷◌, [], List, ℕ, Option, length, OnOk, IfOk, IfErr, Some};
ghost use Rattle.std.specs.Io.KnownBytes.{Consumes};
ghost use Rattle.byteorder.specs.Endian.{big_bytes};
ghost use Rattle.t85_core.specs.declared.fault.Fault.TheVariants.{Truncated};
ghost use Rattle.t85_core.specs.Options.{fields_of};
ghost use Rattle.t85_core.specs.Private.Buffers.{ReadsOn};
ghost use Rattle.t85_core.specs.Failures.{Ends};
ghost use Rattle.t85_core.specs.Refusal.{move_fault, comment_fault};
ghost use Rattle.t85_core.specs.Private.Segments.{PieceFault, Passes};

use crate::byte_source::ByteSource;
use crate::fault::Fault;
use crate::header::Header;
use crate::segments::length::read_length;
use crate::segments::markers::ABORT;
use crate::segments::{ATMOVE, COMMENT, Element, Move, NEWLEN, Place, number};

/// Reads what follows the two bytes of a marker segment, of which `escape` is the second.
#[inline(never)]
pub(super) fn read_segment<S: ByteSource>(
    header: &Header,
    place: Place,
    moved: bool,
    escape: u8,
    stream: &mut S,
) -> Result<Element, Fault>
    requires no_code { (escape ≢ 0) × (escape ≢ 2) × (escape ≢ 3) }
    ensures ok { IfOk result (λ element. (before : Option (List ℕ)) → Consumes before
        (S.view stream.old).known (255 ∷ escape ∷ []) → Passes (fields_of header.now) place moved
        before (S.view stream.new).known element) }
    ensures err { IfErr result (λ fault. (before : Option (List ℕ)) → Consumes before
        (S.view stream.old).known (255 ∷ escape ∷ []) → Ends Truncated before
        (S.view stream.new).known (PieceFault (fields_of header.now) place moved) fault) }
    ensures reads { ReadsOn (S.view stream.old) (S.view stream.new) result }
    ensures no_more { (S.view stream.new).left ≤ (S.view stream.old).left }
{
    match escape {
        ABORT => Err(Fault::Aborted),
        NEWLEN => {
            let height = read_length(header, place, stream)?;
            Ok(Element::NewLength(height))
        }
        ATMOVE => {
            if moved {
                return Err(Fault::SecondMove);
            }
            let to = read_move(header, stream)?;
            Ok(Element::Move(to))
        }
        COMMENT => {
            skip_comment(stream)?;
            Ok(Element::Comment)
        }
        _ => Err(Fault::BadEscape),
    }
}

/// Reads what follows the two bytes of an ATMOVE, and checks it.
fn read_move<S: ByteSource>(header: &Header, stream: &mut S) -> Result<Move, Fault>
    ensures ok { IfOk result (λ to. (to.row < header.now.l0) × (to.offset ≤ header.now.mx)
        × Consumes (S.view stream.old).known (S.view stream.new).known
        (big_bytes 4 to.row ++ to.offset ∷ 0 ∷ [])) }
    ensures err { IfErr result (Ends Truncated (S.view stream.old).known (S.view stream.new).known
        (λ given fault. move_fault (fields_of header.now) 0 given ≡ Some fault)) }
    ensures reads { ReadsOn (S.view stream.old) (S.view stream.new) result }
    ensures no_more { (S.view stream.new).left ≤ (S.view stream.old).left }
{
    let row = number(stream)?;
    let offset = stream.next()?;
    let last = stream.next()?;
    if row >= header.l0 || offset > header.mx || last != 0 {
        return Err(Fault::MoveRefused);
    }
    Ok(Move { row, offset })
}

/// Skips what follows the two bytes of a COMMENT.
fn skip_comment<S: ByteSource>(stream: &mut S) -> Result<(), Fault>
    ensures ok { OnOk result ((text : List ℕ) × (length text < 2 ^ 32) × Consumes (S.view
        stream.old).known (S.view stream.new).known (big_bytes 4 (length text) ++ text)) }
    ensures err { IfErr result (Ends Truncated (S.view stream.old).known (S.view stream.new).known
        (λ given fault. comment_fault given ≡ Some fault)) }
    ensures reads { ReadsOn (S.view stream.old) (S.view stream.new) result }
    ensures no_more { (S.view stream.new).left ≤ (S.view stream.old).left }
{
    let len = number(stream)?;
    'text: for _ in 0..len {
        stream.next()?;
    }
    Ok(())
}
