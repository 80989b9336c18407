//! The height that a stream gives after its header (T.82, 6.2.6.2).

ghost use Rattle.std.specs.Prelude.{◌≡◌, ◌≤◌, ◌-◌, ◌<◌, IfOk, IfErr, false, true};
ghost use Rattle.std.specs.Io.KnownBytes.{Consumes};
ghost use Rattle.byteorder.specs.Endian.{big_bytes};
ghost use Rattle.t85_core.specs.declared.fault.Fault.TheVariants.{Truncated};
ghost use Rattle.t85_core.specs.Options.{fields_of};
ghost use Rattle.t85_core.specs.Private.Buffers.{ReadsOn};
ghost use Rattle.t85_core.specs.Failures.{Ends};
ghost use Rattle.t85_core.specs.Grammar.{NewLength, is_valid_length, IsLegal};
ghost use Rattle.t85_core.specs.Private.Segments.{LengthFault};

use crate::byte_source::ByteSource;
use crate::fault::Fault;
use crate::header::Header;
use crate::segments::{Place, number};

/// Reads what follows the two bytes of a NEWLEN, and checks that it is valid at this position and that there was no
/// other before.
pub(super) fn read_length<S: ByteSource>(
    header: &Header,
    place: Place,
    stream: &mut S,
) -> Result<u32, Fault>
    ensures ok { IfOk result (λ height. (place.given ≡ false) ×
        (is_valid_length (fields_of header.now) place.entities height ≡ true)
        × IsLegal (fields_of header.now) (NewLength height) ×
        Consumes (S.view stream.old).known (S.view stream.new).known (big_bytes 4 height)) }
    ensures err { IfErr result (Ends Truncated (S.view stream.old).known (S.view stream.new).known
        (LengthFault (fields_of header.now) place)) }
    ensures reads { ReadsOn (S.view stream.old) (S.view stream.new) result }
    ensures no_more { (S.view stream.new).left ≤ (S.view stream.old).left }
{
    if !header.is_variable() {
        return Err(Fault::LengthRefused);
    }
    if place.given {
        return Err(Fault::SecondLength);
    }
    let height = number(stream)?;
    if !is_valid(header, place.entities, height) {
        return Err(Fault::LengthRefused);
    }
    Ok(height)
}

/// Whether a height is allowed after `entities` stripe data entities.
fn is_valid(header: &Header, entities: u32, height: u32) -> bool
    ensures { result ≡ is_valid_length (fields_of header.now) entities height }
{
    1 <= height
        && height <= header.yd
        && u64::from(entities.saturating_sub(1)) * u64::from(header.l0) < u64::from(height)
}
