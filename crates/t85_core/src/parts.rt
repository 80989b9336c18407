//! Lists the parts of a stream: its header, marker segments and stripe data entities.

ghost use Rattle.std.specs.Prelude.{◌≡◌, ◌≢◌, ◌<◌, ◌-◌, IfErr, IfOk, IfSome, OnOk, Some, None, drop, length, true};
ghost use Rattle.t85_core.specs.Options.{fields_of};
ghost use Rattle.t85_core.specs.Header.{HeaderOf, header_fault, is_variable};
ghost use Rattle.t85_core.specs.Info.{IsWalkFault};
ghost use Rattle.t85_core.specs.Private.HeightWalk.{LookEnds};
ghost use Rattle.t85_core.specs.declared.fault.Fault.TheVariants.{Read};
ghost use Rattle.t85_core.specs.Private.PartSteps.{ReadsPart, MissesPart, IsSegment, place_before, kind_of};

mod walk;

use crate::fault::Fault;
use crate::header::Header;
use crate::height::skip_rest;
use crate::pieces::piece::Piece;
use crate::segments::{self, Place, next_element};

/// The kind of a part.
#[derive(Clone, Copy, Debug, PartialEq, Eq)]
pub enum PartKind {
    Header,
    Comment,
    /// A move of the adaptive template pixel (ATMOVE).
    Move,
    NewHeight,
    /// A stripe data entity: a code and its end marker.
    DataEntity,
}

/// A part of a stream.
#[derive(Clone, Copy, Debug, PartialEq, Eq)]
pub struct Part {
    pub kind: PartKind,
    /// The offset of its first byte from the beginning of the stream.
    pub offset: usize,
    /// Its length in bytes.
    pub len: usize,
    /// The number of stripe data entities before it.
    pub stripe: u32,
}

/// The next item of a walk.
#[derive(Clone, Copy, Debug, PartialEq, Eq)]
pub enum Found {
    Part(Part),
    /// There are no more parts, and the stream has this many bytes. They include an empty stripe data entity after a
    /// height that came last, as the encoder writes it; that is not a part.
    End {
        len: usize,
    },
    /// The part at this offset, after this many stripe data entities, is broken or incomplete.
    Broken {
        fault: Fault,
        offset: usize,
        stripe: u32,
    },
}

/// The state of a walk over the parts of a stream, as numbers that anyone may store.
#[derive(Clone, Copy, Debug, PartialEq, Eq)]
pub struct PartWalk {
    /// The number of bytes passed.
    pub offset: usize,
    /// The number of stripe data entities passed.
    pub entities: u32,
    /// The height that a NEWLEN gave, or 0.
    pub late_height: u32,
    /// Whether the stripe has had its ATMOVE.
    pub moved: bool,
    /// Whether it is known that a height follows the last stripe data entity, or one has followed it.
    pub at_height: bool,
}

/// A part that was read from the body of a stream, and the height that it gives, if any.
#[derive(Clone, Copy)]
pub enum Taken {
    Comment,
    Move,
    NewHeight(u32),
    DataEntity,
}

/// The number of bytes in a header.
const HEADER_LEN: usize = 20;

/// The kind of a part.
fn kind_of(taken: Taken) -> PartKind
    ensures { result ≡ kind_of taken }
{
    match taken {
        Taken::Comment => PartKind::Comment,
        Taken::Move => PartKind::Move,
        Taken::NewHeight(_) => PartKind::NewHeight,
        Taken::DataEntity => PartKind::DataEntity,
    }
}

/// The header at the beginning of a stream.
fn read_header(stream: &[u8]) -> Result<Header, Fault>
    ensures accepted { IfOk result (λ h. HeaderOf stream.now (fields_of h)) }
    ensures refused { IfErr result (λ f. header_fault stream.now ≡ Some f) }
    ensures among { IfErr result (λ f. IsWalkFault f × (f ≢ Read)) }
{
    if stream.len() < HEADER_LEN {
        return Err(Fault::ShortHeader);
    }
    let (front, _) = stream.split_at(HEADER_LEN);
    let mut bytes = [0; HEADER_LEN];
    bytes.copy_from_slice(front);
    Header::accept(&bytes)
}

/// The bytes from an offset on; none beyond the end.
fn rest_of(stream: &[u8], offset: usize) -> &[u8]
    ensures { result.now ≡ drop offset stream.now }
{
    let (_, rest) = stream.split_at(offset.min(stream.len()));
    rest
}

/// Reads a marker segment, or a code and its end marker.
fn read_part(
    header: &Header,
    place: Place,
    moved: bool,
    source: &mut Piece<'_>,
) -> Result<Taken, Fault>
    ensures ok { IfOk result (ReadsPart (fields_of header.now) place moved source.old.rest.now
        source.new.rest.now) }
    ensures err { IfErr result (MissesPart (fields_of header.now) place moved source.old.rest.now) }
    ensures among { IfErr result (λ f. IsWalkFault f × (f ≢ Read)) }
    ensures lowers { OnOk result (length source.new.rest.now < length source.old.rest.now) }
{
    match next_element(header, place, moved, source)? {
        segments::Element::NewLength(height) => Ok(Taken::NewHeight(height)),
        segments::Element::Move(_) => Ok(Taken::Move),
        segments::Element::Comment => Ok(Taken::Comment),
        segments::Element::Code(first) => {
            skip_rest(first, source)?;
            Ok(Taken::DataEntity)
        }
    }
}

/// Reads a comment or a NEWLEN after the last stripe, if there is one.
fn read_before_height(header: &Header, entities: u32, source: &mut Piece<'_>) -> Option<Taken>
    ensures some { IfSome result (ReadsPart (fields_of header.now) (place_before entities) true
        source.old.rest.now source.new.rest.now) }
    ensures segment { IfSome result IsSegment }
    ensures none { result ≡ None → is_variable (fields_of header.now) ≡ true →
        LookEnds (fields_of header.now) entities source.old.rest.now }
    ensures lowers { IfSome result (λ _. length source.new.rest.now < length source.old.rest.now) }
{
    let place = Place {
        height: 0,
        entities,
        given: false,
    };
    match next_element(header, place, true, source) {
        Ok(piece) => match piece {
            segments::Element::Comment => Some(Taken::Comment),
            segments::Element::NewLength(height) => Some(Taken::NewHeight(height)),
            segments::Element::Move(_) => None,
            segments::Element::Code(_) => None,
        },
        Err(_) => None,
    }
}
