//! Parses the marker segments of a stripe, and the bytes of its code (T.82, 6.2).

ghost use Rattle.std.specs.Prelude.{◌≡◌, ◌≤◌, ◌<◌, ◌++◌, Bool, List, ℕ, length, OnOk, IfOk, IfErr, IfSome, None, Some, false, true};
ghost use Rattle.std.specs.Io.KnownBytes.{Consumes};
ghost use Rattle.byteorder.specs.Endian.{big_bytes};
ghost use Rattle.t85_core.specs.declared.fault.Fault.TheVariants.{Truncated};
ghost use Rattle.t85_core.specs.Options.{fields_of};
ghost use Rattle.t85_core.specs.Private.Buffers.{ReadsOn};
ghost use Rattle.t85_core.specs.Failures.{Ends};
ghost use Rattle.t85_core.specs.Grammar.{marker_bytes};
ghost use Rattle.t85_core.specs.States.Segments.{code_bytes, IsByteOrMarker};
ghost use Rattle.t85_core.specs.Private.Segments.{PieceFault, Passes, PassesSegments, SegmentsFault, PassesCode, RestFault, CodeFault};

mod atmove;
mod length;
mod markers;
mod segment;

pub use self::atmove::Move;
pub use self::markers::{ATMOVE, COMMENT, ESCAPE, NEWLEN, SDNORM, SDRST, STUFF};
use crate::byte_source::ByteSource;
use crate::fault::Fault;
use crate::header::Header;
use crate::segments::markers::ABORT;
use crate::segments::segment::read_segment;
use byteorder::{BigEndian, ByteOrder};

/// The start of a stripe, or the position of its next item: the current height, the number of stripe data entities
/// before it, and whether there was a NEWLEN.
#[derive(Clone, Copy)]
pub struct Place {
    pub height: u32,
    pub entities: u32,
    pub given: bool,
}

/// The next element of a code.
#[derive(Clone, Copy)]
pub enum Code {
    Byte(u8),
    /// An end marker, and whether it resets.
    Marker(bool),
}

/// An element that is allowed at a position before a code.
#[derive(Clone, Copy)]
pub enum Element {
    /// A valid height (NEWLEN).
    NewLength(u32),
    Move(Move),
    Comment,
    /// The code begins.
    Code(Code),
}

/// The element behind the marker segments that were read.
#[derive(Clone, Copy)]
pub enum Next {
    /// A valid height, which is not the current one.
    Height(u32),
    /// The code begins.
    Code(Code),
}

/// Marker segments that were read, and what follows them.
#[derive(Clone, Copy)]
pub struct Segments {
    pub at: Option<Move>,
    /// Whether the current height was given in them, or before.
    pub given: bool,
    /// The number of comments, counted up to 2^64 - 1.
    pub comments: u64,
    pub next: Next,
}

/// Reads marker segments of one stripe, up to a NEWLEN with a height that is not the current one, or up to the code.
/// `moved_before` says whether there was an ATMOVE of the stripe before them.
pub fn read_segments<S: ByteSource>(
    header: &Header,
    place: Place,
    moved_before: bool,
    stream: &mut S,
) -> Result<Segments, Fault>
    ensures ok { IfOk result (PassesSegments (fields_of header.now) place moved_before
        (S.view stream.old).known (S.view stream.new).known) }
    ensures err { IfErr result (Ends Truncated (S.view stream.old).known (S.view stream.new).known
        (SegmentsFault (fields_of header.now) place moved_before)) }
    ensures reads { ReadsOn (S.view stream.old) (S.view stream.new) result }
{
    let mut at = None;
    let mut moved = moved_before;
    let mut given = place.given;
    let mut comments = 0u64;
    'pieces: loop {
        let here = Place { given, ..place };
        match next_element(header, here, moved, stream)? {
            Element::NewLength(height) => {
                if height != place.height {
                    let next = Next::Height(height);
                    return Ok(Segments {
                        at,
                        given,
                        comments,
                        next,
                    });
                }
                given = true;
            }
            Element::Move(to) => {
                at = Some(to);
                moved = true;
            }
            Element::Comment => comments = comments.saturating_add(1),
            Element::Code(code) => {
                let next = Next::Code(code);
                return Ok(Segments {
                    at,
                    given,
                    comments,
                    next,
                });
            }
        }
    }
}

/// Skips the rest of a code that has begun, and its end marker. Returns whether the marker resets.
pub fn skip_code<S: ByteSource>(stream: &mut S) -> Result<bool, Fault>
    ensures ok { IfOk result (PassesCode (S.view stream.old).known (S.view stream.new).known) }
    ensures err { IfErr result (Ends Truncated (S.view stream.old).known (S.view stream.new).known
        CodeFault) }
    ensures reads { ReadsOn (S.view stream.old) (S.view stream.new) result }
{
    'code: loop {
        stream.skip_plain();
        match next_code(stream)? {
            Code::Byte(_) => {}
            Code::Marker(reset) => return Ok(reset),
        }
    }
}

/// Reads a byte of a code that has begun, or its end marker.
#[inline(always)]
pub fn next_code<S: ByteSource>(stream: &mut S) -> Result<Code, Fault>
    ensures ok { IfOk result (λ code. IsByteOrMarker code ×
        Consumes (S.view stream.old).known (S.view stream.new).known (code_bytes code)) }
    ensures err { IfErr result (Ends Truncated (S.view stream.old).known (S.view stream.new).known
        RestFault) }
    ensures reads { ReadsOn (S.view stream.old) (S.view stream.new) result }
    ensures lowers { OnOk result ((S.view stream.new).left < (S.view stream.old).left) }
    ensures no_more { (S.view stream.new).left ≤ (S.view stream.old).left }
{
    match stream.next_plain() {
        Some(byte) => Ok(Code::Byte(byte)),
        None => any_code(stream),
    }
}

/// The same, whatever comes next.
#[inline(never)]
fn any_code<S: ByteSource>(stream: &mut S) -> Result<Code, Fault>
    ensures ok { IfOk result (λ code. IsByteOrMarker code ×
        Consumes (S.view stream.old).known (S.view stream.new).known (code_bytes code)) }
    ensures err { IfErr result (Ends Truncated (S.view stream.old).known (S.view stream.new).known
        RestFault) }
    ensures reads { ReadsOn (S.view stream.old) (S.view stream.new) result }
    ensures lowers { OnOk result ((S.view stream.new).left < (S.view stream.old).left) }
    ensures no_more { (S.view stream.new).left ≤ (S.view stream.old).left }
{
    let first = stream.next()?;
    if first != ESCAPE {
        return Ok(Code::Byte(first));
    }
    let escape = stream.next()?;
    match escape {
        STUFF => Ok(Code::Byte(ESCAPE)),
        SDNORM => Ok(Code::Marker(false)),
        SDRST => Ok(Code::Marker(true)),
        ABORT => Err(Fault::Aborted),
        _ => Err(Fault::BadEscape),
    }
}

/// Reads a marker segment, or the first element of the code.
#[inline(always)]
pub fn next_element<S: ByteSource>(
    header: &Header,
    place: Place,
    moved: bool,
    stream: &mut S,
) -> Result<Element, Fault>
    ensures ok { IfOk result (Passes (fields_of header.now) place moved (S.view stream.old).known
        (S.view stream.new).known) }
    ensures err { IfErr result (Ends Truncated (S.view stream.old).known (S.view stream.new).known
        (PieceFault (fields_of header.now) place moved)) }
    ensures reads { ReadsOn (S.view stream.old) (S.view stream.new) result }
    ensures lowers { OnOk result ((S.view stream.new).left < (S.view stream.old).left) }
{
    let first = stream.next()?;
    if first != ESCAPE {
        return Ok(Element::Code(Code::Byte(first)));
    }
    let escape = stream.next()?;
    match escape {
        STUFF => Ok(Element::Code(Code::Byte(ESCAPE))),
        SDNORM => Ok(Element::Code(Code::Marker(false))),
        SDRST => Ok(Element::Code(Code::Marker(true))),
        _ => read_segment(header, place, moved, escape, stream),
    }
}

/// Reads a four-byte big-endian number.
pub fn number<S: ByteSource>(stream: &mut S) -> Result<u32, Fault>
    ensures ok { IfOk result (λ n. Consumes (S.view stream.old).known (S.view stream.new).known
        (big_bytes 4 n)) }
    ensures err { IfErr result (Ends Truncated (S.view stream.old).known (S.view stream.new).known
        (λ given fault. (length given < 4) × (fault ≡ Truncated))) }
    ensures reads { ReadsOn (S.view stream.old) (S.view stream.new) result }
    ensures no_more { (S.view stream.new).left ≤ (S.view stream.old).left }
{
    let a = stream.next()?;
    let b = stream.next()?;
    let c = stream.next()?;
    let d = stream.next()?;
    Ok(BigEndian::read_u32(&[a, b, c, d]))
}

/// The end marker (SDNORM or SDRST) at the beginning of these bytes: whether it resets the contexts (T.82, 6.2.5).
pub fn marker_at(bytes: &[u8]) -> Option<bool>
    ensures some { IfSome result (λ reset. (rest : List ℕ) ×
        (bytes.now ≡ marker_bytes reset ++ rest)) }
    ensures none { result ≡ None → (reset : Bool) (rest : List ℕ) →
        bytes.now ≡ marker_bytes reset ++ rest → ⊥ }
{
    match bytes {
        [ESCAPE, SDNORM, ..] => Some(false),
        [ESCAPE, SDRST, ..] => Some(true),
        _ => None,
    }
}
