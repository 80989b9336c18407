//! Finds the height of a stream, which a NEWLEN segment may give as late as after the last stripe (T.82, 6.2.6.2).

ghost use Rattle.std.specs.Prelude.{◌≡◌, ◌≢◌, ◌≤◌, ◌-◌, List, ℕ, OnOk, IfOk, IfErr, IfSome, IsErrOf, None, true, false};
ghost use Rattle.std.specs.Io.KnownBytes.{Consumes};
ghost use Rattle.t85_core.specs.Change.{input_change};
ghost use Rattle.t85_core.specs.declared.fault.Fault.TheVariants.{Truncated, Read};
ghost use Rattle.t85_core.specs.Options.{fields_of};
ghost use Rattle.t85_core.specs.Header.{is_variable};
ghost use Rattle.t85_core.specs.Private.Buffers.{ReadsOn, reading};
ghost use Rattle.t85_core.specs.Failures.{Ends};
ghost use Rattle.t85_core.specs.Grammar.{stripe_count};
ghost use Rattle.t85_core.specs.Decode.{FindHeight};
ghost use Rattle.t85_core.specs.Info.{IsWalkFault};
ghost use Rattle.t85_core.specs.Private.HeightWalk.{SkipsParts, SkipFault, Sought, SkipsFault, LooksTo, LookEnds, LookOpen, Finds, FindsOpen, PassesRest, RestBreaks, search_place, search_end_of, segment_counts};
ghost use Rattle.t85_core.specs.States.Segments.{IsByteOrMarker};

use crate::byte_source::ByteSource;
use crate::fault::Fault;
use crate::header::Header;
use crate::segments::{Code, Element, Next, Place, next_element, read_segments, skip_code};
use devices::{Buffered, Input};

/// The number of moves and comments skipped. Comments are counted up to 2^64 - 1.
#[derive(Clone, Copy)]
pub struct Passed {
    pub moves: u64,
    pub comments: u64,
}

/// The skipped part of a stripe: all of it, or its marker segments up to a NEWLEN.
#[derive(Clone, Copy)]
struct Skipped {
    passed: Passed,
    height: Option<u32>,
}

/// The skipped part of a stream: the number of stripe data entities, with the segments before them, and, if a NEWLEN
/// was found, the segments before it.
#[derive(Clone, Copy)]
pub struct Reached {
    pub entities: u32,
    pub passed: Passed,
    pub part: Passed,
    pub height: Option<u32>,
}

/// Finds the height of the image. The input is positioned after the header.
///
/// If the header says that the height may change, it reads up to the first valid NEWLEN. If there is none, or the
/// stream breaks before it, the height is the header's.
pub fn find_height<R: Input>(header: &Header, input: &mut R) -> Result<u32, Fault>
    ensures { FindHeight (fields_of header.now) (input_change R.view input.old input.new) result }
{
    if !header.is_variable() {
        return Ok(header.yd);
    }
    let mut stream = Buffered::new(input);
    match find(header, &mut stream) {
        Ok(reached) => match reached.height {
            Some(height) => Ok(height),
            None => Ok(header.yd),
        },
        Err(fault) => match fault {
            Fault::Read => Err(Fault::Read),
            _ => Ok(header.yd),
        },
    }
}

/// Skips the stripes that the header's height implies, up to the first NEWLEN within them or, if the height may change,
/// after them.
pub fn find<S: ByteSource>(header: &Header, stream: &mut S) -> Result<Reached, Fault>
    ensures ok { IfOk result (λ r. Finds (fields_of header.now) (reading (S.view
        stream.old).known (S.view stream.new).known) (search_end_of r) r.height) }
    ensures few { IfOk result (λ r. (r.passed.moves ≤ r.entities) × (r.part.moves ≤ 1)) }
    ensures err { IfErr result (λ f. f ≢ Read → Ends Truncated (S.view stream.old).known
        (S.view stream.new).known (SkipsFault (fields_of header.now) (search_place 0 false false)
        (stripe_count header.now.yd header.now.l0)) f) }
    ensures unread { IsErrOf result Read → (given : List ℕ) × Consumes (S.view stream.old).known
        (S.view stream.new).known given × FindsOpen (fields_of header.now) given }
    ensures among { IfErr result IsWalkFault }
    ensures reads { ReadsOn (S.view stream.old) (S.view stream.new) result }
{
    let reached = skip_stripes(
        header,
        0,
        header.yd.div_ceil(header.l0),
        false,
        false,
        stream,
    )?;
    match reached.height {
        Some(_) => Ok(reached),
        None => {
            if !header.is_variable() {
                return Ok(reached);
            }
            let height = look(header, reached.entities, stream)?;
            Ok(Reached { height, ..reached })
        }
    }
}

/// Skips comments after the last stripe that the header's height implies, and a NEWLEN that follows them.
pub fn look<S: ByteSource>(
    header: &Header,
    entities: u32,
    stream: &mut S,
) -> Result<Option<u32>, Fault>
    requires variable { is_variable (fields_of header.now) ≡ true }
    ensures found { IfOk result (λ height. IfSome height (LooksTo (fields_of header.now) entities
        (S.view stream.old).known (S.view stream.new).known)) }
    ensures none { IfOk result (λ height. height ≡ None →
        IfSome (S.view stream.old).known (LookEnds (fields_of header.now) entities)) }
    ensures among { IfErr result (λ f. f ≡ Read) }
    ensures unread { IsErrOf result Read → (given : List ℕ) × Consumes (S.view stream.old).known
        (S.view stream.new).known given × LookOpen (fields_of header.now) entities given }
    ensures reads { ReadsOn (S.view stream.old) (S.view stream.new) result }
{
    let place = Place {
        height: 0,
        entities,
        given: false,
    };
    'comments: loop {
        match next_element(header, place, true, stream) {
            Ok(piece) => match piece {
                Element::Comment => {}
                Element::NewLength(height) => return Ok(Some(height)),
                Element::Move(_) => return Ok(None),
                Element::Code(_) => return Ok(None),
            },
            Err(fault) => match fault {
                Fault::Read => return Err(Fault::Read),
                _ => return Ok(None),
            },
        }
    }
}

/// Skips stripes, from number `from` up to `count` in all, or up to a NEWLEN. `given` says whether there was a NEWLEN
/// before them, and `moved_before` whether there was an ATMOVE before the rest of the first.
pub fn skip_stripes<S: ByteSource>(
    header: &Header,
    from: u32,
    count: u32,
    given: bool,
    moved_before: bool,
    stream: &mut S,
) -> Result<Reached, Fault>
    requires from { from ≤ count }
    ensures ok { IfOk result (λ r. Sought (fields_of header.now)
        (search_place from given moved_before) count (reading (S.view stream.old).known
        (S.view stream.new).known) (search_end_of r) r.height) }
    ensures few { IfOk result (λ r. (r.passed.moves ≤ r.entities - from) × (r.part.moves ≤ 1)) }
    ensures err { IfErr result (Ends Truncated (S.view stream.old).known (S.view stream.new).known
        (SkipsFault (fields_of header.now) (search_place from given moved_before) count)) }
    ensures reads { ReadsOn (S.view stream.old) (S.view stream.new) result }
{
    let mut moved = moved_before;
    let mut passed = Passed {
        moves: 0,
        comments: 0,
    };
    'stripes: for entities in from..count {
        let skipped = skip_stripe(header, entities, given, moved, stream)?;
        let part = skipped.passed;
        match skipped.height {
            Some(height) => {
                return Ok(Reached {
                    entities,
                    passed,
                    part,
                    height: Some(height),
                });
            }
            None => {}
        }
        moved = false;
        passed = Passed {
            moves: passed.moves + part.moves,
            comments: passed.comments.saturating_add(part.comments),
        };
    }
    Ok(Reached {
        entities: count,
        passed,
        part: Passed {
            moves: 0,
            comments: 0,
        },
        height: None,
    })
}

/// Skips the rest of a stripe, or of its segments up to a NEWLEN, after `entities` stripe data entities.
fn skip_stripe<S: ByteSource>(
    header: &Header,
    entities: u32,
    given: bool,
    moved_before: bool,
    stream: &mut S,
) -> Result<Skipped, Fault>
    ensures ok { IfOk result (λ s. SkipsParts (fields_of header.now)
        (search_place entities given moved_before)
        (reading (S.view stream.old).known (S.view stream.new).known)
        (segment_counts s.passed.moves s.passed.comments) s.height) }
    ensures few { IfOk result (λ s. s.passed.moves ≤ 1) }
    ensures err { IfErr result (Ends Truncated (S.view stream.old).known (S.view stream.new).known
        (SkipFault (fields_of header.now) (search_place entities given moved_before))) }
    ensures reads { ReadsOn (S.view stream.old) (S.view stream.new) result }
{
    // While searching for a height, none is assumed; and none may follow if one was given before.
    let place = Place {
        height: 0,
        entities,
        given,
    };
    let segments = read_segments(header, place, moved_before, stream)?;
    let passed = Passed {
        moves: u64::from(segments.at.is_some()),
        comments: segments.comments,
    };
    match segments.next {
        Next::Height(height) => Ok(Skipped {
            passed,
            height: Some(height),
        }),
        Next::Code(code) => {
            skip_rest(code, stream)?;
            Ok(Skipped {
                passed,
                height: None,
            })
        }
    }
}

/// Skips the rest of a stripe data entity, given its first element.
pub fn skip_rest<S: ByteSource>(first: Code, stream: &mut S) -> Result<(), Fault>
    requires first { IsByteOrMarker first }
    ensures ok { OnOk result (PassesRest first (S.view stream.old).known
        (S.view stream.new).known) }
    ensures err { IfErr result (Ends Truncated (S.view stream.old).known (S.view stream.new).known
        (RestBreaks first)) }
    ensures reads { ReadsOn (S.view stream.old) (S.view stream.new) result }
{
    match first {
        Code::Byte(_) => {
            skip_code(stream)?;
            Ok(())
        }
        Code::Marker(_) => Ok(()),
    }
}
