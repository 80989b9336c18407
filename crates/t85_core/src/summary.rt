//! The facts about a stream that `--info` reports.

ghost use Rattle.std.specs.Prelude.{◌≡◌, ◌≢◌, ◌≤◌, ◌-◌, ◌∷◌, [], List, ℕ, IfOk, IfErr, IfSome, IsErrOf, Some};
ghost use Rattle.std.specs.Io.KnownBytes.{Consumes};
ghost use Rattle.t85_core.specs.Change.{input_change, output_change};
ghost use Rattle.t85_core.specs.declared.fault.Fault.TheVariants.{Read};
ghost use Rattle.t85_core.specs.Options.{fields_of};
ghost use Rattle.t85_core.specs.Info.{Info, IsWalkFault, Summarize, line_text, numbers_in};
ghost use Rattle.t85_core.specs.Private.HeightWalk.{WhereFound, BodyNumbers, BodyRefused, BodyUnfinished, search_end_of};
ghost use Rattle.t85_core.specs.Private.Buffers.{ReadsOn};
ghost use Rattle.t85_core.specs.Failures.{FlushesOutput};

use crate::byte_source::ByteSource;
use crate::fault::Fault;
use crate::header::Header;
use crate::height::{Passed, Reached, find, skip_stripes};
use crate::line::Line;
use devices::{Buffered, Input, Output};

/// The facts about a stream: its header, the actual height, and what precedes its last stripe data entity.
#[derive(Clone, Copy, Debug, PartialEq, Eq)]
pub struct Summary {
    pub width: u32,
    /// The height in the header.
    pub announced_height: u32,
    /// The rows per stripe.
    pub stripe_rows: u32,
    /// The greatest offset of the adaptive template pixel.
    pub most_offset: u8,
    /// The options byte.
    pub options: u8,
    /// The actual height: a later one if the stream gives it, or else the header's.
    pub height: u32,
    /// The number of stripe data entities, one per stripe.
    pub entities: u32,
    /// The number of moves of the adaptive template pixel.
    pub moves: u64,
    /// The number of comments, counted up to 2^64 - 1.
    pub comments: u64,
}

/// Parses the stream without decoding its pixels, and returns what it finds.
pub fn summarize<R: Input>(input: &mut R) -> Result<Summary, Fault>
    ensures { Summarize (input_change R.view input.old input.new) result }
{
    let header = Header::read(input)?;
    let mut stream = Buffered::new(input);
    summarize_body(&header, &mut stream)
}

/// Parses the stream and writes one line of nine numbers: width, height in the header, rows per stripe, greatest
/// offset, options, actual height, and the numbers of stripe data entities, moves and comments. Then it flushes once.
pub fn info<R: Input, W: Output>(input: &mut R, output: &mut W) -> Result<(), Fault>
    ensures outcome { Info (input_change R.view input.old input.new)
        (output_change W.view output.old output.new) (W.view output.new).flushed result }
    ensures flushes { FlushesOutput (W.view output.old) (W.view output.new) result }
{
    let found = summarize(input)?;
    line_of(&found).put(output)
}

/// The line of these numbers.
fn line_of(found: &Summary) -> Line
    ensures { result ≡ line_text (numbers_in found.now) }
{
    Line::of(&[
        u64::from(found.width),
        u64::from(found.announced_height),
        u64::from(found.stripe_rows),
        u64::from(found.most_offset),
        u64::from(found.options),
        u64::from(found.height),
        u64::from(found.entities),
        found.moves,
        found.comments,
    ])
}

/// Summarizes the stream after this header.
fn summarize_body<S: ByteSource>(header: &Header, stream: &mut S) -> Result<Summary, Fault>
    ensures ok { IfOk result (λ found. IfSome (S.view stream.old).known
        (BodyNumbers (fields_of header.now) (numbers_in found))) }
    ensures err { IfErr result (λ f. f ≢ Read → IfSome (S.view stream.old).known
        (BodyRefused (fields_of header.now) f)) }
    ensures unread { IsErrOf result Read → (given : List ℕ) × Consumes (S.view stream.old).known
        (S.view stream.new).known given × BodyUnfinished (fields_of header.now) given }
    ensures among { IfErr result IsWalkFault }
    ensures reads { ReadsOn (S.view stream.old) (S.view stream.new) result }
{
    let reached = find(header, stream)?;
    match reached.height {
        None => Ok(summary_of(header, header.yd, reached.entities, reached.passed)),
        Some(height) => walk_on(header, height, reached, stream),
    }
}

/// Skips the remaining stripes at a given height, if the height was given before the last of them.
fn walk_on<S: ByteSource>(
    header: &Header,
    height: u32,
    reached: Reached,
    stream: &mut S,
) -> Result<Summary, Fault>
    requires few { reached.passed.moves ≤ reached.entities }
    requires part { reached.part.moves ≤ 1 }
    ensures ok { IfOk result (λ found. WhereFound (fields_of header.now) (S.view stream.old).known
        (search_end_of reached) height (λ known. IfSome known (BodyNumbers (fields_of header.now)
        (numbers_in found)))) }
    ensures err { IfErr result (λ f. f ≢ Read → WhereFound (fields_of header.now)
        (S.view stream.old).known (search_end_of reached) height (λ known. IfSome known
        (BodyRefused (fields_of header.now) f))) }
    ensures unread { IsErrOf result Read → WhereFound (fields_of header.now)
        (S.view stream.old).known (search_end_of reached) height (λ known. (given : List ℕ) ×
        Consumes known (S.view stream.new).known given × BodyUnfinished (fields_of header.now)
        given) }
    ensures among { IfErr result IsWalkFault }
    ensures reads { ReadsOn (S.view stream.old) (S.view stream.new) result }
{
    let count = height.div_ceil(header.l0);
    if reached.entities >= count {
        return Ok(summary_of(header, height, count, reached.passed));
    }
    let moved = reached.part.moves > 0;
    let more = skip_stripes(header, reached.entities, count, true, moved, stream)?;
    let passed = Passed {
        moves: reached.passed.moves + reached.part.moves + more.passed.moves,
        comments: reached
            .passed
            .comments
            .saturating_add(reached.part.comments)
            .saturating_add(more.passed.comments),
    };
    Ok(summary_of(header, height, count, passed))
}

/// The summary for a header, a height, a number of stripe data entities, and what was skipped in them.
fn summary_of(header: &Header, height: u32, entities: u32, passed: Passed) -> Summary
    ensures { let h = header.now in numbers_in result ≡ h.xd ∷ h.yd ∷ h.l0 ∷ h.mx ∷ h.options ∷
        height ∷ entities ∷ passed.moves ∷ passed.comments ∷ [] }
{
    Summary {
        width: header.xd,
        announced_height: header.yd,
        stripe_rows: header.l0,
        most_offset: header.mx,
        options: header.options,
        height,
        entities,
        moves: passed.moves,
        comments: passed.comments,
    }
}
