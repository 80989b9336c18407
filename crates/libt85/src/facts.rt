//! The facts about a stream, with its own length, for a C caller.

ghost use Rattle.std.specs.Prelude.{IfErr, IfOk};
ghost use Rattle.t85_core.specs.Height.{StreamFault};
ghost use Rattle.t85_core.specs.Parts.{Passed, EndsAt};
ghost use Rattle.libt85.specs.Facts.{FactsTold, HasFacts};

use crate::status::OTHER_VERSION;
use crate::summary::numbers_of;
use t85_core::{Fault, Found, PartWalk};

/// The version of `T85Facts`.
const VERSION: u32 = 1;

/// The fields of `T85Summary`, and the length of the stream.
#[repr(C)]
#[derive(Clone, Copy)]
pub struct T85Facts {
    /// The version of this struct: 1.
    pub version: u32,
    pub width: u32,
    /// The height in the header.
    pub height: u32,
    pub stripe_rows: u32,
    pub most_offset: u32,
    pub options: u32,
    /// The actual height: a later one if the stream gives it, or else the header's.
    pub image_height: u32,
    /// The number of stripe data entities, one per stripe.
    pub entities: u32,
    /// The number of moves of the adaptive template pixel.
    pub moves: u64,
    /// The number of comments, counted up to 2^64 - 1.
    pub comments: u64,
    /// The number of bytes in the stream, which other data may follow: up to the end of its last part, including a
    /// height after the last stripe and the empty stripe data entity after that.
    pub stream_len: usize,
}

/// Returns the facts about a stream, and its length. The stream is parsed, and not decoded. Returns 0, the number of
/// the stream's error, or 50 if the struct has another version; unless it returns 0, `facts` is unchanged.
#[unsafe(no_mangle)]
pub extern "C" fn t85_stream_facts(stream: &[u8], facts: &mut T85Facts) -> u8
    ensures { FactsTold stream.now facts.old facts.new result }
{
    if facts.version != VERSION {
        return OTHER_VERSION;
    }
    match facts_of(stream) {
        Ok(found) => {
            *facts = found;
            0
        }
        Err(fault) => fault.number(),
    }
}

/// The facts about a stream in memory.
fn facts_of(stream: &[u8]) -> Result<T85Facts, Fault>
    ensures told { IfOk result (HasFacts stream.now) }
    ensures refused { IfErr result (StreamFault stream.now) }
{
    let found = numbers_of(stream)?;
    let stream_len = stream_len(stream)?;
    Ok(T85Facts {
        version: VERSION,
        width: found.width,
        height: found.announced_height,
        stripe_rows: found.stripe_rows,
        most_offset: u32::from(found.most_offset),
        options: u32::from(found.options),
        image_height: found.height,
        entities: found.entities,
        moves: found.moves,
        comments: found.comments,
        stream_len,
    })
}

/// The length of the stream at the beginning of these bytes.
fn stream_len(bytes: &[u8]) -> Result<usize, Fault>
    ensures whole { IfOk result (λ len. (passed : Passed) × EndsAt bytes.now passed len) }
    ensures broken { IfErr result (StreamFault bytes.now) }
{
    let mut walk = PartWalk::start();
    'parts: loop {
        match walk.next(bytes) {
            Found::Part(_) => {}
            Found::End { len } => return Ok(len),
            Found::Broken { fault, .. } => return Err(fault),
        }
    }
}
