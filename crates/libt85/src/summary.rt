//! The facts about a stream, for a C caller.

ghost use Rattle.std.specs.Prelude.{IfOk, IfErr};
ghost use Rattle.t85_core.specs.Height.{StreamFault};
ghost use Rattle.t85_core.specs.Info.{HasNumbers, numbers_in};
ghost use Rattle.libt85.specs.Summary.{InfoTold};

use crate::memory::Whole;
use t85_core::{Fault, Summary, summarize};

/// The facts about a stream that `jbgtopbm85 --info` prints.
#[repr(C)]
#[derive(Clone, Copy)]
pub struct T85Summary {
    pub width: u32,
    /// The height in the header.
    pub height: u32,
    pub stripe_rows: u32,
    pub most_offset: u32,
    pub options: u32,
    /// The actual height: a later one if the stream gives it, or else the header's.
    pub image_height: u32,
    /// The number of stripe data entities, one per stripe.
    pub entities: u32,
    /// The number of moves of the adaptive template pixel.
    pub moves: u64,
    /// The number of comments, counted up to 2^64 - 1.
    pub comments: u64,
}

/// Returns the facts about a stream, which is parsed and not decoded. Returns 0, or the number of the stream's error,
/// and then `summary` is unchanged.
#[unsafe(no_mangle)]
pub extern "C" fn t85_info(stream: &[u8], summary: &mut T85Summary) -> u8
    ensures { InfoTold stream.now summary.old summary.new result }
{
    match numbers_of(stream) {
        Ok(found) => {
            *summary = T85Summary {
                width: found.width,
                height: found.announced_height,
                stripe_rows: found.stripe_rows,
                most_offset: u32::from(found.most_offset),
                options: u32::from(found.options),
                image_height: found.height,
                entities: found.entities,
                moves: found.moves,
                comments: found.comments,
            };
            0
        }
        Err(fault) => fault.number(),
    }
}

/// The facts about a stream in memory.
pub fn numbers_of(stream: &[u8]) -> Result<Summary, Fault>
    ensures numbers { IfOk result (λ s. HasNumbers stream.now (numbers_in s)) }
    ensures refused { IfErr result (λ f. StreamFault stream.now f) }
{
    let mut input = Whole { rest: stream };
    summarize(&mut input)
}
