//! An encoder with everything that it borrows.

ghost use Rattle.std.specs.Prelude.{◌≤◌, ◌∷◌, []};

use crate::context::Context;
use crate::encoder::{CoderFault, Encoder};
use crate::learned::Learned;
use crate::sink::CodeSink;

/// An encoder, the contexts that it adapts, and the sink of its bytes, borrowed for some events.
#[derive(Drop)]
pub struct Coder<'a, W: CodeSink> {
    pub learned: &'a mut Learned,
    pub encoder: &'a mut Encoder,
    pub out: &'a mut W,
}

impl<W: CodeSink> Coder<'_, W> {
    ghost use Rattle.qm_core.specs.Puts.{event_of, HasRoom, Puts, Skips};

    /// Encodes a pixel in a context.
    #[inline(always)]
    pub fn put(&mut self, cx: Context, pixel: bool) -> Result<(), CoderFault>
        requires { HasRoom 1 self.old }
        ensures { Puts W.CodeSink (event_of cx pixel ∷ []) self.old self.new result }
    {
        self.encoder
            .put(&mut *self.learned, cx, pixel, &mut *self.out)
    }

    /// Encodes a pixel `count` times in a context in one step and returns true, if this involves no doubling and no
    /// byte of the code; otherwise does nothing and returns false.
    #[inline(always)]
    pub fn skip(&mut self, cx: Context, pixel: bool, count: u32) -> bool
        requires few { count ≤ 64 }
        requires room { HasRoom count self.old }
        ensures { Skips W.CodeSink (event_of cx pixel) count self.old self.new result }
    {
        self.encoder.skip(&*self.learned, cx, pixel, count)
    }
}
