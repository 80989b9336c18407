//! A decoder with everything that it borrows.

ghost use Rattle.std.specs.Prelude.{◌≡◌, OnErr};

use crate::context::Context;
use crate::decoder::{Decoder, Stop};
use crate::learned::Learned;
use crate::source::CodeBytes;

/// A decoder, the contexts that it adapts, and the source of its bytes, borrowed for some pixels.
#[derive(Drop)]
pub struct Reader<'a, S: CodeBytes> {
    pub learned: &'a mut Learned,
    pub decoder: &'a mut Decoder,
    pub source: &'a mut S,
}

impl<S: CodeBytes> Reader<'_, S> {
    ghost use Rattle.qm_core.specs.Reads.{ReaderReads, ReadsPixel};

    /// Decodes the next pixel, in the context `cx`, and adapts that context; see `Decoder::next`.
    #[inline(always)]
    pub fn next(&mut self, cx: Context) -> Result<bool, Stop>
        ensures reads { ReaderReads S.CodeBytes self.old self.new result }
        ensures unchanged { OnErr result (self.new.learned.now ≡ self.old.learned.now) }
        ensures next { ReadsPixel S.CodeBytes cx self.old self.new result }
    {
        self.decoder.next(&mut *self.learned, cx, &mut *self.source)
    }
}
