//! Passes the code of a stripe to a byte target.

ghost use Rattle.std.specs.Prelude.{◌≡◌};
ghost use Rattle.t85_core.specs.Private.Buffers.{TakesByte, RefusesByte};
ghost use Rattle.t85_core.specs.Private.Views.{sink_view};

use crate::output_buffer::ByteTarget;
use qm_core::{CodeSink, SinkFault};

/// A byte target as a sink for code bytes.
#[derive(Drop)]
pub struct EntitySink<'a, P: ByteTarget> {
    target: &'a mut P,
}

impl<'a, P: ByteTarget> EntitySink<'a, P> {
    pub fn new(target: &'a mut P) -> EntitySink<'a, P>
        ensures lent { result.target ≡ target.entry }
    {
        EntitySink { target }
    }
}

impl<P: ByteTarget> CodeSink for EntitySink<'_, P> {
    ghost took = { λ s byte t. TakesByte
        (sink_view P.view s)
        byte
        (sink_view P.view t) };

    ghost refused = { λ s t. RefusesByte
        (sink_view P.view s)
        (sink_view P.view t) };

    ghost failed = { λ s. (P.view s.target.now).failures };

    fn push(&mut self, byte: u8) -> Result<(), SinkFault> {
        match self.target.push(byte) {
            Ok(()) => Ok(()),
            Err(_) => Err(SinkFault),
        }
    }

    fn failures(&self) -> u64 {
        self.target.failures()
    }
}
