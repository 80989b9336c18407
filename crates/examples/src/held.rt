//! Bytes in memory.

ghost use Rattle.std.specs.Prelude.{[], Some, length};

use pbm_core::{DeviceFailed, Input};

/// An input that never fails.
#[derive(Drop)]
pub struct Held<'a> {
    pub rest: &'a [u8],
}

impl Input for Held<'_> {
    ghost view = { λ held. record {
      remaining = Some held.rest.now;
      held = [];
      left = length held.rest.now;
      failures = 0;
      source = 0;
    } };

    fn failures(&self) -> u64 {
        0
    }

    fn left(&self) -> u64 {
        self.rest.len() as u64
    }

    fn read(&mut self, buf: &mut [u8]) -> Result<usize, DeviceFailed> {
        let count = buf.len().min(self.rest.len());
        let (front, rest) = self.rest.split_at(count);
        buf[..count].copy_from_slice(front);
        self.rest = rest;
        Ok(count)
    }
}
