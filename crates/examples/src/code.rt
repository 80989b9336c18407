//! A code in memory.

ghost use Rattle.std.specs.Prelude.{◌≡◌, ◌++◌, ◌∷◌, []};
ghost use Rattle.examples.specs.Coder.{Unstuffs};

use qm_core::{CodeBytes, CodeSink, Pulled, SinkFault};

/// A growing code, with stuffing.
#[derive(Drop)]
pub struct Code {
    pub bytes: Vec<u8>,
    /// The number of times that memory ran out, modulo 2^64.
    pub failures: u64,
}

impl CodeSink for Code {
    ghost took = { λ old byte new. new.bytes.items ≡ old.bytes.items ++ byte ∷ [] };

    ghost refused = { λ _ _. Unit {0} };

    ghost failed = { λ code. code.failures };

    fn push(&mut self, byte: u8) -> Result<(), SinkFault> {
        if self.bytes.push(byte).is_err() {
            self.failures = self.failures.wrapping_add(1);
            return Err(SinkFault);
        }
        Ok(())
    }

    fn failures(&self) -> u64 {
        self.failures
    }
}

/// The rest of a code, with stuffing.
#[derive(Drop)]
pub struct Stuffed<'a> {
    pub rest: &'a [u8],
}

impl CodeBytes for Stuffed<'_> {
    ghost gives = { λ old answer new. Unstuffs old.rest.now answer new.rest.now };

    ghost failed = { λ _. 0 };

    ghost left = { λ _. 0 };

    fn pull(&mut self) -> Pulled {
        let Some((byte, rest)) = self.rest.split_first() else {
            return Pulled::End;
        };
        self.rest = if *byte == 255 && !rest.is_empty() {
            &rest[1..]
        } else {
            rest
        };
        Pulled::Byte(*byte)
    }

    fn failures(&self) -> u64 {
        0
    }
}
