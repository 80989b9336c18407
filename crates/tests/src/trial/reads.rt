//! Tries a run with each of its reads failing in turn.

use crate::trial::{BYTEWISE, Case, Devices, Program, Run, has_told};
use program_core::LineFault;
use std::alloc::{AllocError, Global};

impl Case<'_> {
    /// Whether the failing read after `came` bytes is reported, with a prefix of the output written.
    fn tells_read(&self, alloc: Global, came: u64) -> Result<bool, AllocError> {
        let devices = Devices {
            failing_read: Some(came.saturating_add(1)),
            ..BYTEWISE
        };
        let ran = self.run_on(alloc, &self.input, devices)?;
        let text = Some("input cannot be read");
        Ok(
            self.may_stand(came, ran.output.len())
                && self.output.as_slice().starts_with(ran.output.as_slice())
                && has_told(alloc, &ran, self.program.name(), text)?,
        )
    }

    /// Whether the stream has variable height, so that it is read twice.
    pub fn is_read_twice(&self) -> bool {
        match self.program {
            Program::Encoder(_) => false,
            Program::Decoder(_) => self
                .input
                .get(19)
                .is_some_and(|options| *options & 0x20 != 0),
        }
    }

    /// Whether `count` bytes may have been written if the read after `came` bytes fails: none in the first of two
    /// readings.
    fn may_stand(&self, came: u64, count: usize) -> bool {
        if self.is_read_twice() {
            count == 0
        } else {
            self.run.may_stand(came, count)
        }
    }

    /// Whether the failing read of the second reading after `came` bytes is reported, with a prefix of the output
    /// written.
    fn tells_second_read(&self, alloc: Global, came: u64) -> Result<bool, AllocError> {
        let devices = Devices {
            failing_again: Some(came.saturating_add(1)),
            ..BYTEWISE
        };
        let ran = self.run_on(alloc, &self.input, devices)?;
        let text = Some("input cannot be read");
        Ok(
            self.run.may_stand(came, ran.output.len())
                && self.output.as_slice().starts_with(ran.output.as_slice())
                && has_told(alloc, &ran, self.program.name(), text)?,
        )
    }

    /// Whether each of `reads` reads of the second reading is reported if it fails, and no more are made.
    pub fn is_read_again(&self, alloc: Global, reads: u64) -> Result<bool, AllocError> {
        for came in 0..reads {
            if !self.tells_second_read(alloc, came)? {
                return Ok(false);
            }
        }
        let devices = Devices {
            failing_again: Some(reads.saturating_add(1)),
            ..BYTEWISE
        };
        self.ends(alloc, devices, self.run.fault)
    }

    pub fn tells_each_read(&self, alloc: Global) -> Result<bool, AllocError> {
        for came in 0..self.run.reads {
            if !self.tells_read(alloc, came)? {
                return Ok(false);
            }
        }
        Ok(true)
    }
}

/// Whether each of `reads` reads of the run's second reading is reported if it fails, and no more are made.
pub fn is_read_again(alloc: Global, run: Run<'_>, reads: u64) -> Result<bool, LineFault> {
    let held = Case::new(alloc, run)?.is_read_again(alloc, reads);
    Ok(held?)
}
