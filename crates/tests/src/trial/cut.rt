//! Cuts the input of a run short after each byte.

use crate::trial::{BYTEWISE, Case, Devices, Run};
use program_core::LineFault;
use std::alloc::{AllocError, Global};
use std::process::Abort;
use std::test::Fail;

impl Case<'_> {
    /// Whether exactly `count` bytes were written if the input ends, or a read fails, after `came` bytes, and the end
    /// is reported so.
    fn is_cut(
        &self,
        alloc: Global,
        came: usize,
        count: usize,
        text: &str,
    ) -> Result<bool, AllocError> {
        let devices = Devices {
            failing_read: Some((came as u64).saturating_add(1)),
            ..BYTEWISE
        };
        let unread = Some("input cannot be read");
        let bytes = &self.input[..came.min(self.input.len())];
        Ok(
            self.leaves(alloc, &self.input, devices, count, unread)?
                && self.leaves_at_each_size(alloc, bytes, count, Some(text))?,
        )
    }
}

/// A run whose input is cut short.
pub struct Cut {
    pub run: Run<'static>,
    /// For each number of bytes from which on the output is longer: its length, and the error if the input ends there.
    pub stands: &'static [(usize, usize, &'static str)],
}

impl Cut {
    /// The number of bytes written after this many were read, and the error if the input ends there.
    fn standing(&self, came: usize) -> (usize, &'static str) {
        let mut standing = (0, "");
        for &(from, count, text) in self.stands {
            if from <= came {
                standing = (count, text);
            }
        }
        standing
    }

    /// The numbers of bytes after which the output or the error changes.
    fn first_failing_in(
        &self,
        alloc: Global,
        case: &Case<'_>,
    ) -> Result<Option<usize>, AllocError> {
        for came in 0..case.input.len() {
            let (count, text) = self.standing(came);
            if !case.is_cut(alloc, came, count, text)? {
                return Ok(Some(came));
            }
        }
        Ok(None)
    }

    fn first_failing(&self, alloc: Global) -> Result<Option<usize>, LineFault> {
        let failing = self.first_failing_in(alloc, &Case::new(alloc, self.run)?);
        Ok(failing?)
    }
}

/// Asserts the expected output of each run for each byte at which its input ends or a read fails.
pub fn all_are_cut(rt: &impl Abort, alloc: Global, cuts: &[Cut]) -> Result<(), Fail> {
    for (at, cut) in cuts.iter().enumerate() {
        let failing = cut.first_failing(alloc)?;
        assert!(rt; failing == None, "run {at}: after {failing:?} bytes");
    }
    Ok(())
}
