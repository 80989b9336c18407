//! Puts a run through each trial.

use crate::trial::{BYTEWISE, Case, Devices, Run, SMOOTH, has_told};
use program_core::LineFault;
use std::alloc::{AllocError, Global};
use std::process::Abort;
use std::test::Fail;

/// A trial of a run.
#[derive(Clone, Copy)]
pub enum Trial {
    /// Reads and writes of each size.
    Sizes,
    /// Bytes after the last one that is read.
    Rest,
    /// Each failing read; one more read is never made.
    Reads,
    /// Each failing write; one more write is never made.
    Writes,
    /// A failing flush, which is made only after a whole output.
    Flush,
}

static TRIALS: [(Trial, &str); 5] = [
    (Trial::Sizes, "sizes"),
    (Trial::Rest, "bytes behind the last"),
    (Trial::Reads, "failing reads"),
    (Trial::Writes, "failing writes"),
    (Trial::Flush, "a failing flush"),
];

impl Case<'_> {
    fn tells_each_write(&self, alloc: Global) -> Result<bool, AllocError> {
        for count in 0..self.output.len() {
            let devices = Devices {
                failing_write: Some(count as u64 + 1),
                ..BYTEWISE
            };
            let text = Some("output cannot be written");
            if !self.leaves(alloc, &self.input, devices, count, text)? {
                return Ok(false);
            }
        }
        Ok(true)
    }

    /// Whether no flush is made if the input ends before the last byte that is read.
    fn ends_early(&self, alloc: Global) -> Result<bool, AllocError> {
        let came = (self.input.len() as u64).min(self.run.reads.saturating_sub(1)) as usize;
        let devices = Devices {
            flush_fails: true,
            ..SMOOTH
        };
        let ran = self.run_on(alloc, &self.input[..came], devices)?;
        let text = Some(self.program.early_end());
        has_told(alloc, &ran, self.program.name(), text)
    }

    /// Whether bytes after the last one that is read change nothing.
    fn leaves_the_rest(&self, alloc: Global) -> Result<bool, AllocError> {
        let mut bytes = self.input.as_slice().to_vec(alloc)?;
        bytes.extend_from_slice(b"P4\n1 1\n\xFF")?;
        self.leaves(alloc, &bytes, SMOOTH, self.output.len(), None)
    }

    /// Whether the trial succeeds.
    fn stands(&self, alloc: Global, trial: Trial) -> Result<bool, AllocError> {
        let fault = self.run.fault;
        let (is_told, devices, fault) = match trial {
            Trial::Sizes => (
                self.leaves_at_each_size(alloc, &self.input, self.output.len(), fault)?,
                SMOOTH,
                fault,
            ),
            Trial::Rest => (
                fault.is_some() || self.leaves_the_rest(alloc)?,
                SMOOTH,
                fault,
            ),
            Trial::Reads => (
                self.tells_each_read(alloc)?,
                Devices {
                    failing_read: Some(self.run.reads.saturating_add(1)),
                    ..BYTEWISE
                },
                fault,
            ),
            Trial::Writes => (
                self.tells_each_write(alloc)?,
                Devices {
                    failing_write: Some((self.output.len() as u64).saturating_add(1)),
                    ..BYTEWISE
                },
                fault,
            ),
            Trial::Flush => (
                fault.is_some() || self.is_read_twice() || self.ends_early(alloc)?,
                Devices {
                    flush_fails: true,
                    ..SMOOTH
                },
                fault.or(Some("output cannot be written")),
            ),
        };
        Ok(is_told && self.ends(alloc, devices, fault)?)
    }

    /// The name of the first trial that the run fails.
    fn first_failing(&self, alloc: Global) -> Result<Option<&'static str>, AllocError> {
        for &(trial, name) in &TRIALS {
            if !self.stands(alloc, trial)? {
                return Ok(Some(name));
            }
        }
        Ok(None)
    }
}

/// Whether the run passes the trial.
pub fn stands(alloc: Global, run: Run<'_>, trial: Trial) -> Result<bool, LineFault> {
    let held = Case::new(alloc, run)?.stands(alloc, trial);
    Ok(held?)
}

/// Whether the run, and the one that decodes its output, have the expected results, with reads and writes of each size.
pub fn goes_there_and_back(alloc: Global, run: Run<'_>) -> Result<bool, LineFault> {
    Ok(stands(alloc, run, Trial::Sizes)? && stands(alloc, run.back(), Trial::Sizes)?)
}

/// The name of the first trial that the run fails.
fn first_failing(alloc: Global, run: Run<'_>) -> Result<Option<&'static str>, LineFault> {
    let failing = Case::new(alloc, run)?.first_failing(alloc);
    Ok(failing?)
}

/// Asserts that each run passes each trial.
pub fn all_stand(rt: &impl Abort, alloc: Global, runs: &[Run<'_>]) -> Result<(), Fail> {
    for run in runs {
        if let Some(trial) = first_failing(alloc, *run)? {
            let case = Case::new(alloc, *run)?;
            let ran = case.run_on(alloc, &case.input, SMOOTH)?;
            assert!(rt;
                false,
                "{:?} fails the trial of {trial}: expected are {:?} and {:?}; without the trial there are {:?} and {:?}",
                run.words,
                run.fault,
                case.output,
                String::from_utf8_lossy(alloc, &ran.messages)?,
                ran.output
            );
        }
    }
    Ok(())
}
