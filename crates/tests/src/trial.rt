//! Runs both programs on devices in memory, with trials of each run.

ghost use Rattle.std.specs.Prelude.{◌↔◌, IfOk, IsTrue, option_map};
ghost use Rattle.tests.specs.Trial.{HasTold};

mod bytes;
mod cut;
mod program;
mod reads;
mod tall;
mod trials;

pub use self::bytes::Bytes;
pub use self::cut::{Cut, all_are_cut};
pub use self::program::Program;
pub use self::reads::is_read_again;
pub use self::tall::Tall;
pub use self::trials::{Trial, all_stand, goes_there_and_back, stands};
use pbm_core::trial::{Drip, Pieces};
use program_core::LineFault;
use std::alloc::{AllocError, Global};

/// The behaviour of a run's devices.
#[derive(Clone, Copy)]
pub struct Devices {
    /// The greatest number of bytes that a read or a write moves.
    pub most: usize,
    /// The number of the read that fails, from 1.
    pub failing_read: Option<u64>,
    /// Whether the input can be read a second time.
    pub twice: bool,
    /// The number of the read of the second reading that fails.
    pub failing_again: Option<u64>,
    pub failing_write: Option<u64>,
    pub flush_fails: bool,
}

/// The results of a run.
#[derive(Drop)]
struct Ran {
    status: u8,
    output: Vec<u8>,
    messages: Vec<u8>,
}

pub const SMOOTH: Devices = Devices {
    most: 4096,
    failing_read: None,
    twice: true,
    failing_again: None,
    failing_write: None,
    flush_fails: false,
};

/// Single bytes.
const BYTEWISE: Devices = Devices { most: 1, ..SMOOTH };

/// Whether a run of this program has reported exactly the text of this error, or nothing if there is none.
fn has_told(
    alloc: Global,
    ran: &Ran,
    program: &str,
    fault: Option<&str>,
) -> Result<bool, AllocError>
    ensures { IfOk result (λ told. IsTrue told ↔ HasTold program.now
        (option_map (λ f. f.now) fault.entry) ran.now.status ran.now.messages.items) }
{
    match fault {
        None => Ok(ran.status == 0 && ran.messages.is_empty()),
        Some(text) => {
            let said = format!(in alloc; "{program}: {text}\n")?;
            Ok(ran.status == 1 && ran.messages.as_slice() == said.as_bytes())
        }
    }
}

/// Runs a program on these bytes, with an output buffer of this size.
fn run_on(
    alloc: Global,
    program: &Program,
    bytes: &[u8],
    devices: Devices,
    room: usize,
) -> Result<Ran, AllocError> {
    let most = devices.most.max(1);
    let input = Pieces::new(bytes, most, devices.failing_read);
    let again = if devices.twice {
        Some(Pieces::new(bytes, most, devices.failing_again))
    } else {
        None
    };
    let mut held = vec![in alloc; 0u8; room]?;
    let output = Drip::new(&mut held, most, devices.failing_write, devices.flush_fails);
    let mut told = [0; 128];
    let mut messages = Drip::new(&mut told, 128, None, false);
    let (status, _, _, output) = program.run(alloc, input, again, output, &mut messages);
    Ok(Ran {
        status,
        output: output.written().to_vec(alloc)?,
        messages: messages.written().to_vec(alloc)?,
    })
}

/// A run of a program: its arguments, its input, and the expected results.
#[derive(Clone, Copy)]
pub struct Run<'a> {
    pub words: &'a [&'a str],
    pub input: Bytes<'a>,
    /// The number of bytes that are read, one at a time; the end of the input counts as one.
    pub reads: u64,
    pub output: Bytes<'a>,
    /// The text of the expected error.
    pub fault: Option<&'a str>,
}

impl<'a> Run<'a> {
    /// The run that decodes this run's output.
    pub fn back(self) -> Run<'a> {
        Run {
            words: &["jbgtopbm85"],
            input: self.output,
            output: self.input,
            ..self
        }
    }

    /// Whether `count` bytes may have been written if the read after `came` bytes fails: none before a whole header was
    /// read, and at least the header from then on; for `--info`, none.
    fn may_stand(self, came: u64, count: usize) -> bool {
        match (self.input.header(), self.output.header()) {
            (Some(read), Some(written)) if came >= read as u64 => count >= written,
            _ => count == 0,
        }
    }
}

/// A run in a trial.
#[derive(Drop)]
struct Case<'a> {
    run: Run<'a>,
    program: Program,
    input: Vec<u8>,
    output: Vec<u8>,
}

impl<'a> Case<'a> {
    fn new(alloc: Global, run: Run<'a>) -> Result<Case<'a>, LineFault> {
        Ok(Case {
            run,
            input: run.input.to_vec(alloc)?,
            output: run.output.to_vec(alloc)?,
            program: Program::of(alloc, run.words)?,
        })
    }

    /// Runs the program on these bytes, with a buffer one byte longer than the output.
    fn run_on(&self, alloc: Global, bytes: &[u8], devices: Devices) -> Result<Ran, AllocError> {
        let room = self.output.len().saturating_add(1);
        run_on(alloc, &self.program, bytes, devices, room)
    }

    /// Whether a run on these bytes writes exactly `count` bytes of the output, and reports exactly the text of this
    /// error, or nothing if there is none.
    fn leaves(
        &self,
        alloc: Global,
        bytes: &[u8],
        devices: Devices,
        count: usize,
        fault: Option<&str>,
    ) -> Result<bool, AllocError> {
        if count > self.output.len() {
            return Ok(false);
        }
        let ran = self.run_on(alloc, bytes, devices)?;
        Ok(
            ran.output.as_slice() == &self.output[..count]
                && has_told(alloc, &ran, self.program.name(), fault)?,
        )
    }

    /// The same for all sizes of reads and writes. If there is an error, a flush would fail: none may be made.
    fn leaves_at_each_size(
        &self,
        alloc: Global,
        bytes: &[u8],
        count: usize,
        fault: Option<&str>,
    ) -> Result<bool, AllocError> {
        for most in [1, 2, 3, 4095, 4096, 4097] {
            let devices = Devices {
                most,
                flush_fails: fault.is_some(),
                ..SMOOTH
            };
            if !self.leaves(alloc, bytes, devices, count, fault)? {
                return Ok(false);
            }
        }
        Ok(true)
    }

    /// Whether a run on these devices writes the whole output, and reports this error.
    fn ends(
        &self,
        alloc: Global,
        devices: Devices,
        fault: Option<&str>,
    ) -> Result<bool, AllocError> {
        self.leaves(alloc, &self.input, devices, self.output.len(), fault)
    }
}

/// Whether the run has the expected results on these devices.
pub fn leaves(alloc: Global, run: Run<'_>, devices: Devices) -> Result<bool, LineFault> {
    let held = Case::new(alloc, run)?.ends(alloc, devices, run.fault);
    Ok(held?)
}
