//! The work of `pbmtojbg85`: its command line, and its run on borrowed devices.

ghost use Rattle.std.specs.Prelude.{◌≡◌, ◌⊎◌, true, IfErr, IfOk, OnErr, option_map, string_bytes};
ghost use Rattle.std.specs.Process.{exit_status};
ghost use Rattle.t85_core.specs.Change.{input_change};
ghost use Rattle.program_core.specs.Pbmtojbg85.{RunsEncoding};
ghost use Rattle.program_core.specs.Run.{names_file, reads_file, writes_file, written};

mod words;
mod work;

use crate::files::{Readable, Writable};
use crate::message::report;
use crate::program::{create_output, open_input};
use devices::{FromRead, Input, Output, ToWrite};
use std::alloc::Global;
use std::process::ExitCode;
use t85_core::to_jbg;
pub use words::job;
pub use work::Job;

/// The name of the program.
pub const NAME: &str = "pbmtojbg85";

/// The files of a job.
#[derive(Drop)]
pub struct Files<R, W> {
    pub input: R,
    pub output: W,
}

/// The files of a job, as `open` opens them.
pub type Opened = Files<FromRead<Readable>, ToWrite<Writable>>;

/// Opens the job's input, and then creates or truncates its output. If that fails, it reports the error and returns the
/// exit code with which the program must end; only a named file can fail.
pub fn open(rt: &HostRuntime, job: &Job) -> Result<Opened, ExitCode>
    ensures input { IfOk result (λ files. reads_file files.input.reader ≡ names_file
        (option_map string_bytes job.now.input)) }
    ensures output { IfOk result (λ files. writes_file files.output.writer ≡ names_file
        (option_map string_bytes job.now.output)) }
    ensures fails { OnErr result ((names_file (option_map string_bytes job.now.input) ≡ true)
        ⊎ (names_file (option_map string_bytes job.now.output) ≡ true)) }
    ensures status { IfErr result (λ e. exit_status e ≡ 1) }
{
    let input = open_input(rt, NAME, &job.input)?;
    let output = create_output(rt, NAME, &job.output)?;
    Ok(Files {
        input: FromRead::new(input),
        output: ToWrite::new(output),
    })
}

/// Does the job on its files, reports an error to `messages`, and returns the exit status: 0, or 1 after an error.
pub fn run<R: Input, W: Output, M: Output>(
    alloc: Global,
    job: &Job,
    files: &mut Files<R, W>,
    messages: &mut M,
) -> u8
    ensures { RunsEncoding job.now (input_change R.view files.old.input files.new.input)
        (written W.view files.old.output files.new.output)
        (written M.view messages.old messages.new) result }
{
    let outcome = to_jbg(alloc, &mut files.input, &mut files.output, &job.options());
    report(NAME, outcome, messages)
}
