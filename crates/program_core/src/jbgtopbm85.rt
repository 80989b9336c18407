//! The work of `jbgtopbm85`: its command line, and its run on borrowed devices.

ghost use Rattle.std.specs.Prelude.{◌≡◌, ◌↔◌, ◌⊎◌, false, true, IfErr, IfOk, IfSome, IsSome, OnErr, option_map, string_bytes};
ghost use Rattle.std.specs.Process.{exit_status};
ghost use Rattle.t85_core.specs.Change.{input_change};
ghost use Rattle.t85_core.specs.Failures.{FlushesOutput};
ghost use Rattle.t85_core.specs.ToPbm.{delivery_of, second_reading_of};
ghost use Rattle.program_core.specs.Jbgtopbm85.{Does, limit_of, RunsDecoding};
ghost use Rattle.program_core.specs.Run.{IsRegular, names_file, reads_file, writes_file, written};

mod words;
mod work;

use crate::files::{Readable, Writable};
use crate::message::report;
use crate::program::{create_output, open_input};
use devices::{FromRead, Input, Output, ToWrite};
use std::alloc::Global;
use std::process::ExitCode;
use t85_core::{Fault, info, to_pbm};
pub use words::job;
pub use work::Job;

/// The name of the program.
pub const NAME: &str = "jbgtopbm85";

/// The files of a job.
#[derive(Drop)]
pub struct Files<R, Second, W> {
    pub input: R,
    /// The input opened a second time, if its image is requested and it can be read again.
    pub again: Option<Second>,
    pub output: W,
}

/// The files of a job, as `open` opens them.
pub type Opened = Files<FromRead<Readable>, FromRead<Readable>, ToWrite<Writable>>;

/// Opens the job's input, and then creates or truncates its output. If that fails, it reports the error and returns the
/// exit code with which the program must end; only a named file can fail. A pipe is opened once, even if it has a name.
pub fn open(rt: &HostRuntime, job: &Job) -> Result<Opened, ExitCode>
    ensures input { IfOk result (λ files. reads_file files.input.reader ≡ names_file
        (option_map string_bytes job.now.input)) }
    ensures again { IfOk result (λ files. IsSome files.again
        ↔ ((job.now.info ≡ false) × IsRegular files.input.reader)) }
    ensures second { IfOk result (λ files. IfSome files.again
        (λ again. reads_file again.reader ≡ true)) }
    ensures output { IfOk result (λ files. writes_file files.output.writer ≡ names_file
        (option_map string_bytes job.now.output)) }
    ensures fails { OnErr result ((names_file (option_map string_bytes job.now.input) ≡ true)
        ⊎ (names_file (option_map string_bytes job.now.output) ≡ true)) }
    ensures status { IfErr result (λ e. exit_status e ≡ 1) }
{
    let input = open_input(rt, NAME, &job.input)?.with_type(!job.info);
    let again = if !job.info && input.is_regular() {
        Some(FromRead::new(open_input(rt, NAME, &job.input)?))
    } else {
        None
    };
    let output = create_output(rt, NAME, &job.output)?;
    Ok(Files {
        input: FromRead::new(input),
        again,
        output: ToWrite::new(output),
    })
}

/// Does the job on its files, reports an error to `messages`, and returns the exit status: 0, or 1 after an error. The
/// second reading contains the same bytes as the input, from the beginning. It is needed if the header allows the height
/// to change.
pub fn run<R: Input, Second: Input, W: Output, M: Output>(
    alloc: Global,
    job: &Job,
    files: &mut Files<R, Second, W>,
    messages: &mut M,
) -> u8
    ensures { RunsDecoding job.now (input_change R.view files.old.input files.new.input)
        (second_reading_of Second.view files.old.again files.new.again)
        (written W.view files.old.output files.new.output)
        (written M.view messages.old messages.new) result }
{
    let outcome = work_on(alloc, job, files);
    report(NAME, outcome, messages)
}

/// Calls the engine to do what the job asks for.
fn work_on<R: Input, Second: Input, W: Output>(
    alloc: Global,
    job: &Job,
    files: &mut Files<R, Second, W>,
) -> Result<(), Fault>
    ensures does { Does job.now.info (limit_of job.now)
        (input_change R.view files.old.input files.new.input)
        (second_reading_of Second.view files.old.again files.new.again)
        (delivery_of W.view files.old.output files.new.output) result }
    ensures flushes { FlushesOutput (W.view files.old.output) (W.view files.new.output) result }
{
    let input = &mut files.input;
    let output = &mut files.output;
    if job.info {
        info(input, output)
    } else {
        let limit = job.max_rows.unwrap_or(u32::MAX);
        to_pbm(alloc, input, &mut files.again, limit, output)
    }
}
