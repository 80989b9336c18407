//! How a program begins, and how it ends.

ghost use Rattle.std.specs.Prelude.{◌≡◌, ◌≤◌, ◌⊎◌, IfErr, IfOk, IsOk, IsOkAnd, OnErr, length, option_map, string_bytes, true};
ghost use Rattle.std.specs.Iterator.{Drains};
ghost use Rattle.std.specs.Vec.Iter.{into_iter_steps};
ghost use Rattle.std.specs.Process.{exit_status};
ghost use Rattle.program_core.specs.Run.{names_file, reads_file, writes_file, written};
ghost use Rattle.program_core.specs.Line.{IsHelp, status_of};
ghost use Rattle.program_core.specs.Refused.{RefusesArguments};

use crate::files::{Readable, Writable};
use crate::line_fault::LineFault;
use crate::message::report;
use devices::{Output, ToWrite, write_bytes};
use std::env::Args;
use std::io;
use std::process::ExitCode;
use t85_core::Fault;

/// Reports why a program ends.
fn complain(rt: &HostRuntime, program: &str, text: &str, status: u8) -> ExitCode
    ensures { exit_status result ≡ status }
{
    let _ = rt.eprintln(format_args!("{program}: {text}"));
    ExitCode::from(status)
}

/// Writes the help or the version to the output, or reports to `messages` why the arguments give no job. Returns the exit
/// status. If the help cannot be written, that is reported as an error.
pub fn refuse<W: Output, M: Output>(
    program: &str,
    fault: LineFault,
    output: &mut W,
    messages: &mut M,
) -> u8
    ensures status { (result ≡ status_of fault) ⊎ (IsHelp fault × (result ≡ 1)) }
    ensures does { length program.now ≤ 24 → RefusesArguments program.now fault
        (written W.view output.old output.new) (written M.view messages.old messages.new) result }
{
    let status = fault.status();
    match fault {
        LineFault::Help(text) => match write_bytes(output, text.as_str().as_bytes()) {
            Ok(()) => status,
            Err(_) => report(program, Err(Fault::Write), messages),
        },
        LineFault::Usage(text) => {
            let _ = write_bytes(messages, text.as_str().as_bytes());
            status
        }
        LineFault::Fault(fault) => {
            let _ = report(program, Err(fault), messages);
            status
        }
    }
}

/// Reports lack of memory.
fn out_of_memory(rt: &HostRuntime, program: &str) -> ExitCode
    ensures { exit_status result ≡ 1 }
{
    let mut messages = ToWrite::new(rt.stderr());
    end(report(program, Err(Fault::OutOfMemory), &mut messages))
}

/// The arguments of the command line, from what the system returned for them. If they cannot be read, or memory runs
/// short, it reports the error and returns the exit code with which the program must end.
pub fn words_of(
    rt: &HostRuntime,
    program: &str,
    args: io::Result<Args>,
) -> Result<Vec<String>, ExitCode>
    ensures all { IfOk result (λ words. IsOkAnd args (λ these.
        Drains into_iter_steps these words.items)) }
    ensures short { IsOk args → IfErr result (λ e. exit_status e ≡ 1) }
    ensures status { IfErr result (λ e. (exit_status e ≡ 1) ⊎ (exit_status e ≡ 2)) }
{
    let words = match args {
        Ok(words) => words,
        Err(error) => {
            if error.kind() == io::ErrorKind::OutOfMemory {
                return Err(out_of_memory(rt, program));
            }
            let text = "a word of the command line is no UTF-8";
            return Err(complain(rt, program, text, 2));
        }
    };
    match words.collect::<Vec<String>>(rt.alloc()) {
        Ok(words) => Ok(words),
        Err(_) => Err(out_of_memory(rt, program)),
    }
}

/// The exit code for an exit status.
pub fn end(status: u8) -> ExitCode
    ensures { exit_status result ≡ status }
{
    ExitCode::from(status)
}

/// Opens an input. If that fails, it reports the error and returns the exit code with which the program must end.
pub(crate) fn open_input(
    rt: &HostRuntime,
    program: &str,
    name: &Option<String>,
) -> Result<Readable, ExitCode>
    ensures chosen { IfOk result (λ input. reads_file input ≡ names_file
        (option_map string_bytes name.now)) }
    ensures fails { OnErr result (names_file (option_map string_bytes name.now) ≡ true) }
    ensures status { IfErr result (λ e. exit_status e ≡ 1) }
{
    match Readable::open(rt, name) {
        Ok(input) => Ok(input),
        Err(_) => Err(complain(rt, program, "input file cannot be opened", 1)),
    }
}

/// Creates or truncates an output. If that fails, it reports the error and returns the exit code with which the program
/// must end.
pub(crate) fn create_output(
    rt: &HostRuntime,
    program: &str,
    name: &Option<String>,
) -> Result<Writable, ExitCode>
    ensures chosen { IfOk result (λ output. writes_file output ≡ names_file
        (option_map string_bytes name.now)) }
    ensures fails { OnErr result (names_file (option_map string_bytes name.now) ≡ true) }
    ensures status { IfErr result (λ e. exit_status e ≡ 1) }
{
    match Writable::create(rt, name) {
        Ok(output) => Ok(output),
        Err(_) => Err(complain(rt, program, "output file cannot be created", 1)),
    }
}
