//! The command line.

ghost use Rattle.std.specs.Prelude.{◌≡◌, IfErr, IfOk, map, true};
ghost use Rattle.clap.specs.Words.{app_of, found_of, is_simple, rows_of};
ghost use Rattle.program_core.specs.Line.{IsRefusal};
ghost use Rattle.program_core.specs.Options.{with_version};
ghost use Rattle.program_core.specs.Jbgtopbm85.{IsDecodeJobOf, decode_command as the_command, decode_matches, decode_refusals};

use super::NAME;
use super::work::Job;
use crate::args::{Kind, VERSION, with_arg};
use crate::line_fault::LineFault;
use crate::matches::{flag, matches_of, number, text};
use clap::{ArgMatches, Command};
use std::alloc::{AllocError, Global};
use std::convert::AsStr;

fn command<'a>(alloc: Global) -> Result<Command<'a>, AllocError>
    ensures { IfOk result (λ c. app_of c ≡ the_command) }
{
    Ok(unversioned(alloc)?.version(VERSION))
}

/// The command, without its version.
fn unversioned<'a>(alloc: Global) -> Result<Command<'a>, AllocError>
    ensures { IfOk result (λ c. with_version (app_of c) ≡ the_command) }
{
    let command = Command::new(alloc, NAME);
    let command = with_arg(
        command,
        alloc,
        "info",
        Kind::LongFlag,
        "Write a line of numbers about the stream in place of its image",
    )?;
    let command = with_arg(
        command,
        alloc,
        "max-rows",
        Kind::LongNumber,
        "Refuse an image of more rows",
    )?;
    let command = with_arg(
        command,
        alloc,
        "input",
        Kind::File,
        "The JBIG1 stream, or `-` for standard input",
    )?;
    with_arg(
        command,
        alloc,
        "output",
        Kind::File,
        "The file to write, or `-` for standard output",
    )
}

/// The job that the matches ask for.
fn job_of(alloc: Global, matches: &ArgMatches<'_>) -> Result<Job, AllocError>
    ensures { IfOk result (IsDecodeJobOf (rows_of (found_of matches.now))) }
{
    let info = flag(matches, "info");
    let max_rows = number(matches, "max-rows");
    let input = text(alloc, matches, "input")?;
    let output = text(alloc, matches, "output")?;
    Ok(Job {
        info,
        max_rows,
        input,
        output,
    })
}

/// The job that the arguments ask for. The first argument is the name of the program.
///
/// The function is not inlined, so that its stack is released before the job is done.
#[inline(never)]
pub fn job<S: AsStr>(alloc: Global, words: &[S]) -> Result<Job, LineFault>
    ensures simple { is_simple the_command ≡ true }
    ensures values { IfOk result (IsDecodeJobOf (decode_matches (map S.text words.now))) }
    ensures fault { IfErr result (IsRefusal (decode_refusals (map S.text words.now))) }
{
    let command = command(alloc)?;
    let matches = matches_of(alloc, command, words)?;
    let job = job_of(alloc, &matches)?;
    Ok(job)
}
