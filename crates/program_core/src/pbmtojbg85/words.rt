//! The command line.

ghost use Rattle.std.specs.Prelude.{◌≡◌, Some, is_some, IfErr, IfOk, map, option_map, string_bytes, true};
ghost use Rattle.clap.specs.Words.{app_of, found_of, is_simple, rows_of};
ghost use Rattle.program_core.specs.Options.{number_in, with_version};
ghost use Rattle.program_core.specs.Pbmtojbg85.{HasDefaults, IsFaultOf, IsEncodeJobOf, IsOptionFault, encode_command as the_command, encode_matches, encode_numbers};

use super::NAME;
use super::work::Job;
use crate::args::{Kind, VERSION, with_arg};
use crate::line_fault::LineFault;
use crate::matches::{flag, matches_of, number, text};
use clap::{ArgMatches, Command};
use std::alloc::{AllocError, Global};
use std::convert::AsStr;
use t85_core::Options;

fn command<'a>(alloc: Global) -> Result<Command<'a>, AllocError>
    ensures { IfOk result (λ c. app_of c ≡ the_command) }
{
    Ok(unversioned(alloc)?.version(VERSION))
}

/// The command, without its version.
fn unversioned<'a>(alloc: Global) -> Result<Command<'a>, AllocError>
    ensures { IfOk result (λ c. with_version (app_of c) ≡ the_command) }
{
    let command = with_numbers(alloc)?;
    let command = with_arg(
        command,
        alloc,
        "comment",
        Kind::Text('C'),
        "A comment in the stream",
    )?;
    let command = with_arg(
        command,
        alloc,
        "reset",
        Kind::Flag('r'),
        "Begin each stripe anew",
    )?;
    let command = with_arg(
        command,
        alloc,
        "input",
        Kind::File,
        "The PBM image, or `-` for standard input",
    )?;
    with_arg(
        command,
        alloc,
        "output",
        Kind::File,
        "The file to write, or `-` for standard output",
    )
}

/// The command with its options that have a number.
#[inline(never)]
fn with_numbers<'a>(alloc: Global) -> Result<Command<'a>, AllocError>
    ensures { IfOk result (λ c. app_of c ≡ encode_numbers) }
{
    let command = Command::new(alloc, NAME);
    let command = with_arg(
        command,
        alloc,
        "options",
        Kind::Default('p', "8"),
        "Options: 64 two lines, 32 variable height, 8 typical prediction, summed",
    )?;
    let command = with_arg(
        command,
        alloc,
        "stripe",
        Kind::Default('s', "128"),
        "Rows in a stripe",
    )?;
    let command = with_arg(
        command,
        alloc,
        "move",
        Kind::Default('m', "0"),
        "Greatest offset of the adaptive pixel",
    )?;
    with_arg(
        command,
        alloc,
        "announced",
        Kind::Number('Y'),
        "Announce a height that the image may fall short of",
    )
}

/// The bytes of a comment, if there is one.
pub(super) fn comment_bytes(comment: &Option<String>) -> Option<&[u8]>
    ensures { option_map (λ b. b.now) result ≡ option_map string_bytes comment.now }
{
    match comment {
        Some(text) => Some(text.as_bytes()),
        None => None,
    }
}

/// The number for an option with a default.
fn number_or_default(matches: &ArgMatches<'_>, id: &str) -> u32
    requires { is_some (number_in id.now (rows_of (found_of matches.now))) ≡ true }
    ensures { number_in id.now (rows_of (found_of matches.now)) ≡ Some result }
{
    matches.get_one(id).unwrap()
}

/// The job that the matches ask for.
fn job_of(alloc: Global, matches: &ArgMatches<'_>) -> Result<Job, LineFault>
    requires { HasDefaults (rows_of (found_of matches.now)) }
    ensures values { IfOk result (IsEncodeJobOf (rows_of (found_of matches.now))) }
    ensures fault { IfErr result (IsOptionFault (rows_of (found_of matches.now))) }
{
    let p = number_or_default(matches, "options");
    let s = number_or_default(matches, "stripe");
    let m = number_or_default(matches, "move");
    let announced = number(matches, "announced");
    let reset = flag(matches, "reset");
    let comment = text(alloc, matches, "comment")?;
    let input = text(alloc, matches, "input")?;
    let output = text(alloc, matches, "output")?;
    if let Err(fault) = Options::new(p, s, m, announced, reset, comment_bytes(&comment)) {
        return Err(LineFault::Fault(fault));
    }
    Ok(Job {
        p,
        s,
        m,
        announced,
        reset,
        comment,
        input,
        output,
    })
}

/// The job that the arguments ask for. The first argument is the name of the program.
///
/// The function is not inlined, so that its stack is released before the job is done.
#[inline(never)]
pub fn job<S: AsStr>(alloc: Global, words: &[S]) -> Result<Job, LineFault>
    ensures simple { is_simple the_command ≡ true }
    ensures values { IfOk result (IsEncodeJobOf (encode_matches (map S.text words.now))) }
    ensures fault { IfErr result (IsFaultOf (map S.text words.now)) }
{
    let command = command(alloc)?;
    let matches = matches_of(alloc, command, words)?;
    job_of(alloc, &matches)
}
