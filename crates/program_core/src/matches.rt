//! Reads values from clap's matches.

ghost use Rattle.std.specs.Prelude.{◌≡◌, IfErr, IfOk, map, option_map, string_bytes, true};
ghost use Rattle.clap.specs.Words.{IsParsedFrom, app_of, fault_of as refusals_of, first_of, found_of, is_simple, is_simple_and_free, matches_of as rows_matched, rows_of};
ghost use Rattle.program_core.specs.Line.{IsRefusal, flag_in};
ghost use Rattle.program_core.specs.Options.{number_in};

use crate::line_fault::{LineFault, fault_of};
use clap::{ArgMatches, Command};
use std::alloc::{AllocError, Global};
use std::convert::AsStr;
use std::str::FromStr;

/// The matches of the arguments. The first argument is the name of the program.
pub(crate) fn matches_of<'a, S: AsStr>(
    alloc: Global,
    command: Command<'a>,
    words: &'a [S],
) -> Result<ArgMatches<'a>, LineFault>
    ensures rows { is_simple (app_of command.entry) ≡ true
        → IfOk result (λ m. rows_of (found_of m) ≡ rows_matched (app_of command.entry)
        (map S.text words.entry.now)) }
    ensures parsed { IfOk result (IsParsedFrom command.entry) }
    ensures fault { is_simple_and_free (app_of command.entry) ≡ true
        → IfErr result (IsRefusal (refusals_of (app_of command.entry)
        (map S.text words.entry.now))) }
{
    match command.try_get_matches_from(words) {
        Ok(matches) => Ok(matches),
        Err(error) => Err(fault_of(alloc, error)),
    }
}

/// The text that the arguments give.
pub(crate) fn text(
    alloc: Global,
    matches: &ArgMatches<'_>,
    id: &str,
) -> Result<Option<String>, AllocError>
    ensures { IfOk result (λ t. option_map string_bytes t ≡ first_of id.now
        (rows_of (found_of matches.now))) }
{
    match matches.get_str(id) {
        Some(text) => Ok(Some(String::from_str(alloc, text)?)),
        None => Ok(None),
    }
}

/// The number that the arguments give for an option, if any.
pub(crate) fn number(matches: &ArgMatches<'_>, id: &str) -> Option<u32>
    ensures { result ≡ number_in id.now (rows_of (found_of matches.now)) }
{
    matches.get_one(id)
}

/// Whether the arguments set a flag.
pub(crate) fn flag(matches: &ArgMatches<'_>, id: &str) -> bool
    ensures { result ≡ flag_in id.now (rows_of (found_of matches.now)) }
{
    matches.get_one::<bool>(id).unwrap_or(false)
}
