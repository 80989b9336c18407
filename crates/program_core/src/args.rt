//! The arguments that clap parses: options, and file names.
//!
//! An argument takes 600 bytes of stack, and several times that while it is created. So `with_arg`, which adds one to its
//! command, is not inlined, and the next argument reuses the stack.

ghost use Rattle.std.specs.Prelude.{◌≡◌, false, IfOk, Some};
ghost use Rattle.clap.specs.Words.{rule_of};
ghost use Rattle.program_core.specs.Options.{HasAlso, number_rule_of, rule_for};

use clap::{Arg, ArgAction, Command, value_parser};
use std::alloc::{AllocError, Global};

/// The version of both commands, and of the library.
pub(crate) const VERSION: &str = "1.0.0";

/// A kind of argument. An option has one letter, or its name is long and that of the argument.
#[derive(Clone, Copy)]
pub(crate) enum Kind<'a> {
    /// A file name.
    File,
    /// An option with no value.
    Flag(char),
    LongFlag,
    /// An option whose value is a text.
    Text(char),
    /// An option whose value is a number below 2^32.
    Number(char),
    LongNumber,
    /// The same, with a default value.
    Default(char, &'a str),
}

/// An argument whose value is a number below 2^32.
fn number<'a>(arg: Arg<'a>) -> Arg<'a>
    ensures rule { rule_of result ≡ number_rule_of (rule_of arg.entry) }
    ensures local { result.global ≡ arg.entry.global }
    ensures help { result.help ≡ arg.entry.help }
{
    arg.action(ArgAction::Set)
        .value_name("N")
        .value_parser(value_parser!(u32))
}

/// An argument of this kind.
fn arg_of<'a>(alloc: Global, id: &'a str, kind: Kind<'a>, help: &'a str) -> Arg<'a>
    ensures rule { rule_of result ≡ rule_for kind.entry id.entry.now }
    ensures local { result.global ≡ false }
    ensures help { result.help ≡ Some help.entry }
{
    let arg = Arg::new(alloc, id).help(help);
    match kind {
        Kind::File => arg,
        Kind::Flag(letter) => arg.short(letter).action(ArgAction::SetTrue),
        Kind::LongFlag => arg.long(id).action(ArgAction::SetTrue),
        Kind::Text(letter) => arg.short(letter).value_name("TEXT"),
        Kind::Number(letter) => number(arg.short(letter)),
        Kind::LongNumber => number(arg.long(id)),
        Kind::Default(letter, value) => number(arg.short(letter)).default_value(value),
    }
}

/// The command with an argument added.
#[inline(never)]
pub(crate) fn with_arg<'a>(
    command: Command<'a>,
    alloc: Global,
    id: &'a str,
    kind: Kind<'a>,
    help: &'a str,
) -> Result<Command<'a>, AllocError>
    ensures { IfOk result (HasAlso command.entry (rule_for kind.entry id.entry.now)) }
{
    command.arg(arg_of(alloc, id, kind, help))
}
