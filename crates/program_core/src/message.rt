//! Writes a line to standard error.

ghost use Rattle.std.specs.Prelude.{◌≡◌, ◌≤◌, ◌==◌, ℕ, List, length};
ghost use Rattle.std.specs.List.{before_first};
ghost use Rattle.std.specs.Fmt.InlineText.{inline_text};
ghost use Rattle.program_core.specs.Message.{fault_line, IsInOneLine, Reports, TellsFault};
ghost use Rattle.program_core.specs.Run.{exit_status};

use devices::{Output, write_bytes};
use std::fmt::InlineText;
use t85_core::Fault;

/// The greatest number of bytes in a line, including the program's name and the error's text.
const LINE_ROOM: usize = 128;

const NAME_ROOM: usize = 24;

const TEXT_ROOM: usize = 96;

/// Reports an error to `messages`, and returns the exit status: 0, or 1 after an error.
pub(crate) fn report<M: Output>(program: &str, outcome: Result<(), Fault>, messages: &mut M) -> u8
    ensures status { result ≡ exit_status outcome }
    ensures reports { length program.now ≤ 24 →
        Reports program.now outcome (M.view messages.old) (M.view messages.new) }
{
    match outcome {
        Ok(()) => 0,
        Err(fault) => {
            write_line(program, fault, messages);
            1
        }
    }
}

/// Writes a program's line about an error, in one write if the output accepts it.
fn write_line<M: Output>(program: &str, fault: Fault, messages: &mut M)
    ensures { length program.now ≤ 24 →
        TellsFault program.now (M.view messages.old) (M.view messages.new) }
{
    let line = line_about(program, fault);
    let _ = write_bytes(messages, line.as_str().as_bytes());
}

/// A program's line about an error. Text that does not fit is replaced by dots, and only the first line of it is shown.
fn line_about(program: &str, fault: Fault) -> InlineText<128>
    ensures { length program.now ≤ 24 → (text : List ℕ) × IsInOneLine text
        × (inline_text result ≡ fault_line program.now text) }
{
    let text = InlineText::<TEXT_ROOM>::of(fault);
    InlineText::<LINE_ROOM>::new()
        .and_str(program, NAME_ROOM)
        .and_str(": ", 2)
        .and_str(first_line(text.as_str()), TEXT_ROOM)
        .and_str("\n", 1)
}

/// The text before its first line feed, or all of it.
fn first_line(text: &str) -> &str
    ensures { result.now ≡ before_first (λ b. b == 10) text.now }
{
    match text.split_once('\n') {
        Some((line, _)) => line,
        None => text,
    }
}
