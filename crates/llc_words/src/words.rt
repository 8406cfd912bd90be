//! Reading the words of a command line.
ghost use Rattle.std.specs.Prelude.{◌≡◌, ◌≢◌, Some, None, IfOk, IsErrOf, map, string_bytes, option_map};
ghost use Rattle.clap.specs.Words.{first_of, found_of, kind_of, rows_of};
ghost use Rattle.clap.specs.declared.error.kind.ErrorKind.TheVariants.{OutOfMemory};
ghost use Rattle.llc_words.specs.Commands.{command_in, command_of, mode_named, steps_in};

use crate::number::number_in;
use crate::syntax::syntax;
use crate::types::{Command, Mode, WordsEnd};
use clap::error::ErrorKind;
use clap::{ArgMatches, Error};
use std::alloc::Global;

/// How many steps a run takes where the words say nothing of it, and the most that they may ask for.
const DEFAULT_STEPS: u64 = 100_000_000;

const MOST_STEPS: u64 = 1_000_000_000;

/// Reads the words of a command line, the program's name first: a mode, and `--steps` and `--input` with a
/// value each. The number of an option keeps its rule also where the mode does not use it.
///
/// Errors: `Refused` where the words ask for nothing that the program does, and `NoMemory`.
pub fn read_words<'a>(alloc: Global, words: &'a [String]) -> Result<Command<'a>, WordsEnd>
    ensures asked { IfOk result (λ command.
        command_of (map (λ word. string_bytes word) words.now) ≡ Some command) }
    ensures refused { IsErrOf result WordsEnd.Refused → command_of (map (λ word. string_bytes word) words.now) ≡ None }
{
    let Ok(command) = syntax(alloc) else {
        return Err(WordsEnd::NoMemory);
    };
    match command.try_get_matches_from(words) {
        Ok(matches) => command_in(&matches).ok_or(WordsEnd::Refused),
        Err(error) => Err(end_of(&error)),
    }
}

/// Why words were not read, by the error of their parse.
fn end_of(error: &Error) -> WordsEnd
    ensures refused { result ≡ WordsEnd.Refused → kind_of error.now ≢ OutOfMemory }
{
    if error.kind() == ErrorKind::OutOfMemory {
        WordsEnd::NoMemory
    } else {
        WordsEnd::Refused
    }
}

/// What words that were parsed ask for, or `None` where their mode is another word or a number breaks its
/// rule.
fn command_in<'a>(matches: &ArgMatches<'a>) -> Option<Command<'a>>
    ensures { result ≡ command_in (rows_of (found_of matches.now)) }
{
    let mode = named_mode(text_of(matches, "mode")?.as_bytes())?;
    let steps = steps_in(text_of(matches, "steps"))?;
    let input = text_of(matches, "input").unwrap_or("");
    Some(Command { mode, steps, input })
}

fn text_of<'a>(matches: &ArgMatches<'a>, id: &str) -> Option<&'a str>
    ensures { option_map (λ text. text.now) result ≡ first_of id.now (rows_of (found_of matches.now)) }
{
    matches.get_str(id)
}

fn named_mode(word: &[u8]) -> Option<Mode>
    ensures { result ≡ mode_named word.now }
{
    if word == b"compile".as_slice() {
        Some(Mode::Compile)
    } else if word == b"run".as_slice() {
        Some(Mode::Run)
    } else {
        None
    }
}

fn steps_in(text: Option<&str>) -> Option<u64>
    ensures { result ≡ steps_in (option_map (λ text. text.now) text.entry) }
{
    match text {
        Some(text) => number_in(text, MOST_STEPS),
        None => Some(DEFAULT_STEPS),
    }
}
