//! Commands of positionals, options and flags, and what clap gives of the words.

ghost use Rattle.std.specs.Prelude.{◌≡◌, true, false, map, option_map, string_bytes};
ghost use Rattle.clap.specs.Words.{app_of, first_of, found_of, is_simple_and_free, rows_of, rule_of};
ghost use Rattle.graph_model.specs.Refusals.{Gives, mapped};
ghost use Rattle.command_words.specs.Commands.{flag, has_flag, option, positional, rows_in, taken, wanted};

use crate::fault::WordsFault;
use clap::error::ErrorKind;
use clap::{Arg, ArgAction, ArgMatches, Command};
use graph_model::Refused;
use std::alloc::Global;

/// A value that is wanted, and that stands in the order of such.
pub(crate) fn positional<'a>(alloc: Global, name: &'a str) -> Arg<'a>
    ensures rule { rule_of result ≡ positional name.entry.now }
    ensures local { result.global ≡ false }
{
    Arg::new(alloc, name).required(true)
}

/// `--NAME VALUE`, at most once.
pub(crate) fn option<'a>(alloc: Global, name: &'a str) -> Arg<'a>
    ensures rule { rule_of result ≡ option name.entry.now }
    ensures local { result.global ≡ false }
{
    Arg::new(alloc, name).long(name)
}

/// `--NAME`, at most once.
pub(crate) fn flag<'a>(alloc: Global, name: &'a str) -> Arg<'a>
    ensures rule { rule_of result ≡ flag name.entry.now }
    ensures local { result.global ≡ false }
{
    Arg::new(alloc, name).long(name).action(ArgAction::SetTrue)
}

/// What clap reads of the words, which are no request where it refuses them.
pub(crate) fn taken<'a>(
    command: Command<'a>,
    words: &'a [String],
) -> Result<ArgMatches<'a>, Refused<WordsFault>>
    requires { is_simple_and_free (app_of command) ≡ true }
    ensures { Gives (taken (app_of command.entry) (map string_bytes words.entry.now)) (mapped rows_in result) }
{
    match command.try_get_matches_from(words) {
        Ok(matches) => Ok(matches),
        Err(error) => match error.kind() {
            ErrorKind::OutOfMemory => Err(Refused::Memory),
            _ => Err(Refused::Fault(WordsFault::NoRequest)),
        },
    }
}

/// The value of an argument, if it was given.
pub(crate) fn value<'a>(matches: &ArgMatches<'a>, name: &str) -> Option<&'a str>
    ensures { option_map (λ s. s.now) result ≡ first_of name.now (rows_of (found_of matches.now)) }
{
    matches.get_str(name)
}

/// The value of an argument without which the words are no request.
pub(crate) fn wanted<'a>(matches: &ArgMatches<'a>, name: &str) -> Result<&'a str, WordsFault>
    ensures { mapped (λ s. s.now) result ≡ wanted name.now (rows_of (found_of matches.now)) }
{
    value(matches, name).ok_or(WordsFault::NoRequest)
}

/// Whether a flag was given.
pub(crate) fn is_given(matches: &ArgMatches<'_>, name: &str) -> bool
    ensures { result ≡ has_flag name.now (rows_of (found_of matches.now)) }
{
    match value(matches, name) {
        Some(text) => text == "true",
        None => false,
    }
}
