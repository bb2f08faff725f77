//! The words and options of a command.
ghost use Rattle.std.specs.Prelude.{◌≡◌, false};
ghost use Rattle.clap.specs.Words.{rule_of, new_app, new_rule};
ghost use Rattle.mtp2_words.specs.Commands.{plain_word, option_word, flag_word, IsCommand};

use clap::{Arg, ArgAction, Command};
use std::alloc::Global;

/// A command without words, with the help text before and after them.
pub(crate) fn bare_command<'a>(
    alloc: Global,
    name: &'a str,
    about: &'a str,
    after: &'a str,
) -> Command<'a>
    ensures { IsCommand (new_app name.entry.now) result }
{
    Command::new(alloc, name).about(about).after_help(after)
}

/// A required word.
pub(crate) fn plain_word<'a>(alloc: Global, id: &'a str, help: &'a str) -> Arg<'a>
    ensures rule { rule_of result ≡ plain_word id.entry.now }
    ensures local { result.global ≡ false }
{
    Arg::new(alloc, id).help(help).required(true)
}

/// An option with a word after it.
pub(crate) fn option_word<'a>(
    alloc: Global,
    name: &'a str,
    value: &'a str,
    help: &'a str,
) -> Arg<'a>
    ensures rule { rule_of result ≡ option_word name.entry.now }
    ensures local { result.global ≡ false }
{
    Arg::new(alloc, name)
        .long(name)
        .value_name(value)
        .help(help)
}

/// An optional word.
pub(crate) fn optional_word<'a>(alloc: Global, id: &'a str, help: &'a str) -> Arg<'a>
    ensures rule { rule_of result ≡ new_rule id.entry.now }
    ensures local { result.global ≡ false }
{
    Arg::new(alloc, id).help(help)
}

/// An option without a word.
pub(crate) fn flag_word<'a>(alloc: Global, name: &'a str, help: &'a str) -> Arg<'a>
    ensures rule { rule_of result ≡ flag_word name.entry.now }
    ensures local { result.global ≡ false }
{
    Arg::new(alloc, name)
        .long(name)
        .action(ArgAction::SetTrue)
        .help(help)
}
