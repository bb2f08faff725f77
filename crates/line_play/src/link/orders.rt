//! The meaning of an order on a line.
ghost use Rattle.std.specs.Prelude.{◌≡◌, ◌∷◌, [], IfOk, option_map, option_and_then};
ghost use Rattle.script_lines.specs.Lines.{texts};
ghost use Rattle.script_links.specs.Orders.{order_of};
ghost use Rattle.script_links.specs.TermCommands.{plain_term_command, term_command_of};
ghost use Rattle.line_play.specs.Commands.{is_on_line, is_question, where_on_line, by_order, line_command_of};

use script_links::{TermCommand, order_in, term_command_in};
use std::alloc::{AllocError, Global};

/// Whether a command affects neither the line nor its time.
fn is_on_line(command: &TermCommand<'_>) -> bool
    ensures { result ≡ is_on_line (plain_term_command command.now) }
{
    match command {
        TermCommand::Order(_)
        | TermCommand::Msu(_)
        | TermCommand::Told
        | TermCommand::Accepted
        | TermCommand::Retrieve(_)
        | TermCommand::Measure(_)
        | TermCommand::Aborted
        | TermCommand::Reset
        | TermCommand::State(_)
        | TermCommand::Value(_, _) => true,
        TermCommand::Unit(_)
        | TermCommand::Units(_, _)
        | TermCommand::Errors(_)
        | TermCommand::Line(_)
        | TermCommand::Out(_)
        | TermCommand::Tick(_)
        | TermCommand::Expect(_) => false,
    }
}

/// Returns whether the answer to a command says more than that it was obeyed.
pub fn is_question(command: &TermCommand<'_>) -> bool
    ensures { result ≡ is_question (plain_term_command command.now) }
{
    match command {
        TermCommand::Told
        | TermCommand::Accepted
        | TermCommand::Retrieve(_)
        | TermCommand::Measure(_)
        | TermCommand::Aborted
        | TermCommand::State(_)
        | TermCommand::Value(_, _) => true,
        TermCommand::Order(_)
        | TermCommand::Reset
        | TermCommand::Msu(_)
        | TermCommand::Unit(_)
        | TermCommand::Units(_, _)
        | TermCommand::Errors(_)
        | TermCommand::Line(_)
        | TermCommand::Out(_)
        | TermCommand::Tick(_)
        | TermCommand::Expect(_) => false,
    }
}

/// The script command that the words form, if it may be given on a line.
fn command_on_line<'a>(
    alloc: Global,
    words: &[&'a str],
) -> Result<Option<TermCommand<'a>>, AllocError>
    ensures { IfOk result (λ r. option_map plain_term_command r ≡ option_and_then where_on_line (term_command_of (texts words.now))) }
{
    match term_command_in(alloc, words)? {
        Some(command) if is_on_line(&command) => Ok(Some(command)),
        _ => Ok(None),
    }
}

/// The script command that a single word forms.
fn word_command<'a>(alloc: Global, word: &'a str) -> Result<Option<TermCommand<'a>>, AllocError>
    ensures { IfOk result (λ r. option_map plain_term_command r
        ≡ by_order (order_of word.now) (option_and_then where_on_line (term_command_of (word.now ∷ [])))) }
{
    match order_in(word) {
        Some(order) => Ok(Some(TermCommand::Order(order))),
        None => command_on_line(alloc, &[word]),
    }
}

/// Returns the command that the words of an order give to a terminal, if they form one.
#[tactic(auto, unfolding(crate::specs::Commands::line_command_of))]
pub fn line_command<'a>(
    alloc: Global,
    words: &[&'a str],
) -> Result<Option<TermCommand<'a>>, AllocError>
    ensures { IfOk result (λ r. option_map plain_term_command r ≡ line_command_of (texts words.now)) }
{
    match words {
        [] => Ok(None),
        [word] => word_command(alloc, word),
        [_, _, ..] => command_on_line(alloc, words),
    }
}
