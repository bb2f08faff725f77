//! Orders to a link set, as they are written.
ghost use Rattle.std.specs.Prelude.{◌≡◌, IfOk, option_map, option_and_then, string_bytes};
ghost use Rattle.script_lines.specs.Lines.{texts};
ghost use Rattle.script_links.specs.Octets.{octets_of};
ghost use Rattle.script_links.specs.Orders.{order_of};
ghost use Rattle.script_links.specs.TermCommands.{plain_term_command};
ghost use Rattle.line_play.specs.SetOrders.{plain_set_order, on, links as to_links, alone_of, focus_of, question_of, asked_of, pair_of, other_order_of, sent_word as word_sent, send_of, leave_of, set_order_of, state, value};

use script_ends::Measure;
use script_lines::count;
use script_links::{Order, TermCommand, octets_in, order_in, term_command_in};
use std::alloc::{AllocError, Global};

/// The smallest number of octets of a message: service information octet and routing label.
const LEAST: usize = 5;

/// The largest number of octets of a message.
const MOST: usize = 273;

/// The links addressed by orders that name none.
#[derive(Clone, Copy, Debug, PartialEq, Eq)]
pub enum Focus {
    /// None, because an `on` was refused.
    Nothing,
    /// One link.
    Link(usize),
    /// All links.
    All,
}

/// An order to a link set.
#[derive(Drop)]
pub enum SetOrder {
    /// `on L` and `on all`: the following orders address these links.
    On(Focus),
    /// An order to links.
    Link(Order),
    /// `state P`.
    State(String),
    /// `value P x`.
    Value(String, String),
    /// `measure NAME`: a count.
    Measure(Measure),
    /// `measure aborted_periods`: the number of aborted proving periods.
    Aborted,
    /// `measure`: all counts.
    Measures,
    /// `measure reset`: all counts are reset.
    Reset,
    /// `send HEX`: a message, its service information octet first, 5 to 273 octets.
    Send(Vec<u8>),
    /// `table`: the link for each SLS value.
    Table,
    /// `held`: the number of messages that each link holds.
    Held,
    /// `unsure`: the number of messages that may or may not have arrived.
    Unsure,
    /// `rebalance`: the SLS values are shared out again, unless the link set refuses.
    Rebalance,
    /// `reopen`: the file of reports is opened again.
    Reopen,
    /// `quit`: the run ends.
    Quit,
    /// `leave`, `leave SECONDS`: no message is taken any more, links are stopped once they hold none, and the run ends.
    Leave(Option<u32>),
}

/// `on L`, `on all`.
fn focus_in(word: &str) -> Option<Focus>
    ensures { result ≡ focus_of word.now }
{
    if word == "all" {
        return Some(Focus::All);
    }
    match count(word) {
        Some(link) => Some(Focus::Link(link as usize)),
        None => None,
    }
}

/// An order to links.
fn link_order(word: &str) -> Option<SetOrder>
    ensures { option_map plain_set_order result ≡ option_map to_links (order_of word.now) }
{
    match order_in(word) {
        Some(order) => Some(SetOrder::Link(order)),
        None => None,
    }
}

/// An order that is a single word.
fn word_in(word: &str) -> Option<SetOrder>
    ensures { option_map plain_set_order result ≡ alone_of word.now }
{
    match word {
        "measure" => Some(SetOrder::Measures),
        "table" => Some(SetOrder::Table),
        "held" => Some(SetOrder::Held),
        "unsure" => Some(SetOrder::Unsure),
        "rebalance" => Some(SetOrder::Rebalance),
        "reopen" => Some(SetOrder::Reopen),
        "quit" => Some(SetOrder::Quit),
        "leave" => Some(SetOrder::Leave(None)),
        _ => link_order(word),
    }
}

/// An order to send these octets, if they are a message.
fn sent(octets: Vec<u8>) -> Option<SetOrder>
    ensures { option_map plain_set_order result ≡ send_of octets.items }
{
    if octets.len() < LEAST {
        return None;
    }
    if octets.len() > MOST {
        return None;
    }
    Some(SetOrder::Send(octets))
}

/// `send HEX`.
fn send_in(alloc: Global, word: &str) -> Result<Option<SetOrder>, AllocError>
    ensures { IfOk result (λ o. option_map plain_set_order o ≡ option_and_then send_of (octets_of word.now)) }
{
    match octets_in(alloc, word)? {
        Some(octets) => Ok(sent(octets)),
        None => Ok(None),
    }
}

/// A copy of a name.
pub(crate) fn owned(alloc: Global, name: &str) -> Result<String, AllocError>
    ensures { IfOk result (λ s. string_bytes s ≡ name.now) }
{
    let mut text = String::new(alloc);
    text.push_str(name)?;
    Ok(text)
}

/// `state P`.
fn state_of(alloc: Global, process: &str) -> Result<SetOrder, AllocError>
    ensures { IfOk result (λ o. plain_set_order o ≡ state process.now) }
{
    let process = owned(alloc, process)?;
    Ok(SetOrder::State(process))
}

/// `value P x`.
fn value_of(alloc: Global, process: &str, variable: &str) -> Result<SetOrder, AllocError>
    ensures { IfOk result (λ o. plain_set_order o ≡ value process.now variable.now) }
{
    let process = owned(alloc, process)?;
    let variable = owned(alloc, variable)?;
    Ok(SetOrder::Value(process, variable))
}

/// The question that a script command for a terminal asks of links, if it is one.
fn question(alloc: Global, command: &TermCommand<'_>) -> Result<Option<SetOrder>, AllocError>
    ensures { IfOk result (λ o. option_map plain_set_order o ≡ question_of (plain_term_command command.now)) }
{
    match command {
        TermCommand::State(process) => {
            let order = state_of(alloc, process)?;
            Ok(Some(order))
        }
        TermCommand::Value(process, variable) => {
            let order = value_of(alloc, process, variable)?;
            Ok(Some(order))
        }
        TermCommand::Measure(measure) => Ok(Some(SetOrder::Measure(*measure))),
        TermCommand::Aborted => Ok(Some(SetOrder::Aborted)),
        TermCommand::Reset => Ok(Some(SetOrder::Reset)),
        TermCommand::Order(_)
        | TermCommand::Unit(_)
        | TermCommand::Units(_, _)
        | TermCommand::Errors(_)
        | TermCommand::Line(_)
        | TermCommand::Msu(_)
        | TermCommand::Out(_)
        | TermCommand::Tick(_)
        | TermCommand::Told
        | TermCommand::Accepted
        | TermCommand::Retrieve(_)
        | TermCommand::Expect(_) => Ok(None),
    }
}

/// The question that these words ask of links: about their actors, or about measurements.
fn asked_in(alloc: Global, words: &[&str]) -> Result<Option<SetOrder>, AllocError>
    ensures { IfOk result (λ o. option_map plain_set_order o ≡ asked_of (texts words.now)) }
{
    match term_command_in(alloc, words)? {
        Some(command) => question(alloc, &command),
        None => Ok(None),
    }
}

/// The word after `send`, if no other word follows.
fn sent_word<'a>(words: &[&'a str]) -> Option<&'a str>
    ensures { word_sent (texts words.now) ≡ option_map (λ w. w.now) result }
{
    match words {
        [first, word] => { if *first == "send" { Some(*word) } else { None } }
        _ => None,
    }
}

/// The order for the word after `on`.
fn on_in(word: &str) -> Option<SetOrder>
    ensures { option_map plain_set_order result ≡ option_map on (focus_of word.now) }
{
    match focus_in(word) {
        Some(focus) => Some(SetOrder::On(focus)),
        None => None,
    }
}

/// The meaning of the word after `leave`.
fn leave_in(word: &str) -> Option<SetOrder>
    ensures { option_map plain_set_order result ≡ leave_of word.now }
{
    match count(word) {
        Some(seconds) => Some(SetOrder::Leave(Some(seconds))),
        None => None,
    }
}

/// The meaning of two words of which the first isn't `send`: `on L`, `on all`, `leave SECONDS`, or a question about
/// links.
fn pair_in(alloc: Global, first: &str, word: &str) -> Result<Option<SetOrder>, AllocError>
    ensures { IfOk result (λ o. option_map plain_set_order o ≡ pair_of first.now word.now) }
{
    if first == "on" {
        return Ok(on_in(word));
    }
    if first == "leave" {
        return Ok(leave_in(word));
    }
    asked_in(alloc, &[first, word])
}

/// An order other than `send`.
fn other_in(alloc: Global, words: &[&str]) -> Result<Option<SetOrder>, AllocError>
    ensures { IfOk result (λ o. option_map plain_set_order o ≡ other_order_of (texts words.now)) }
{
    match words {
        [] => Ok(None),
        [word] => Ok(word_in(word)),
        [first, word] => pair_in(alloc, first, word),
        [_, _, _, ..] => asked_in(alloc, words),
    }
}

/// The order that words mean, if any.
pub(crate) fn set_order_in(alloc: Global, words: &[&str]) -> Result<Option<SetOrder>, AllocError>
    ensures { IfOk result (λ o. option_map plain_set_order o ≡ set_order_of (texts words.now)) }
{
    match sent_word(words) {
        Some(word) => send_in(alloc, word),
        None => other_in(alloc, words),
    }
}
