//! Scripts of `soak`.

ghost use Rattle.std.specs.Prelude.{◌≡◌, ◌≤◌, IfOk, IfErr, IfSome, Ok, Some, map, length, option_map};
ghost use Rattle.plain_text.specs.Reading.{LONGEST};
ghost use Rattle.script_lines.specs.Lines.{texts, plain_line};
ghost use Rattle.script_lines.specs.Commands.{plain_command};
ghost use Rattle.pool_soak.specs.Scripts.{plain_step, plain_soak, empty, links_at, links_of, on_at, on_of, step_by, step_of, with_step, with_links, added, read, soak_of, IsFaultOf, IsBadAt};

use plain_text::{MOST_BYTES, line_at_limit};
use script_lines::{Command, Line, Offer, ScriptFault, command_in, count, lines_in};
use std::alloc::{AllocError, Global};

/// A step of a script.
#[derive(Drop)]
pub enum Step<'a> {
    /// `on L`: the following steps concern this link.
    On(u32),
    /// `offer P SIG v..`: the environment offers a signal.
    Offer(Offer<'a>),
    /// `tick N`: the clock advances by N ticks.
    Tick(u32),
}

/// A script.
#[derive(Drop)]
pub struct Soak<'a> {
    /// The number of links, 1 to 16, if a line has set it.
    pub links: Option<u32>,
    /// The steps, in order.
    pub steps: Vec<Step<'a>>,
}

/// The number of links that a word and a number set, if the word is `links`.
fn links_at(word: &str, number: u32) -> Option<u32>
    ensures { result ≡ links_at word.now number }
{
    match word {
        "links" if 1 <= number && number <= 16 => Some(number),
        _ => None,
    }
}

/// The number of links that a first line sets, if it is such a line.
pub fn links_in(words: &[&str]) -> Option<u32>
    ensures { result ≡ links_of (texts words.now) }
{
    match words {
        [word, number] => match count(number) {
            Some(number) => links_at(word, number),
            None => None,
        },
        _ => None,
    }
}

/// The step `on L`, if the word and number form one.
fn on_at<'a>(word: &str, number: u32) -> Option<Step<'a>>
    ensures { option_map plain_step result ≡ on_at word.now number }
{
    match word {
        "on" => Some(Step::On(number)),
        _ => None,
    }
}

/// The step `on L`, if the words form one.
fn on_in<'a>(words: &[&str]) -> Option<Step<'a>>
    ensures { option_map plain_step result ≡ on_of (texts words.now) }
{
    match words {
        [word, number] => match count(number) {
            Some(number) => on_at(word, number),
            None => None,
        },
        _ => None,
    }
}

/// The step for a command of a book script, if `soak` has it.
fn step_by(command: Command<'_>) -> Option<Step<'_>>
    ensures { option_map plain_step result ≡ step_by (plain_command command.entry) }
{
    match command {
        Command::Offer(offer) => Some(Step::Offer(offer)),
        Command::Tick(ticks) => Some(Step::Tick(ticks)),
        Command::Flood(_, _)
        | Command::Call(_, _)
        | Command::Env
        | Command::Rest
        | Command::Value(_, _)
        | Command::Expect(_) => None,
    }
}

/// The step that the words of a line form, if they form one.
fn step_in<'a>(alloc: Global, words: &[&'a str]) -> Result<Option<Step<'a>>, AllocError>
    ensures { IfOk result (λ r. option_map plain_step r ≡ step_of (texts words.now)) }
{
    if let Some(step) = on_in(words) {
        return Ok(Some(step));
    }
    match command_in(alloc, words)? {
        Some(command) => Ok(step_by(command)),
        None => Ok(None),
    }
}

/// The script with a number of links; none if it has steps already.
fn with_links<'a>(soak: Soak<'a>, number: u32) -> Option<Soak<'a>>
    ensures { option_map plain_soak result ≡ with_links number (map plain_step soak.entry.steps.items) }
{
    if !soak.steps.is_empty() {
        return None;
    }
    Some(Soak {
        links: Some(number),
        steps: soak.steps,
    })
}

/// The script with one more step; none if there is no step.
fn with_step<'a>(mut soak: Soak<'a>, step: Option<Step<'a>>) -> Result<Option<Soak<'a>>, AllocError>
    ensures { IfOk result (λ r. option_map plain_soak r ≡ with_step (plain_soak soak.entry) (option_map plain_step step.entry)) }
{
    match step {
        Some(step) => {
            soak.steps.push(step)?;
            Ok(Some(soak))
        }
        None => Ok(None),
    }
}

/// The script with a line added; none if the line isn't allowed there.
#[tactic(auto, unfolding(crate::specs::Scripts::added))]
fn added<'a>(
    alloc: Global,
    soak: Soak<'a>,
    words: &[&'a str],
) -> Result<Option<Soak<'a>>, AllocError>
    ensures { IfOk result (λ r. option_map plain_soak r ≡ added (plain_soak soak.entry) (texts words.now)) }
{
    if let Some(number) = links_in(words) {
        return Ok(with_links(soak, number));
    }
    match soak.links {
        Some(_) => {
            let step = step_in(alloc, words)?;
            with_step(soak, step)
        }
        None => Ok(None),
    }
}

/// The script after all lines.
fn all_added<'a>(alloc: Global, lines: &[Line<'a>]) -> Result<Soak<'a>, ScriptFault>
    ensures read { IfOk result (λ s. read empty (map plain_line lines.now) ≡ Ok (plain_soak s)) }
    ensures bad { IfErr result (IsBadAt empty (map plain_line lines.now)) }
{
    let mut soak = Soak {
        links: None,
        steps: Vec::new(alloc),
    };
    for line in lines {
        match added(alloc, soak, &line.words)? {
            Some(more) => soak = more,
            None => return Err(ScriptFault::BadLine(line.number)),
        }
    }
    Ok(soak)
}

/// The script of a text that isn't too long.
fn script_in<'a>(alloc: Global, text: &'a str) -> Result<Soak<'a>, ScriptFault>
    requires { length text.now ≤ LONGEST }
    ensures script { IfOk result (λ s. soak_of text.now ≡ Ok (plain_soak s)) }
    ensures fault { IfErr result (IsFaultOf text.now) }
{
    let lines = lines_in(alloc, text)?;
    match all_added(alloc, &lines) {
        Ok(soak) => match soak.links {
            Some(_) => Ok(soak),
            None => Err(ScriptFault::BadLine(1)),
        },
        Err(fault) => Err(fault),
    }
}

/// Reads a script of `soak`: a first line `links N` with the number of links, 1 to 16 (if repeated at once, the last
/// one counts), then lines `on L`, `offer P SIG v..` and `tick N`. Blank lines and comments may appear anywhere.
///
/// # Errors
///
/// [`ScriptFault::BadLine`] (X1) has the number of the first bad line, or 1 if no line is significant. For a text of
/// more than 262,144 bytes it has the line of the first byte too many. Any call may return [`ScriptFault::NoMemory`]
/// instead.
pub fn soak_script<'a>(alloc: Global, text: &'a str) -> Result<Soak<'a>, ScriptFault>
    ensures script { IfOk result (λ s. soak_of text.now ≡ Ok (plain_soak s)) }
    ensures fault { IfErr result (IsFaultOf text.now) }
{
    if text.len() > MOST_BYTES {
        return Err(ScriptFault::BadLine(line_at_limit(text.as_bytes())));
    }
    script_in(alloc, text)
}
