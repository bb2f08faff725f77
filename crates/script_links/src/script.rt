//! Scripts for a book or for a terminal.
ghost use Rattle.std.specs.Prelude.{◌≡◌, ◌≤◌, IfOk, IfErr, Ok, map, find, None, length};
ghost use Rattle.std.specs.List.{filter_map};
ghost use Rattle.script_lines.specs.Lines.{plain_line, lines_of};
ghost use Rattle.script_lines.specs.Scripts.{script_of};
ghost use Rattle.script_links.specs.TermScripts.{plain_term_said, plain_any_script, is_bad_term, term_said_of, as_book, term_by, any_in, any_script_of, IsInRange, Tells, IsBadTermLine};

use crate::commands::{TermCommand, term_command_in};
use crate::heads::{TermHead, term_head_in};
use plain_text::{MOST_BYTES, line_at_limit};
use script_lines::{Line, Script, ScriptFault, book_script, lines_in};
use std::alloc::{AllocError, Global};

/// A command and the number of its line.
#[derive(Drop)]
pub struct TermSaid<'a> {
    /// The number of its line, from 1.
    pub line: usize,
    /// The command.
    pub command: TermCommand<'a>,
}

/// A terminal's script.
#[derive(Drop)]
pub struct TermScript<'a> {
    /// The settings of the terminal, from its first line.
    pub head: TermHead,
    /// Its commands, in order.
    pub commands: Vec<TermSaid<'a>>,
}

/// A script for a book or for a terminal.
#[derive(Drop)]
pub enum AnyScript<'a> {
    /// A script for the actors of a link.
    Book(Script<'a>),
    /// A script for a terminal.
    Terminal(TermScript<'a>),
}

/// The commands that the lines mean.
fn commands_in<'a>(alloc: Global, lines: &[Line<'a>]) -> Result<Vec<TermSaid<'a>>, ScriptFault>
    ensures good { IfOk result (λ v. find is_bad_term (map plain_line lines.now) ≡ None) }
    ensures commands { IfOk result (λ v. map plain_term_said v.items ≡ filter_map term_said_of (map plain_line lines.now)) }
    ensures bad { IfErr result (IsBadTermLine (map plain_line lines.now)) }
{
    let mut commands = Vec::new(alloc);
    for line in lines {
        match term_command_in(alloc, &line.words)? {
            Some(command) => commands
                .push(TermSaid {
                    line: line.number,
                    command,
                })
                .map_err(AllocError::from)?,
            None => return Err(ScriptFault::BadLine(line.number)),
        }
    }
    Ok(commands)
}

/// Reads a script. It is a terminal's if its first line, not counting blanks and comments, is `terminal basic`,
/// `terminal cyclic` or `terminal cyclic N1 N2` (N1 from 1 to 127, N2 from 300 to 8,192); else it is a book's.
///
/// # Errors
///
/// [`ScriptFault::BadLine`] (X1) with the number of the first line that doesn't belong to a script of that kind. For a
/// text of more than 262,144 bytes it has the line of the first byte beyond that limit, before any line is read.
/// [`ScriptFault::NoMemory`] if memory runs out.
pub fn any_script<'a>(alloc: Global, text: &'a str) -> Result<AnyScript<'a>, ScriptFault>
    ensures script { IfOk result (λ s. any_script_of text.now ≡ Ok (plain_any_script s)) }
    ensures within { IfOk result IsInRange }
    ensures fault { IfErr result (Tells (any_script_of text.now)) }
{
    if text.len() > MOST_BYTES {
        return Err(ScriptFault::BadLine(line_at_limit(text.as_bytes())));
    }
    script_in(alloc, text)
}

/// The script of a text that isn't too long.
fn script_in<'a>(alloc: Global, text: &'a str) -> Result<AnyScript<'a>, ScriptFault>
    ensures script { IfOk result (λ s. any_in (lines_of text.now) (script_of text.now) ≡ Ok (plain_any_script s)) }
    ensures within { IfOk result IsInRange }
    ensures fault { IfErr result (Tells (any_in (lines_of text.now) (script_of text.now))) }
{
    let lines = lines_in(alloc, text)?;
    script_by(alloc, text, &lines)
}

/// The script of a text that has these lines.
fn script_by<'a>(
    alloc: Global,
    text: &'a str,
    lines: &[Line<'a>],
) -> Result<AnyScript<'a>, ScriptFault>
    ensures script { IfOk result (λ s. any_in (map plain_line lines.now) (script_of text.now) ≡ Ok (plain_any_script s)) }
    ensures within { IfOk result IsInRange }
    ensures fault { IfErr result (Tells (any_in (map plain_line lines.now) (script_of text.now))) }
{
    match lines {
        [first, more @ ..] => match term_head_in(&first.words) {
            Some(head) => terminal(alloc, head, more),
            None => book(alloc, text),
        },
        [] => book(alloc, text),
    }
}

/// The terminal's script of the lines after the first one.
fn terminal<'a>(
    alloc: Global,
    head: TermHead,
    lines: &[Line<'a>],
) -> Result<AnyScript<'a>, ScriptFault>
    ensures script { IfOk result (λ s. term_by head (map plain_line lines.now) (find is_bad_term (map plain_line lines.now)) ≡ Ok (plain_any_script s)) }
    ensures within { IfOk result IsInRange }
    ensures fault { IfErr result (Tells (term_by head (map plain_line lines.now) (find is_bad_term (map plain_line lines.now)))) }
{
    match commands_in(alloc, lines) {
        Ok(commands) => Ok(AnyScript::Terminal(TermScript { head, commands })),
        Err(fault) => Err(fault),
    }
}

/// The book script of a text.
fn book<'a>(alloc: Global, text: &'a str) -> Result<AnyScript<'a>, ScriptFault>
    ensures script { IfOk result (λ s. as_book (script_of text.now) ≡ Ok (plain_any_script s)) }
    ensures within { IfOk result IsInRange }
    ensures fault { IfErr result (Tells (as_book (script_of text.now))) }
{
    match book_script(alloc, text) {
        Ok(script) => Ok(AnyScript::Book(script)),
        Err(fault) => Err(fault),
    }
}
