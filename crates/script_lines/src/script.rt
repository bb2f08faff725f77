//! Book scripts.
ghost use Rattle.std.specs.Prelude.{◌≡◌, ◌≤◌, ◌+◌, IfOk, IfErr, Ok, Err, map, is_none, find, take, count_by, ◌==◌, length};
ghost use Rattle.std.specs.List.{filter_map};
ghost use Rattle.plain_text.specs.Reading.{LONGEST};
ghost use Rattle.script_lines.specs.Lines.{plain_line, line_at};
ghost use Rattle.script_lines.specs.Scripts.{plain_said, plain_script, is_bad, said_of, script_of, AreInRange, IsFaultOf, IsBadLine};

use crate::commands::{Command, command_in};
use crate::lines::{Line, lines_in};
use crate::settings::{Settings, head_of};
use plain_text::{MOST_BYTES, line_at_limit};
use std::alloc::{AllocError, Global};
use std::fmt;
use thiserror::Error;

/// A command and the number of its line.
#[derive(Drop)]
pub struct Said<'a> {
    /// The number of its line, from 1.
    pub line: usize,
    /// The command.
    pub command: Command<'a>,
}

/// A book script.
#[derive(Drop)]
pub struct Script<'a> {
    /// The numbers that its first lines set.
    pub settings: Settings,
    /// Its commands, in order.
    pub commands: Vec<Said<'a>>,
}

/// Why a text isn't a script.
#[derive(Clone, Copy, Debug, Drop, Error, PartialEq, Eq)]
pub enum ScriptFault {
    /// The first line that is neither blank, a comment, a first line nor a command. For a text that is too long it is
    /// the line of the first byte beyond the limit.
    BadLine(usize),
    /// There was not enough memory.
    NoMemory,
}

impl fmt::Display for ScriptFault {
    ghost use Rattle.std.specs.Prelude.{Some};
    ghost use Rattle.script_lines.specs.Printed.{script_fault_text};

    ghost output = { λ e. Some (script_fault_text e) };

    fn fmt<W: fmt::Write>(&self, f: &mut fmt::Formatter<W>) -> fmt::Result {
        match self {
            Self::BadLine(line) => write!(f, "X1 BadLine line {line}"),
            Self::NoMemory => f.write_str("out of memory"),
        }
    }
}

impl From<AllocError> for ScriptFault {
    ghost use Rattle.script_lines.specs.declared.script.ScriptFault.TheVariants as fault;

    ghost from_gives = { λ _ e. e ≡ fault.NoMemory };

    fn from(_: AllocError) -> Self {
        ScriptFault::NoMemory
    }
}

/// The commands that the lines mean.
fn commands_in<'a>(alloc: Global, lines: &[Line<'a>]) -> Result<Vec<Said<'a>>, ScriptFault>
    ensures good { IfOk result (λ v. find is_bad (map plain_line lines.now) ≡ None) }
    ensures commands { IfOk result (λ v. map plain_said v.items ≡ filter_map said_of (map plain_line lines.now)) }
    ensures bad { IfErr result (IsBadLine (map plain_line lines.now)) }
{
    let mut commands = Vec::new(alloc);
    for line in lines {
        match command_in(alloc, &line.words)? {
            Some(command) => commands
                .push(Said {
                    line: line.number,
                    command,
                })
                .map_err(AllocError::from)?,
            None => return Err(ScriptFault::BadLine(line.number)),
        }
    }
    Ok(commands)
}

/// The script of a text that isn't too long.
fn script_in<'a>(alloc: Global, text: &'a str) -> Result<Script<'a>, ScriptFault>
    requires { length text.now ≤ LONGEST }
    ensures script { IfOk result (λ s. script_of text.now ≡ Ok (plain_script s)) }
    ensures fault { IfErr result (IsFaultOf text.now) }
{
    let lines = lines_in(alloc, text)?;
    let (settings, first) = head_of(&lines);
    match commands_in(alloc, &lines[first..]) {
        Ok(commands) => Ok(Script { settings, commands }),
        Err(fault) => Err(fault),
    }
}

/// Reads a book script: first lines `ports N`, `env N`, `journal N` in any order, then commands. Blank lines and
/// comments may stand anywhere.
///
/// # Errors
///
/// [`ScriptFault::BadLine`] (X1) with the number of the first line that is none of these. For a text of more than
/// 262,144 bytes it has the line of the first byte beyond that limit, before any line is read.
/// [`ScriptFault::NoMemory`] if memory runs out.
pub fn book_script<'a>(alloc: Global, text: &'a str) -> Result<Script<'a>, ScriptFault>
    ensures script { IfOk result (λ s. script_of text.now ≡ Ok (plain_script s)) }
    ensures within { IfOk result (λ s. AreInRange s.settings) }
    ensures fault { IfErr result (IsFaultOf text.now) }
{
    if text.len() > MOST_BYTES {
        return Err(ScriptFault::BadLine(line_at_limit(text.as_bytes())));
    }
    script_in(alloc, text)
}
