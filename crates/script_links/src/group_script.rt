//! Scripts of any kind for `play`.
ghost use Rattle.std.specs.Prelude.{◌≡◌, ◌≤◌, IfOk, IfErr, Ok, map, find, None, length};
ghost use Rattle.std.specs.List.{filter_map};
ghost use Rattle.script_lines.specs.Lines.{plain_line, lines_of};
ghost use Rattle.script_links.specs.TermScripts.{any_script_of};
ghost use Rattle.script_links.specs.Heads.{MOST_LINKS};
ghost use Rattle.script_links.specs.GroupScripts.{plain_group_said, plain_play_script, is_bad_group, group_said_of, as_other, group_by, play_in, play_script_of, IsFit, Tells, IsBadGroupLine};

use crate::group_commands::{GroupCommand, group_command_in};
use crate::heads::{GroupHead, head_in};
use crate::script::{AnyScript, any_script};
use plain_text::{MOST_BYTES, line_at_limit};
use script_lines::{Line, ScriptFault, lines_in};
use std::alloc::{AllocError, Global};

/// A command and the number of its line.
#[derive(Drop)]
pub struct GroupSaid<'a> {
    /// The number of its line, from 1.
    pub line: usize,
    /// The command.
    pub command: GroupCommand<'a>,
}

/// A link set's script.
#[derive(Drop)]
pub struct GroupScript<'a> {
    /// The error correction and the number of links, from its first line.
    pub head: GroupHead,
    /// Its commands, in order.
    pub commands: Vec<GroupSaid<'a>>,
}

/// A script of any kind.
#[derive(Drop)]
pub enum PlayScript<'a> {
    /// A script for the actors of a link, or for a terminal.
    Other(AnyScript<'a>),
    /// A script for a set of links.
    Group(GroupScript<'a>),
}

/// The commands that the lines mean.
fn commands_in<'a>(alloc: Global, lines: &[Line<'a>]) -> Result<Vec<GroupSaid<'a>>, ScriptFault>
    ensures good { IfOk result (λ v. find is_bad_group (map plain_line lines.now) ≡ None) }
    ensures commands { IfOk result (λ v. map plain_group_said v.items ≡ filter_map group_said_of (map plain_line lines.now)) }
    ensures bad { IfErr result (IsBadGroupLine (map plain_line lines.now)) }
{
    let mut commands = Vec::new(alloc);
    for line in lines {
        match group_command_in(alloc, &line.words)? {
            Some(command) => commands
                .push(GroupSaid {
                    line: line.number,
                    command,
                })
                .map_err(AllocError::from)?,
            None => return Err(ScriptFault::BadLine(line.number)),
        }
    }
    Ok(commands)
}

/// Reads a script. It is a link set's if its first line, not counting blanks and comments, is `group basic N` or `group
/// cyclic N` with N from 1 to 16; else it is a terminal's or a book's ([`any_script`]).
///
/// # Errors
///
/// [`ScriptFault::BadLine`] (X1) with the number of the first line that doesn't belong to a script of that kind. For a
/// text of more than 262,144 bytes it has the line of the first byte beyond that limit, before any line is read.
/// [`ScriptFault::NoMemory`] if memory runs out.
pub fn play_script_in<'a>(alloc: Global, text: &'a str) -> Result<PlayScript<'a>, ScriptFault>
    ensures script { IfOk result (λ s. play_script_of text.now ≡ Ok (plain_play_script s)) }
    ensures fit { IfOk result IsFit }
    ensures fault { IfErr result (Tells (play_script_of text.now)) }
{
    if text.len() > MOST_BYTES {
        return Err(ScriptFault::BadLine(line_at_limit(text.as_bytes())));
    }
    script_in(alloc, text)
}

/// The script of a text that isn't too long.
fn script_in<'a>(alloc: Global, text: &'a str) -> Result<PlayScript<'a>, ScriptFault>
    ensures script { IfOk result (λ s. play_in (lines_of text.now) (any_script_of text.now) ≡ Ok (plain_play_script s)) }
    ensures fit { IfOk result IsFit }
    ensures fault { IfErr result (Tells (play_in (lines_of text.now) (any_script_of text.now))) }
{
    let lines = lines_in(alloc, text)?;
    script_by(alloc, text, &lines)
}

/// The script of a text that has these lines.
fn script_by<'a>(
    alloc: Global,
    text: &'a str,
    lines: &[Line<'a>],
) -> Result<PlayScript<'a>, ScriptFault>
    ensures script { IfOk result (λ s. play_in (map plain_line lines.now) (any_script_of text.now) ≡ Ok (plain_play_script s)) }
    ensures fit { IfOk result IsFit }
    ensures fault { IfErr result (Tells (play_in (map plain_line lines.now) (any_script_of text.now))) }
{
    match lines {
        [first, more @ ..] => match head_in(&first.words) {
            Some(head) => group(alloc, head, more),
            None => other(alloc, text),
        },
        [] => other(alloc, text),
    }
}

/// The link set's script of the lines after the first one.
fn group<'a>(
    alloc: Global,
    head: GroupHead,
    lines: &[Line<'a>],
) -> Result<PlayScript<'a>, ScriptFault>
    requires some { 1 ≤ head.links }
    requires few { head.links ≤ MOST_LINKS }
    ensures script { IfOk result (λ s. group_by head (map plain_line lines.now) (find is_bad_group (map plain_line lines.now)) ≡ Ok (plain_play_script s)) }
    ensures fit { IfOk result IsFit }
    ensures fault { IfErr result (Tells (group_by head (map plain_line lines.now) (find is_bad_group (map plain_line lines.now)))) }
{
    match commands_in(alloc, lines) {
        Ok(commands) => Ok(PlayScript::Group(GroupScript { head, commands })),
        Err(fault) => Err(fault),
    }
}

/// The terminal's or book's script of a text.
fn other<'a>(alloc: Global, text: &'a str) -> Result<PlayScript<'a>, ScriptFault>
    ensures script { IfOk result (λ s. as_other (any_script_of text.now) ≡ Ok (plain_play_script s)) }
    ensures fit { IfOk result IsFit }
    ensures fault { IfErr result (Tells (as_other (any_script_of text.now))) }
{
    match any_script(alloc, text) {
        Ok(script) => Ok(PlayScript::Other(script)),
        Err(fault) => Err(fault),
    }
}
