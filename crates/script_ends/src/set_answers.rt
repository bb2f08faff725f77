//! The line printed for a command.
ghost use Rattle.std.specs.Prelude.{IfOk};
ghost use Rattle.script_links.specs.GroupCommands.{plain_group_command};
ghost use Rattle.script_ends.specs.GroupAnswers.{at, WordAnswers, Answers};

use crate::calls::{admit, bind, fail, hear, rebalance, send, tell, tick};
use crate::lines::{take_line, take_unit};
use crate::retrievals::{abandon, divert, retrieve};
use crate::shown::{held, link_is, state, table, unsure, value};
use link_group::Group;
use script_links::{GroupCommand, GroupWord};
use std::alloc::{AllocError, Global};

/// Obeys a command of one word, and returns its line.
fn word_answer(
    alloc: Global,
    group: &mut Group,
    link: usize,
    word: GroupWord,
) -> Result<Vec<u8>, AllocError>
    ensures { IfOk result (λ v. WordAnswers word (at group.old link) v.items (at group.new link)) }
{
    match word {
        GroupWord::Fail => fail(alloc, group, link),
        GroupWord::Retrieve => retrieve(alloc, group, link),
        GroupWord::Abandon => abandon(alloc, group, link),
        GroupWord::Divert => divert(alloc, group, link),
        GroupWord::Rebalance => rebalance(alloc, group),
        GroupWord::Table => table(alloc, group),
        GroupWord::Held => held(alloc, group, link),
        GroupWord::Unsure => unsure(alloc, group),
        GroupWord::Link => link_is(alloc, group, link),
    }
}

/// Obeys a command other than `out`, `on` and `expect`, and returns its line.
pub(crate) fn answer(
    alloc: Global,
    group: &mut Group,
    link: usize,
    command: &GroupCommand<'_>,
) -> Result<Vec<u8>, AllocError>
    ensures { IfOk result (λ v. Answers (plain_group_command command.now) (at group.old link) v.items (at group.new link)) }
{
    match command {
        GroupCommand::Order(order) => tell(alloc, group, link, *order),
        GroupCommand::Unit(octets) => take_unit(alloc, group, link, octets),
        GroupCommand::Line(octets) => take_line(alloc, group, link, octets),
        GroupCommand::Tick(ticks) => tick(alloc, group, *ticks),
        GroupCommand::State(process) => state(alloc, group, link, process),
        GroupCommand::Value(process, variable) => value(alloc, group, link, process, variable),
        GroupCommand::Send(octets) => send(alloc, group, octets),
        GroupCommand::Bound(octets) => bind(alloc, group, link, octets),
        GroupCommand::Message(octets) => hear(alloc, group, octets),
        GroupCommand::Admit(way) => admit(alloc, group, link, *way),
        GroupCommand::Own(word) => word_answer(alloc, group, link, *word),
        GroupCommand::Out(_) | GroupCommand::On(_) | GroupCommand::Expect(_) => {
            Ok(Vec::new(alloc))
        }
    }
}
