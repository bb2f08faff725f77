//! Running a link set's script.
ghost use Rattle.std.specs.Prelude.{◌≡◌, ◌⊎◌, ◌++◌, ◌∷◌, [], List, ℕ, Option, map, IfOk, true, false};
ghost use Rattle.script_links.specs.GroupCommands.{plain_group_command};
ghost use Rattle.script_links.specs.GroupScripts.{PlainGroupSaid, plain_group_said};
ghost use Rattle.script_ends.specs.GroupAnswers.{Playing};
ghost use Rattle.script_ends.specs.GroupRuns.{playing_of, last_of, HasObeyed, IsGroupRun, IsGroupMissed, IsGroupMissedBy};

use crate::outputs::give_out;
use crate::set_answers::answer;
use link_group::Group;
use script_book::{DONE, MISSED, Printer, write_line};
use script_links::{GroupCommand, GroupSaid};
use std::alloc::Global;
use std::io::{self, Write};

/// A link set, the current link, and the printer of the lines.
#[derive(Drop)]
pub struct GroupPlayer {
    pub group: Group,
    pub on: usize,
    pub printer: Printer,
}

impl GroupPlayer {
    /// Obeys a command. Returns whether the run goes on: it ends after `failed line N`.
    ///
    /// # Errors
    ///
    /// If a write fails or memory runs out.
    pub fn obey<W: Write>(
        &mut self,
        alloc: Global,
        said: &GroupSaid<'_>,
        writer: &mut W,
    ) -> io::Result<bool>
        ensures goes { IfOk result (λ on. on ≡ true → (p : Playing) (before : List PlainGroupSaid) (first : Option (List ℕ))
            → IsGroupRun p before first (W.contents writer.old) (playing_of self.old) (last_of self.old)
            → IsGroupRun p (before ++ plain_group_said said.now ∷ []) first (W.contents writer.new) (playing_of self.new) (last_of self.new)) }
        ensures obeyed { IfOk result (λ on. on ≡ true → HasObeyed (plain_group_command said.now.command) (W.contents writer.old) (W.contents writer.new)
            (last_of self.old) (last_of self.new) (playing_of self.old) (playing_of self.new)) }
        ensures missed { IfOk result (λ on. on ≡ false
            → IsGroupMissedBy (plain_group_said said.now) (last_of self.old) (W.contents writer.old) (W.contents writer.new)) }
    {
        match &said.command {
            GroupCommand::Expect(text) => {
                if self.printer.has_printed(text) {
                    return Ok(true);
                }
                let line = said.line;
                write_line(alloc, writer, &format_args!("failed line {line}"))?;
                Ok(false)
            }
            GroupCommand::On(link) => {
                self.on = *link as usize;
                Ok(true)
            }
            GroupCommand::Out(units) => {
                give_out(
                    alloc,
                    &mut self.group,
                    self.on,
                    *units,
                    &mut self.printer,
                    writer,
                )?;
                Ok(true)
            }
            command => {
                let line = answer(alloc, &mut self.group, self.on, command)?;
                self.printer.print(line, writer)?;
                Ok(true)
            }
        }
    }

    /// Obeys the commands in order, up to an expectation that fails. Returns the exit status: 0, or 1 if one failed.
    ///
    /// # Errors
    ///
    /// If a write fails or memory runs out.
    pub(crate) fn run<W: Write>(
        &mut self,
        alloc: Global,
        commands: &[GroupSaid<'_>],
        writer: &mut W,
    ) -> io::Result<u8>
        ensures held { IfOk result (λ status. status ≡ 0 → (p : Playing) (before : List PlainGroupSaid) (first : Option (List ℕ))
            → IsGroupRun p before first (W.contents writer.old) (playing_of self.old) (last_of self.old)
            → IsGroupRun p (before ++ map plain_group_said commands.now) first (W.contents writer.new) (playing_of self.new) (last_of self.new)) }
        ensures missed { IfOk result (λ status. status ≡ 1 → (p : Playing) (before : List PlainGroupSaid) (first : Option (List ℕ))
            → IsGroupRun p before first (W.contents writer.old) (playing_of self.old) (last_of self.old)
            → IsGroupMissed (before ++ map plain_group_said commands.now) first (W.contents writer.new) p) }
        ensures status { IfOk result (λ status. (status ≡ 0) ⊎ (status ≡ 1)) }
    {
        for said in commands {
            if !self.obey(alloc, said, writer)? {
                return Ok(MISSED);
            }
        }
        Ok(DONE)
    }
}
