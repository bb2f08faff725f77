//! Running a terminal's script.
ghost use Rattle.std.specs.Prelude.{◌≡◌, ◌⊎◌, ◌++◌, ◌∷◌, [], List, ℕ, Option, map, is_some, None, OnOk, IfOk, true, false};
ghost use Rattle.std.specs.List.{list_any};
ghost use Rattle.link_term.specs.Term.{Term};
ghost use Rattle.script_links.specs.TermCommands.{plain_term_command};
ghost use Rattle.script_links.specs.TermScripts.{PlainTermSaid, plain_term_said, is_told, asks_told};
ghost use Rattle.script_ends.specs.TermAnswers.{next_of, behind_next, unit_line};
ghost use Rattle.script_ends.specs.TermRuns.{last_of, HasPrinted, HasObeyed, HasGivenOut, IsTermRun, IsTermWritten, IsTermMissed, IsTermFailed, IsTermMissedBy, IsOfNew, PrintsLacking, LacksName};

use crate::answers::answer;
use link_term::{OpenError, Terminal};
use resend_store::RoundLimits;
use script_book::{DONE, FAILED, MISSED, Printer, refuse, text_line, write_line};
use script_links::{TermCommand, TermSaid, TermScript};
use std::alloc::Global;
use std::io::{self, Write};
use turn_check::Verified;

/// A terminal, and the printer of its lines.
#[derive(Drop)]
pub struct TermPlayer {
    pub terminal: Terminal,
    pub printer: Printer,
}

impl TermPlayer {
    /// Prints the next unit or `silent`, and clears the buffers if the text requested it. Whether a unit was sent.
    fn print_unit<W: Write>(&mut self, alloc: Global, writer: &mut W) -> io::Result<bool>
        ensures unit { IfOk result (λ on. on ≡ is_some (next_of self.old.terminal).unit) }
        ensures goes { OnOk result (self.new.terminal ≡ behind_next self.old.terminal) }
        ensures printed { OnOk result (HasPrinted (W.contents writer.old) (W.contents writer.new) (last_of self.old) (last_of self.new)
            (unit_line (next_of self.old.terminal).unit ∷ [])) }
    {
        let given = self.terminal.unit_out()?;
        let _cleared = self.terminal.obey_clear();
        match given {
            Some(unit) => {
                let line = text_line(alloc, &unit)?;
                self.printer.print(line, writer)?;
                Ok(true)
            }
            None => {
                let line = Vec::from_slice(alloc, b"silent")?;
                self.printer.print(line, writer)?;
                Ok(false)
            }
        }
    }

    /// Prints the next `units` units sent; if there is none, one line `silent`, which is the last.
    fn print_units<W: Write>(&mut self, alloc: Global, units: u32, writer: &mut W) -> io::Result<()>
        ensures { OnOk result (HasGivenOut units (W.contents writer.old) (W.contents writer.new) (last_of self.old) (last_of self.new)
            self.old.terminal self.new.terminal) }
    {
        for gone in 0..units {
            if !self.print_unit(alloc, writer)? {
                return Ok(());
            }
        }
        Ok(())
    }

    /// Obeys a command; `keeps`: reports are kept. Returns whether the run goes on: it ends after `failed line N`.
    ///
    /// # Errors
    ///
    /// If a write fails or memory runs out.
    pub fn obey<W: Write>(
        &mut self,
        alloc: Global,
        said: &TermSaid<'_>,
        keeps: bool,
        writer: &mut W,
    ) -> io::Result<bool>
        ensures goes { IfOk result (λ on. on ≡ true → (t : Term) (before : List PlainTermSaid) (first : Option (List ℕ))
            → IsTermRun keeps t before first (W.contents writer.old) self.old.terminal (last_of self.old)
            → IsTermRun keeps t (before ++ plain_term_said said.now ∷ []) first (W.contents writer.new) self.new.terminal (last_of self.new)) }
        ensures obeyed { IfOk result (λ on. on ≡ true → HasObeyed keeps (plain_term_command said.now.command) (W.contents writer.old) (W.contents writer.new)
            (last_of self.old) (last_of self.new) self.old.terminal self.new.terminal) }
        ensures missed { IfOk result (λ on. on ≡ false
            → IsTermMissedBy (plain_term_said said.now) (last_of self.old) (W.contents writer.old) (W.contents writer.new)) }
    {
        match &said.command {
            TermCommand::Expect(text) => {
                if self.printer.has_printed(text) {
                    return Ok(true);
                }
                let line = said.line;
                write_line(alloc, writer, &format_args!("failed line {line}"))?;
                Ok(false)
            }
            TermCommand::Out(units) => {
                self.print_units(alloc, *units, writer)?;
                Ok(true)
            }
            command => {
                let line = answer(alloc, &mut self.terminal, command, keeps)?;
                self.printer.print(line, writer)?;
                Ok(true)
            }
        }
    }

    /// Obeys the commands in order, up to an expectation that fails; `keeps` tells whether reports are kept. Returns
    /// the exit status: 0, or 1 if an expectation failed.
    ///
    /// # Errors
    ///
    /// If a write fails or memory runs out.
    fn run<W: Write>(
        &mut self,
        alloc: Global,
        commands: &[TermSaid<'_>],
        keeps: bool,
        writer: &mut W,
    ) -> io::Result<u8>
        ensures held { IfOk result (λ status. status ≡ 0 → (t : Term) (before : List PlainTermSaid) (first : Option (List ℕ))
            → IsTermRun keeps t before first (W.contents writer.old) self.old.terminal (last_of self.old)
            → IsTermRun keeps t (before ++ map plain_term_said commands.now) first (W.contents writer.new) self.new.terminal (last_of self.new)) }
        ensures missed { IfOk result (λ status. status ≡ 1 → (t : Term) (before : List PlainTermSaid) (first : Option (List ℕ))
            → IsTermRun keeps t before first (W.contents writer.old) self.old.terminal (last_of self.old)
            → IsTermMissed keeps (before ++ map plain_term_said commands.now) first (W.contents writer.new) t) }
        ensures status { IfOk result (λ status. (status ≡ 0) ⊎ (status ≡ 1)) }
    {
        for said in commands {
            if !self.obey(alloc, said, keeps, writer)? {
                return Ok(MISSED);
            }
        }
        Ok(DONE)
    }
}

/// Whether a command reads the terminal's reports.
fn is_told(said: &TermSaid<'_>) -> bool
    ensures { result ≡ is_told (plain_term_said said.now) }
{
    match &said.command {
        TermCommand::Told => true,
        TermCommand::Order(_)
        | TermCommand::Unit(_)
        | TermCommand::Units(_, _)
        | TermCommand::Errors(_)
        | TermCommand::Line(_)
        | TermCommand::Msu(_)
        | TermCommand::Out(_)
        | TermCommand::Tick(_)
        | TermCommand::Accepted
        | TermCommand::Retrieve(_)
        | TermCommand::Measure(_)
        | TermCommand::Aborted
        | TermCommand::Reset
        | TermCommand::State(_)
        | TermCommand::Value(_, _)
        | TermCommand::Expect(_) => false,
    }
}

/// Whether one of these commands reads the terminal's reports.
fn has_told(commands: &[TermSaid<'_>]) -> bool
    ensures { result ≡ list_any (λ said. is_told (plain_term_said said)) commands.now }
{
    commands.iter().any(|said| is_told(said))
}

/// Whether one of the commands reads the terminal's reports.
pub fn asks_told(commands: &[TermSaid<'_>]) -> bool
    ensures { result ≡ asks_told (map plain_term_said commands.now) }
{
    has_told(commands)
}

/// A terminal for which nothing is printed yet.
pub fn new_player(terminal: Terminal) -> TermPlayer
    ensures terminal { result.terminal ≡ terminal }
    ensures last { last_of result ≡ None }
{
    let printer = Printer { last: None };
    TermPlayer { terminal, printer }
}

/// Runs the commands of a script on a new terminal. Returns the exit status.
fn play_on<W: Write>(
    alloc: Global,
    terminal: Terminal,
    script: &TermScript<'_>,
    writer: &mut W,
) -> u8
    ensures held { result ≡ 0
        → IsTermWritten (map plain_term_said script.now.commands.items) (W.contents writer.old) (W.contents writer.new) terminal }
    ensures missed { result ≡ 1
        → IsTermFailed (map plain_term_said script.now.commands.items) (W.contents writer.old) (W.contents writer.new) terminal }
    ensures status { (result ≡ 0) ⊎ (result ≡ 1) ⊎ (result ≡ 4) }
{
    let printer = Printer { last: None };
    let mut player = TermPlayer { terminal, printer };
    let commands = script.commands.as_slice();
    let keeps = asks_told(commands);
    match player.run(alloc, commands, keeps, writer) {
        Ok(status) => status,
        Err(_) => FAILED,
    }
}

/// Writes why a set allows no terminal: `refused X2 NoName NAME`. Returns 2, or 4 if memory or a write fails.
pub fn refuse_set<W: Write>(alloc: Global, writer: &mut W, error: OpenError) -> u8
    ensures printed { result ≡ 2 → PrintsLacking error (W.contents writer.old) (W.contents writer.new) }
    ensures status { (result ≡ 2) ⊎ (result ≡ 4) }
{
    match error {
        OpenError::NoName(_) => refuse(alloc, writer, &format_args!("refused {error}")),
        OpenError::NoMemory => FAILED,
    }
}

/// Runs a terminal's script on a terminal over a set. It prints one line for each command except `expect`; `out` prints
/// one for each unit. Reports are kept if a command reads them. The usual limits apply to forced cyclic retransmission
/// unless the script's first line chooses others.
///
/// Returns the exit status: 0 if each command ran and its lines were written, 1 after `failed line N` if an expectation
/// failed, 2 after only `refused X2 NoName NAME` if the set lacks a name that a terminal uses, 4 if memory or a write
/// fails. Nothing is written after a failed write.
pub fn play_terminal<W: Write>(
    alloc: Global,
    set: &Verified,
    usual: RoundLimits,
    script: &TermScript<'_>,
    writer: &mut W,
) -> u8
    ensures held { result ≡ 0
        → IsOfNew set.now usual script.now.head (IsTermWritten (map plain_term_said script.now.commands.items) (W.contents writer.old) (W.contents writer.new)) }
    ensures missed { result ≡ 1
        → IsOfNew set.now usual script.now.head (IsTermFailed (map plain_term_said script.now.commands.items) (W.contents writer.old) (W.contents writer.new)) }
    ensures refused { result ≡ 2 → LacksName set.now (W.contents writer.old) (W.contents writer.new) }
    ensures status { (result ≡ 0) ⊎ (result ≡ 1) ⊎ (result ≡ 2) ⊎ (result ≡ 4) }
{
    let limits = script.head.limits_over(usual);
    match Terminal::of_set_within(alloc, limits, script.head.mode, set) {
        Ok(terminal) => play_on(alloc, terminal, script, writer),
        Err(error) => refuse_set(alloc, writer, error),
    }
}
