//! Running a book script.
ghost use Rattle.std.specs.Prelude.{◌≡◌, ◌⊎◌, ◌++◌, ◌∷◌, [], List, ℕ, Option, map, IfOk, true, false};
ghost use Rattle.actor_machine.specs.Ledger.{Ledger};
ghost use Rattle.script_lines.specs.Scripts.{PlainSaid, plain_said};
ghost use Rattle.script_book.specs.Played.{last_of, IsRun, IsMissed, IsMissedBy};

use crate::answers::answer;
use crate::printer::Printer;
use crate::route_faults::route_fault;
use actor_book::Book;
use plain_text::{DONE, write_line};
use script_lines::{Command, Said};
use std::alloc::Global;
use std::io::{self, Write};

/// The exit status if an expectation failed.
pub const MISSED: u8 = 1;

/// A link, and the printer of its lines.
#[derive(Drop)]
pub struct Player {
    pub book: Book,
    pub printer: Printer,
}

impl Player {
    /// Obeys a command. Returns whether the run goes on: it ends after `failed line N`.
    ///
    /// # Errors
    ///
    /// If a write fails or memory runs out.
    pub fn obey<W: Write>(
        &mut self,
        alloc: Global,
        said: &Said<'_>,
        writer: &mut W,
    ) -> io::Result<bool>
        ensures goes { IfOk result (λ on. on ≡ true → (b : Ledger) (before : List PlainSaid) (first : Option (List ℕ))
            → IsRun b before first (W.contents writer.old) self.old.book (last_of self.old)
            → IsRun b (before ++ plain_said said.now ∷ []) first (W.contents writer.new) self.new.book (last_of self.new)) }
        ensures missed { IfOk result (λ on. on ≡ false → IsMissedBy (plain_said said.now) (last_of self.old) (W.contents writer.old) (W.contents writer.new)) }
    {
        match &said.command {
            Command::Expect(text) => {
                if self.printer.has_printed(text) {
                    return Ok(true);
                }
                let line = said.line;
                write_line(alloc, writer, &format_args!("failed line {line}"))?;
                Ok(false)
            }
            command => {
                let line = answer(alloc, &mut self.book, command)?;
                self.printer.print(line, writer)?;
                Ok(true)
            }
        }
    }

    /// Writes why B3 refused the command obeyed last, if it did.
    pub fn explain<E: Write>(&self, alloc: Global, said: &Said<'_>, errors: &mut E) {
        let (Command::Offer(given) | Command::Flood(_, given)) = &said.command else {
            return;
        };
        if !self.printer.has_printed(b"refused B3 NoRoute") {
            return;
        }
        let line = said.line;
        if let Some(fault) = route_fault(&self.book, given) {
            let _told = write_line(
                alloc,
                errors,
                &format_args!("mtp2_play: line {line}: {fault}"),
            );
        }
    }

    /// Obeys the commands in order, up to an expectation that fails. Returns the exit status: 0, or 1 if one failed.
    /// The reasons of refusals by B3 are written to `errors`.
    ///
    /// # Errors
    ///
    /// If a write fails or memory runs out.
    pub fn run<W: Write, E: Write>(
        &mut self,
        alloc: Global,
        commands: &[Said<'_>],
        writer: &mut W,
        errors: &mut E,
    ) -> io::Result<u8>
        ensures held { IfOk result (λ status. status ≡ 0 → (b : Ledger) (before : List PlainSaid) (first : Option (List ℕ))
            → IsRun b before first (W.contents writer.old) self.old.book (last_of self.old)
            → IsRun b (before ++ map plain_said commands.now) first (W.contents writer.new) self.new.book (last_of self.new)) }
        ensures missed { IfOk result (λ status. status ≡ 1 → (b : Ledger) (before : List PlainSaid) (first : Option (List ℕ))
            → IsRun b before first (W.contents writer.old) self.old.book (last_of self.old)
            → IsMissed b (before ++ map plain_said commands.now) first (W.contents writer.new)) }
        ensures status { IfOk result (λ status. (status ≡ 0) ⊎ (status ≡ 1)) }
    {
        for said in commands {
            if !self.obey(alloc, said, writer)? {
                return Ok(MISSED);
            }
            self.explain(alloc, said, errors);
        }
        Ok(DONE)
    }
}
