//! Reading the reports of links.
ghost use Rattle.std.specs.Prelude.{◌≡◌, ◌∷◌, [], true, OnOk, IfSome, IsNone};
ghost use Rattle.link_group.specs.Lines.{ByCommand, IsCommandError};
ghost use Rattle.line_tending.specs.Giving.{WasGiven};
ghost use Rattle.line_tending.specs.Rounds.{Acts, Adds, AddsHeeded, HandsOut, HeedsEach, IsTaken, ToldAll};
ghost use Rattle.line_tending.specs.Telling.{message_told, status_told};

use crate::came::Came;
use crate::link_duty::{LinkDuty, Testing};
use crate::tended_set::{TendError, TendedSet};
use crate::told::Told;
use group_changeover::{Hearing, Kind};
use link_processes::Command;
use link_transceiver::{LinkStatus, Report};
use resend_store::Msu;

/// The ticks between two tests of a link (Q.707's T2: 30 to 90 s).
const BETWEEN_TESTS: u64 = 60_000;

impl TendedSet {
    /// Takes all reports of each link.
    pub(crate) fn heed_all(&mut self) -> Result<(), TendError>
        ensures { OnOk result (HeedsEach self.old self.old.plan.links self.new) }
    {
        for link in 0..self.len() {
            self.heed_link(link)?;
        }
        Ok(())
    }

    /// Takes all reports of a link.
    ///
    /// # Errors
    ///
    /// If memory runs out, or after 2^64 - 1 reports.
    pub fn heed_link(&mut self, link: usize) -> Result<(), TendError>
        ensures adds { OnOk result (AddsHeeded self.old self.new) }
        ensures told { OnOk result (ToldAll link self.new) }
    {
        for _report in 0..u64::MAX {
            match self.next_report(link) {
                Some(report) => self.heed(link, report)?,
                None => return Ok(()),
            }
        }
        Err(TendError::NoMemory)
    }

    /// The next report of a link, if it has one.
    fn next_report(&mut self, link: usize) -> Option<Report>
        ensures some { IfSome result (λ report. HandsOut (record { link = link; report = report }) self.old self.new) }
        ensures none { IsNone result → Adds self.old self.new }
        ensures told { IsNone result → ToldAll link self.new }
    {
        match self.set.report(link) {
            Ok(report) => report,
            Err(_) => None,
        }
    }

    /// Takes a report of a link.
    fn heed(&mut self, link: usize, report: Report) -> Result<(), TendError>
        ensures { OnOk result (IsTaken (record { link = link; report = report }) self.old self.new) }
    {
        self.note_report(link, &report);
        match report {
            Report::Message(msu) => self.heed_message(link, msu),
            Report::Status(status) => self.heed_status(link, status),
        }
    }

    /// Takes a status report of a link.
    fn heed_status(&mut self, link: usize, status: LinkStatus) -> Result<(), TendError>
        ensures { OnOk result (Acts [] (status_told link status) self.old self.new) }
    {
        match status {
            LinkStatus::InService => {
                let care = self.care(link).risen(self.ticks);
                self.keep(link, care);
                self.tell_report(Told::InService(link))
            }
            LinkStatus::Down(reason) => self.go_down(link, reason),
            LinkStatus::RemoteOut => self.tell_report(Told::FarOut(link)),
            LinkStatus::RemoteBack => self.tell_report(Told::FarBack(link)),
            LinkStatus::Cleared => Ok(()),
        }
    }

    /// Handles a link that went down.
    fn go_down(&mut self, link: usize, reason: i32) -> Result<(), TendError>
        ensures { OnOk result (Acts [] (Told.Down link reason ∷ []) self.old self.new) }
    {
        self.tell_report(Told::Down(link, reason))?;
        self.fall(link)
    }

    /// Handles a link that went down: begins its changeover, unless it wasn't in service or its changeover goes on.
    fn fall(&mut self, link: usize) -> Result<(), TendError>
        ensures { OnOk result (Adds self.old self.new) }
    {
        self.withdraw(link);
        let care = self.care(link);
        self.keep(link, care.fallen(self.ticks));
        self.owe_again(link);
        if !care.serves {
            return Ok(());
        }
        self.begin_changeover(link)
    }

    /// Withdraws a link that is tested from admission.
    fn withdraw(&mut self, link: usize)
        ensures { Adds self.old self.new }
    {
        if !self.plan.tests {
            return;
        }
        self.admit(link, false);
    }

    /// Takes a message received on a link.
    fn heed_message(&mut self, link: usize, msu: Msu) -> Result<(), TendError>
        ensures { OnOk result (Acts [] (message_told self.old.plan link msu) self.old self.new) }
    {
        match self.plan.ends.came(&msu) {
            Came::Message => self.tell_report(Told::Message(link, msu)),
            Came::Changeover(about, kind) => {
                if about == link || about >= self.len() {
                    return Ok(());
                }
                self.tell(Told::Hears(about, kind, link))?;
                self.hear_changeover(about, kind, &msu)
            }
            Came::Declaration(about, code) => {
                if about < self.len() {
                    self.acknowledge_declaration(link, about, code);
                    return Ok(());
                }
                self.tell_report(Told::Message(link, msu))
            }
            Came::Test(about) => {
                if about < self.len() {
                    self.answer_test(about, &msu);
                    return Ok(());
                }
                self.tell_report(Told::Message(link, msu))
            }
            Came::Answer(about) => self.hear_answer(link, about, &msu),
            Came::Own => {
                let care = self.care(link);
                self.hear_itself(link, care)
            }
        }
    }

    /// Takes a changeover message about a link, received on another link. If the link has never been in service, only
    /// an order is answered, without the set. An order that begins no changeover in the set may be a late one: if the
    /// link is in service, this end then begins its own. Its order replaces the answer, so that the other end repeats
    /// its number. Copies of the late order are ignored: messages still unacknowledged would be lost by its number.
    fn hear_changeover(&mut self, about: usize, kind: Kind, msu: &Msu) -> Result<(), TendError>
        ensures { OnOk result (Adds self.old self.new) }
    {
        if !self.care(about).served {
            self.answer_unknown(about, kind);
            return Ok(());
        }
        if self.is_doubted(about, kind) {
            return Ok(());
        }
        let goes_on = self.in_changeover(about);
        let noted = self.note(msu.sif.as_slice());
        self.owe_answer(about, noted.answer);
        if noted.hearing == Hearing::Order && !goes_on && self.care(about).serves {
            self.begin_changeover(about)?;
            self.doubt(about, Some(kind));
            return Ok(());
        }
        if noted.hearing != Hearing::Began {
            return Ok(());
        }
        self.doubt(about, None);
        self.keep(about, self.care(about).changing());
        self.tell(Told::Changeover(about))
    }

    /// Answers an order about a link that has never been in service.
    fn answer_unknown(&mut self, about: usize, kind: Kind)
        ensures { self.new ≡ self.old }
    {
        match kind {
            Kind::Order(_) | Kind::EmergencyOrder => {
                self.owe(about, Kind::EmergencyAcknowledgement);
            }
            Kind::Acknowledgement(_) | Kind::EmergencyAcknowledgement => {}
        }
    }

    /// Makes an answer about a link the message owed, if there is one.
    fn owe_answer(&mut self, about: usize, answer: Option<Kind>)
        ensures { self.new ≡ self.old }
    {
        match answer {
            Some(kind) => self.owe(about, kind),
            None => {}
        }
    }

    /// Acknowledges a changeback declaration about a link of the set: by another link that takes messages about it,
    /// else by the declared link if that takes messages, else by the link on which the declaration came.
    fn acknowledge_declaration(&mut self, came_by: usize, about: usize, code: u8)
        ensures { Adds self.old self.new }
    {
        let msu = self.plan.ends.declared_back(about, code);
        let by = match self.least_loaded(about) {
            Some(by) => by,
            None if self.may_take(about) => about,
            None => came_by,
        };
        let _sent = self.send_by(by, msu);
    }

    /// Answers a test by the link that it names, not the one it came by, so crossed lines pass no test (Q.707, 2.2).
    fn answer_test(&mut self, about: usize, msu: &Msu)
        ensures { Adds self.old self.new }
    {
        let test = msu.sif.as_slice().get(5..).unwrap_or(&[]);
        let answer = self.plan.ends.test_answer(about, test);
        let _sent = self.send_by(about, answer);
    }

    /// Handles a message that this end sent by a link and received on it. The link is stopped until an order starts it.
    fn hear_itself(&mut self, link: usize, care: LinkDuty) -> Result<(), TendError>
        ensures adds { OnOk result (Adds self.old self.new) }
        ensures stops { OnOk result (care.wanted ≡ true → WasGiven (ByCommand Command.Stop link self.old.set self.new.set) (IsCommandError Command.Stop link self.old.set self.new.set)) }
    {
        if !care.wanted {
            return Ok(());
        }
        self.keep(link, care.let_be());
        self.tell(Told::Looped(link))?;
        let stopping = self.command(link, Command::Stop)?;
        self.keep(link, self.care(link).stopped(stopping));
        Ok(())
    }

    /// Takes the answer to a test on a link. It counts if it names this link and has the pattern of the running test.
    fn hear_answer(&mut self, link: usize, about: usize, msu: &Msu) -> Result<(), TendError>
        ensures { OnOk result (Adds self.old self.new) }
    {
        let care = self.care(link);
        let is_running = !matches!(care.test, Testing::Rests(_));
        if about != link || !is_running || !self.is_answer(link, msu) {
            return Ok(());
        }
        let next = self.ticks.saturating_add(BETWEEN_TESTS);
        self.keep(link, care.tested(Testing::Rests(next)));
        if self.is_admitted(link) {
            return Ok(());
        }
        self.admit(link, true);
        self.tell(Told::Tested(link))
    }

    /// Whether a link is admitted, or doesn't exist.
    pub(crate) fn is_admitted(&self, link: usize) -> bool {
        match self.state(link) {
            Some(state) => state.admitted,
            None => true,
        }
    }
}
