//! Tests of links (Q.707, 2.2).
ghost use Rattle.std.specs.Prelude.{◌≡◌, OnOk};
ghost use Rattle.line_tending.specs.Rounds.{Adds};

use crate::ends::Pattern;
use crate::link_duty::Testing;
use crate::tended_set::{TendError, TendedSet};
use link_group::LinkState;
use link_processes::Command;
use resend_store::Msu;

/// The ticks to wait for the answer to a test (Q.707's T1: 4 to 12 s).
const ANSWER: u64 = 6_000;

impl TendedSet {
    /// The pattern of a link's last test.
    fn pattern(&self, link: usize) -> Pattern {
        let [a, b] = self.plan.ends.own.to_le_bytes();
        let [c, d] = self.care(link).tests.to_le_bytes();
        [a, b, c, d]
    }

    /// Whether a message has the pattern of a link's last test.
    pub(crate) fn is_answer(&self, link: usize, msu: &Msu) -> bool {
        let pattern = self.pattern(link);
        match msu.sif.as_slice() {
            [_, _, _, _, _, _, came @ ..] => came == pattern.as_slice(),
            _ => false,
        }
    }

    /// Sends a test. Returns whether the link takes it.
    fn send_test(&mut self, link: usize) -> bool
        ensures { Adds self.old self.new }
    {
        self.keep(link, self.care(link).numbered());
        let msu = self.plan.ends.test(link, self.pattern(link));
        self.send_by(link, msu)
    }

    /// Sends a test, and enters this test state. Changes only the test number if the link doesn't take the test.
    fn try_test(&mut self, link: usize, test: Testing)
        ensures { Adds self.old self.new }
    {
        if !self.send_test(link) {
            return;
        }
        self.keep(link, self.care(link).tested(test));
    }

    /// Stops a link whose tests weren't answered.
    fn fail_test(&mut self, link: usize, until: u64) -> Result<(), TendError>
        ensures { OnOk result (Adds self.old self.new) }
    {
        let stopping = self.command(link, Command::Stop)?;
        let care = self
            .care(link)
            .stopped(stopping)
            .tested(Testing::RunsAgain(until));
        self.keep(link, care);
        Ok(())
    }

    /// Does what the test of a link requires at this tick. No test runs while a processor is out.
    pub(crate) fn test(&mut self, link: usize, state: LinkState) -> Result<(), TendError>
        ensures { OnOk result (Adds self.old self.new) }
    {
        if !self.plan.tests || !state.in_service || state.held {
            return Ok(());
        }
        let until = self.ticks.saturating_add(ANSWER);
        if state.far_out || state.own_out {
            self.keep(link, self.care(link).tested(Testing::Rests(self.ticks)));
            return Ok(());
        }
        match self.care(link).test {
            Testing::Rests(since) if since <= self.ticks => {
                self.try_test(link, Testing::Runs(until));
                Ok(())
            }
            Testing::Runs(end) if end <= self.ticks => {
                self.try_test(link, Testing::RunsAgain(until));
                Ok(())
            }
            Testing::RunsAgain(end) if end <= self.ticks => self.fail_test(link, until),
            Testing::Rests(_) | Testing::Runs(_) | Testing::RunsAgain(_) => Ok(()),
        }
    }
}
