//! Turns of a link's actors.

ghost use Rattle.std.specs.Prelude.{◌≡◌, ◌↔◌, ◌≤◌, ◌<◌, ◌+◌, ◌^◌, [], length, IsTrue, IsOk, IfOk, IfErr, OnOk, OnErr, Some, None, Option};
ghost use Rattle.actor_machine.specs.Ledger.{ask, next, turn_out};
ghost use Rattle.actor_machine.specs.Step.{Says};
ghost use Rattle.actor_machine.specs.declared.event.Event.TheVariants.{Begin, Finish};
ghost use Rattle.actor_machine.specs.declared.reply.Reply.TheVariants as reply;
ghost use Rattle.actor_book.specs.Answered.{answer_by, begun_by};
ghost use Rattle.actor_book.specs.Meant.{FinishesByText};

use crate::book::Book;
use crate::jobs::{is_job_out, job_at};
use actor_machine::laws::{fits_law, keeps_law, set_law, state_law, text_law};
use actor_machine::{Event, Refusal, Report};
use turn_machine::{Done, Job, Work};

impl Book {
    /// Begins an actor's turn: it takes the first item that its state doesn't save, or runs START.
    ///
    /// # Errors
    ///
    /// In this order: `B10 NoActor`, `B4 Busy`, `B5 Nothing`, `B11 SkipFirst`, `B9 CountFull`, `B8 JournalFull` if less
    /// than two places are free, one of which is reserved for the turn's end. Then nothing changes.
    pub fn begin(&mut self, actor: u16) -> Result<Job, Refusal>
        ensures book { self.new ≡ (ask self.old (Begin actor)).book }
        ensures answer { answer_by begun_by result ≡ (ask self.old (Begin actor)).answer }
        ensures job { IfOk result (λ job. turn_out self.new actor ≡ Some job) }
        ensures next { OnOk result (next self.new ≡ next self.old + 1) }
        ensures err { OnErr result (self.new ≡ self.old) }
    {
        if let Some(refusal) = self.begin_refusal(actor) {
            return Err(refusal);
        }
        keeps_law();
        state_law();
        set_law();
        fits_law();
        self.keeps();
        self.start(actor);
        match self.job(actor) {
            Some(job) => Ok(job),
            None => unreachable!(),
        }
    }

    /// Ends the turn that an actor has out: its effects take place in text order, and it goes to its next state or
    /// stops. Returns its end, its count of instructions, and the outputs that reached nobody. The turn does what the
    /// set means: if the set comes from a text, what the text's transition does.
    ///
    /// # Errors
    ///
    /// `B6 Stranger`: the job that ran isn't the one that this actor has out. The job is returned, and nothing changes.
    pub fn finish(&mut self, done: Done) -> Result<Report, Done>
        ensures accepted { IsOk result ↔ (turn_out self.old done.actor ≡ Some done) }
        ensures book { OnOk result (self.new ≡ (ask self.old (Finish done.actor)).book) }
        ensures report { IfOk result (λ report. (ask self.old (Finish done.actor)).answer ≡ Says (reply.Finished report)) }
        ensures by_text { IfOk result (λ report. FinishesByText self.old done.actor report self.new) }
        ensures within { IfOk result (λ report. report.count ≤ done.certificate.budget) }
        ensures next { OnOk result (next self.new ≡ next self.old + 1) }
        ensures back { IfErr result (λ d. d ≡ done) }
        ensures err { OnErr result (self.new ≡ self.old) }
    {
        if !self.has_out(&done) {
            return Err(done);
        }
        text_law();
        self.keeps();
        let actor = done.job().actor();
        Ok(self.end(actor, &done))
    }

    /// The job of an actor that has a turn out, made again.
    pub fn job(&self, actor: u16) -> Option<Job>
        ensures { result ≡ turn_out self.now actor }
    {
        fits_law();
        job_at(&self.set, self.link.actors(), actor)
    }

    /// Whether the job that ran is the one that its actor has out.
    fn has_out(&self, done: &Done) -> bool
        ensures { IsTrue result ↔ (turn_out self.now done.now.actor ≡ Some done.now) }
    {
        self.has_work_out(done.job().work())
    }

    /// Whether this is the work of the turn that its actor has out.
    #[tactic(auto, unfolding(actor_machine::specs::Ledger::turn_out))]
    pub(crate) fn has_work_out(&self, work: &Work) -> bool
        ensures { IsTrue result ↔ (turn_out self.now work.now.actor ≡ Some work.now) }
    {
        is_job_out(&self.set, self.link.actors(), work)
    }
}
