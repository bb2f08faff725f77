//! How the actors run to rest, and their signals to the environment.
ghost use Rattle.std.specs.Prelude.{◌≡◌};
ghost use Rattle.link_processes.specs.Machine.{heard, one_taken, emptied, is_past, grew, periods_of, periods_counted, moved, rested};

use crate::names::told_by;
use crate::processes::Processes;
use actor_book::{REST, Turn, one_turn};
use actor_machine::Emitted;
use turn_code::Value;

/// Whether a value is a number greater than this one.
fn is_past(before: i32, after: Option<Value>) -> bool
    ensures { result ≡ is_past before after }
{
    match after {
        Some(Value::Int(number)) => before < number,
        Some(Value::Bool(_)) => false,
        None => false,
    }
}

/// Whether a number grew.
fn grew(before: Option<Value>, after: Option<Value>) -> bool
    ensures { result ≡ grew before after }
{
    match before {
        Some(Value::Int(number)) => is_past(number, after),
        Some(Value::Bool(_)) => false,
        None => false,
    }
}

impl Processes {
    /// Obeys a signal from an actor to the environment.
    #[tactic(auto, unfolding(crate::specs::Machine::heard))]
    fn heed(&mut self, emitted: &Emitted)
        ensures { self.new ≡ heard emitted.now self.old }
    {
        if let Some(signal) = told_by(&self.names, emitted) {
            let before = self.transceiver.glance();
            self.measures.on_signal(signal, &before);
            self.transceiver.on_signal(signal);
        }
    }

    /// Takes and obeys the oldest signal that waits for the environment. Returns false if there was none to take.
    #[tactic(auto, unfolding(crate::specs::Machine::one_taken))]
    fn take_one(&mut self) -> bool
        ensures goes { result ≡ (one_taken self.old).goes }
        ensures processes { self.new ≡ (one_taken self.old).processes }
    {
        match self.book.take_env() {
            Ok(taken) => {
                self.heed(&taken.emitted);
                true
            }
            Err(_) => false,
        }
    }

    /// Takes and obeys all signals that wait for the environment.
    fn empty_ring(&mut self)
        ensures { self.new ≡ emptied self.old }
    {
        let mut left = self.book.waiting();
        while left > 0 && self.take_one() {
            left -= 1;
        }
    }

    /// Cp of initial alignment control (Q.703, figure 9), if the text has it and it is set.
    fn periods(&self) -> Option<Value>
        ensures { result ≡ periods_of self.now.names self.now.book }
    {
        let periods = &self.names.periods;
        self.book.variable(periods.actor, periods.variable)
    }

    /// Counts an aborted proving period if Cp grew.
    fn count_periods(&mut self, before: Option<Value>)
        ensures { self.new ≡ periods_counted before self.old }
    {
        if grew(before, self.periods()) {
            self.aborted = self.aborted.saturating_add(1);
        }
    }

    /// Gives a turn to the least actor that can have one, counts a proving period aborted in it, and takes the signals
    /// for the environment. Returns whether there was a turn.
    #[tactic(auto, unfolding(crate::specs::Machine::moved))]
    fn step(&mut self) -> bool
        ensures goes { result ≡ (moved self.old).goes }
        ensures processes { self.new ≡ (moved self.old).processes }
    {
        let before = self.periods();
        match one_turn(&mut self.book) {
            Turn::Made => {
                self.count_periods(before);
                self.empty_ring();
                true
            }
            Turn::Blocked => false,
            Turn::Idle => false,
        }
    }

    /// Lets the actors run to rest.
    pub(crate) fn rest(&mut self)
        ensures { self.new ≡ rested self.old }
    {
        let mut left = REST;
        while left > 0 && self.step() {
            left -= 1;
        }
    }
}
