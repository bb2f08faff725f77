//! The names that a transition may use, with their numbers; and the receivers of the signals it sends.
ghost use Rattle.std.specs.Prelude.{◌≡◌, ◌≤◌, length, IsSome};
ghost use Rattle.std.proofs.Props.{props};
ghost use Rattle.sdl_ast.specs.Views.{tree_of, block_of, process_of};
ghost use Rattle.sdl_sound.specs.Receivers.{party_of, receivers};
ghost use Rattle.sdl_tables.specs.Names.{number_of, variable_names, states_of, timers_of, signal_names, process_names};
ghost use Rattle.sdl_meaning.specs.Act.{scope_of, is_truth, numbered, the_one};
ghost use Rattle.sdl_meaning.specs.Outcomes.{variable_at, state_at, timer_at, connector_at, signal_at};
ghost use Rattle.sdl_meaning.specs.Named.{HasReceiver};
ghost use Rattle.sdl_meaning.specs.Code.{number_or_zero, party_or_environment, receiver_code};
ghost use Rattle.sdl_emit.specs.Uses.{IsUseTable};
ghost use Rattle.plain_laws.specs.Limits.{MOST_VARIABLES, MOST_STATES, MOST_TIMERS_EACH, MOST_SIGNALS, MOST_PROCESSES};

use crate::uses::UseTable;
use sdl_ast::{Destination, Expression, Identifier, Sort};
use sdl_scopes::{Recipients, find_receivers, sort_in};
use sdl_tables::{BlockTable, ProcessTable};
use turn_code::{
    Party, ProcessNumber, Receiver, SignalNumber, StateNumber, TimerNumber, VariableNumber,
};

/// A process and its block, with their tables, within the limits.
#[derive(Drop)]
pub struct Names<'a> {
    pub block: &'a BlockTable<'a>,
    pub process: &'a ProcessTable<'a>,
    pub uses: &'a UseTable,
    pub ghost used: { IsUseTable (scope_of (block_of block.now) (process_of process.now)) uses.now } by { Prim.hlevel props },
    pub ghost few_variables: { length (variable_names (process_of process.now)) ≤ MOST_VARIABLES },
    pub ghost few_states: { length (states_of (process_of process.now)) ≤ MOST_STATES },
    pub ghost few_timers: { length (timers_of (process_of process.now)) ≤ MOST_TIMERS_EACH },
    pub ghost few_signals: { length (signal_names (block_of block.now)) ≤ MOST_SIGNALS },
    pub ghost few_processes: { length (process_names (block_of block.now)) ≤ MOST_PROCESSES },
}

impl Names<'_> {
    ghost use Rattle.sdl_emit.specs.Scopes.{scope_in};

    /// The number of a declared variable.
    pub fn variable(&self, id: &Identifier) -> VariableNumber
        requires { IsSome (variable_at (scope_in self.now) id.now) }
        ensures { result.0 ≡ number_or_zero (variable_at (scope_in self.now) id.now) }
    {
        if let Some(number) = self.uses.variable(id) {
            return number;
        }
        match self.process.variables().number(id.name) {
            Some(number) => VariableNumber(number as u8),
            None => unreachable!(),
        }
    }

    /// The number of a state of the process.
    pub fn state(&self, id: &Identifier) -> StateNumber
        requires { IsSome (state_at (scope_in self.now) id.now) }
        ensures { result.0 ≡ number_or_zero (state_at (scope_in self.now) id.now) }
    {
        match self.process.states().number(id.name) {
            Some(number) => StateNumber(number as u8),
            None => unreachable!(),
        }
    }

    /// The number of a declared timer.
    pub fn timer(&self, id: &Identifier) -> TimerNumber
        requires { IsSome (timer_at (scope_in self.now) id.now) }
        ensures { result.0 ≡ number_or_zero (timer_at (scope_in self.now) id.now) }
    {
        match self.process.timers().number(id.name) {
            Some(number) => TimerNumber(number as u8),
            None => unreachable!(),
        }
    }

    /// The number of a connection of the process.
    pub fn connector(&self, id: &Identifier) -> usize
        requires { IsSome (connector_at (scope_in self.now) id.now) }
        ensures { result ≡ number_or_zero (connector_at (scope_in self.now) id.now) }
    {
        if let Some(number) = self.uses.connection(id) {
            return number;
        }
        match self.process.connectors().number(id.name) {
            Some(number) => number,
            None => unreachable!(),
        }
    }

    /// The number of a declared signal.
    pub fn signal(&self, id: &Identifier) -> SignalNumber
        requires { IsSome (signal_at (scope_in self.now) id.now) }
        ensures { result.0 ≡ number_or_zero (signal_at (scope_in self.now) id.now) }
    {
        if let Some(number) = self.uses.signal(id) {
            return number;
        }
        match self.block.signals().number(id.name) {
            Some(number) => SignalNumber(number as u8),
            None => unreachable!(),
        }
    }

    /// Whether an expression is a Boolean by its text.
    pub fn is_truth(&self, expression: &Expression) -> bool
        ensures { result ≡ is_truth (scope_in self.now) (tree_of expression.now) }
    {
        match sort_in(self.process, expression) {
            Some(Sort::Boolean) => true,
            _ => false,
        }
    }

    /// The number of a process of the block.
    fn receiving(&self, id: &Identifier) -> ProcessNumber
        requires { IsSome (number_of (process_names (block_of self.now.block.now)) id.now.name) }
        ensures { result.0 ≡ number_or_zero (number_of (process_names (block_of self.now.block.now)) id.now.name) }
    {
        if let Some(number) = self.uses.process(id) {
            return number;
        }
        match self.block.processes().number(id.name) {
            Some(number) => ProcessNumber(number as u8),
            None => unreachable!(),
        }
    }

    /// A party of the block, by its number.
    fn party(&self, party: &sdl_ast::Party) -> Party
        requires { IsSome (numbered (scope_in self.now) party.now) }
        ensures { result ≡ party_or_environment (numbered (scope_in self.now) party.now) }
    {
        match party {
            sdl_ast::Party::Environment => Party::Environment,
            sdl_ast::Party::Process(id) => Party::Process(self.receiving(id)),
        }
    }

    /// The receiver of a signal that is sent without TO.
    fn recipient(&self, signal: &Identifier) -> Party
        requires { HasReceiver (scope_in self.now) None signal.now }
        ensures { result ≡ party_or_environment (the_one (scope_in self.now) (receivers (block_of self.now.block.now) (party_of (process_of self.now.process.now)) signal.now.name)) }
    {
        if let Some(party) = self.uses.recipient(signal) {
            return party;
        }
        let own = sdl_ast::Party::Process(self.process.process().name);
        match find_receivers(self.block, &own, signal.name) {
            Recipients::One(party) => self.party(&party),
            Recipients::Nobody => unreachable!(),
            Recipients::Several => unreachable!(),
        }
    }

    /// The receiver of a signal that is sent with this TO, or without TO.
    pub fn receiver(&self, to: &Option<Destination>, signal: &Identifier) -> Receiver
        requires { HasReceiver (scope_in self.now) to.now signal.now }
        ensures { result ≡ receiver_code (scope_in self.now) to.now signal.now }
    {
        match to {
            None => Receiver::Party(self.recipient(signal)),
            Some(Destination::Process(id)) => {
                Receiver::Party(self.party(&sdl_ast::Party::Process(*id)))
            }
            Some(Destination::Sender(_)) => Receiver::Sender,
        }
    }
}
