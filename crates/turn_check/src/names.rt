//! The names and numbers of a valid set.

ghost use Rattle.std.specs.Prelude.{◌≡◌, ◌≤◌, length, option_copied, slice_get};
ghost use Rattle.turn_check.specs.Named.{instances_at, states_at, timer_names, saves_at, variables_at, inputs_at, process_names, signal_names, variable_names, state_names, trigger_at, trigger_name};
ghost use Rattle.turn_code.specs.Limits.{MOST_INSTANCES};

use crate::verified::Verified;
use turn_code::{
    DraftInput, DraftState, DraftVariable, Name, ProcessNumber, SignalNumber, StateNumber,
    TimerNumber, Trigger, VariableNumber,
};

impl Verified {
    /// The number of processes.
    pub fn process_count(&self) -> usize
        ensures { result ≡ length self.now.processes }
    {
        self.draft().processes.len()
    }

    /// The number of instances of a process, 1 to 8; 0 if there is no such process.
    pub fn instances(&self, process: ProcessNumber) -> u32
        ensures value { result ≡ instances_at self.now process.0 }
        ensures most { result ≤ MOST_INSTANCES }
    {
        let _valid = self.draft();
        self.drafted_instances(process)
    }

    /// The number of instances that the draft has; 0 if there is no such process.
    fn drafted_instances(&self, process: ProcessNumber) -> u32
        ensures { result ≡ instances_at self.now process.0 }
    {
        match self
            .draft()
            .processes
            .as_slice()
            .get(usize::from(process.0))
        {
            Some(process) => process.instances,
            None => 0,
        }
    }

    /// The number of signals.
    pub fn signal_count(&self) -> usize
        ensures { result ≡ length self.now.signals }
    {
        self.draft().signals.len()
    }

    /// The number of states of a process; 0 if there is no such process.
    pub fn state_count(&self, process: ProcessNumber) -> usize
        ensures { result ≡ length (states_at self.now process.0) }
    {
        self.states(process).len()
    }

    /// The number of variables of a process; 0 if there is no such process.
    pub fn variable_count(&self, process: ProcessNumber) -> usize
        ensures { result ≡ length (variables_at self.now process.0) }
    {
        self.variables(process).len()
    }

    /// The number of inputs of a state; 0 if there is no such state.
    pub fn input_count(&self, process: ProcessNumber, state: StateNumber) -> usize
        ensures { result ≡ length (inputs_at self.now process.0 state.0) }
    {
        self.inputs(process, state).len()
    }

    /// The name of a process.
    pub fn process_name(&self, process: ProcessNumber) -> Option<&Name>
        ensures { option_copied result ≡ slice_get (process_names self.now) process.0 }
    {
        match self
            .draft()
            .processes
            .as_slice()
            .get(usize::from(process.0))
        {
            Some(process) => Some(&process.name),
            None => None,
        }
    }

    /// The name of a signal.
    pub fn signal_name(&self, signal: SignalNumber) -> Option<&Name>
        ensures { option_copied result ≡ slice_get (signal_names self.now) signal.0 }
    {
        match self.draft().signals.as_slice().get(usize::from(signal.0)) {
            Some(signal) => Some(&signal.name),
            None => None,
        }
    }

    /// The name of a state of a process.
    pub fn state_name(&self, process: ProcessNumber, state: StateNumber) -> Option<&Name>
        ensures { option_copied result ≡ slice_get (state_names self.now process.0) state.0 }
    {
        match self.states(process).get(usize::from(state.0)) {
            Some(state) => Some(&state.name),
            None => None,
        }
    }

    /// The name of a variable of a process.
    pub fn variable_name(&self, process: ProcessNumber, variable: VariableNumber) -> Option<&Name>
        ensures { option_copied result ≡ slice_get (variable_names self.now process.0) variable.0 }
    {
        match self.variables(process).get(usize::from(variable.0)) {
            Some(variable) => Some(&variable.name),
            None => None,
        }
    }

    /// The number of timers of a process; 0 if there is no such process.
    pub fn timer_count(&self, process: ProcessNumber) -> usize
        ensures { result ≡ length (timer_names self.now process.0) }
    {
        self.timers(process).len()
    }

    /// The name of a timer of a process.
    pub fn timer_name(&self, process: ProcessNumber, timer: TimerNumber) -> Option<&Name>
        ensures { option_copied result ≡ slice_get (timer_names self.now process.0) timer.0 }
    {
        self.timers(process).get(usize::from(timer.0))
    }

    /// The signals and timers that a state saves, in text order.
    pub fn saves(&self, process: ProcessNumber, state: StateNumber) -> &[Trigger]
        ensures { result.now ≡ saves_at self.now process.0 state.0 }
    {
        match self.states(process).get(usize::from(state.0)) {
            Some(state) => state.saves.as_slice(),
            None => &[],
        }
    }

    /// The names of the timers of a process; empty if there is no such process.
    fn timers(&self, process: ProcessNumber) -> &[Name]
        ensures { result.now ≡ timer_names self.now process.0 }
    {
        match self
            .draft()
            .processes
            .as_slice()
            .get(usize::from(process.0))
        {
            Some(process) => process.timers.as_slice(),
            None => &[],
        }
    }

    /// The signal or timer that an input of a state waits for.
    pub fn trigger(
        &self,
        process: ProcessNumber,
        state: StateNumber,
        input: usize,
    ) -> Option<Trigger>
        ensures { result ≡ trigger_at self.now process.0 state.0 input }
    {
        match self.inputs(process, state).get(input) {
            Some(found) => Some(found.trigger),
            None => None,
        }
    }

    /// The name of the signal or timer that an input of a state waits for; none if there is no such input.
    pub fn input_name(
        &self,
        process: ProcessNumber,
        state: StateNumber,
        input: usize,
    ) -> Option<&Name>
        ensures { option_copied result ≡ trigger_name self.now process.0 (trigger_at self.now process.0 state.0 input) }
    {
        match self.trigger(process, state, input) {
            Some(Trigger::Signal(signal)) => self.signal_name(signal),
            Some(Trigger::Timer(timer)) => self.timer_name(process, timer),
            None => None,
        }
    }

    /// The states of a process; empty if there is no such process.
    fn states(&self, process: ProcessNumber) -> &[DraftState]
        ensures { result.now ≡ states_at self.now process.0 }
    {
        match self
            .draft()
            .processes
            .as_slice()
            .get(usize::from(process.0))
        {
            Some(process) => process.states.as_slice(),
            None => &[],
        }
    }

    /// The variables of a process; empty if there is no such process.
    pub(crate) fn variables(&self, process: ProcessNumber) -> &[DraftVariable]
        ensures { result.now ≡ variables_at self.now process.0 }
    {
        match self
            .draft()
            .processes
            .as_slice()
            .get(usize::from(process.0))
        {
            Some(process) => process.variables.as_slice(),
            None => &[],
        }
    }

    /// The inputs of a state; empty if there is no such state.
    pub(crate) fn inputs(&self, process: ProcessNumber, state: StateNumber) -> &[DraftInput]
        ensures { result.now ≡ inputs_at self.now process.0 state.0 }
    {
        match self.states(process).get(usize::from(state.0)) {
            Some(state) => state.inputs.as_slice(),
            None => &[],
        }
    }
}
