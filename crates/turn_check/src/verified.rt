//! Sets of processes that are known to be valid.

ghost use Rattle.std.specs.Prelude.{◌≡◌, ◌↔◌, ◌≤◌, All, length, option_map, IsOk, IfOk, IfErr, IfSome, Some, slice_get, slice_index_or};
ghost use Rattle.turn_code.specs.Transitions.{Transition as Plain, transition_at, start_of, start_at as start_found, input_at as input_found};
ghost use Rattle.turn_rules.specs.Seen.{seen};
ghost use Rattle.turn_code.specs.Valid.{IsValid};
ghost use Rattle.turn_code.specs.declared.draft.DraftProcess.{DraftProcess as PlainProcess};
ghost use Rattle.turn_code.specs.Sorts.{AreSortsOf};
ghost use Rattle.turn_check.specs.Earliest.{IsFirstFault};
ghost use Rattle.turn_check.specs.Faults.{IsBroken};
ghost use Rattle.turn_check.specs.Sorted.{AreVariableBits};
ghost use Rattle.turn_code.specs.Limits.{MOST_PROCESSES, MOST_VARIABLES};

use crate::fault::VerifyFault;
use crate::walk::check_draft;
use std::alloc::AllocError;
use std::marker::Model;
use turn_code::laws::{path_law, safe_law};
use turn_code::{
    Cert, Draft, DraftProcess, DraftSignal, Place, ProcessNumber, Sorts, StateNumber,
    parameter_bits, variable_bits,
};
use turn_rules::{Transition, input_transition, start_transition};

/// A valid draft, which contracts see as that draft, with bits for the sorts of parameters and variables. Only `verify`
/// makes one.
#[derive(Drop)]
pub struct Verified {
    draft: Draft,
    /// For each signal, bit j says whether its parameter j is Boolean.
    parameters: [u8; 128],
    /// For each process, bit v says whether its variable v is Boolean.
    variables: [u32; 16],
}

impl Model for Verified {
    ghost use Rattle.turn_code.specs.declared.draft.Draft.{Draft as PlainDraft};
    ghost use Rattle.turn_check.specs.Sorted.{IsSorted};

    ghost Value = { PlainDraft };

    ghost view = { λ v. v.draft };

    ghost invariant = { λ v. IsSorted v.draft v.parameters v.variables };
}

/// Checks a draft against V1 to V9 and keeps a valid one, or returns the first fault. No fault is about memory.
pub fn verify(draft: Draft) -> Result<Verified, VerifyFault>
    ensures value { IfOk result (λ v. v ≡ draft) }
    ensures exact { IsOk result ↔ IsValid draft }
    ensures refused { IfErr result (λ e. IsBroken draft e) }
    ensures first { IfErr result (λ e. IsFirstFault draft e) }
{
    match check_draft(&draft) {
        Ok(()) => Ok(sorted(draft)),
        Err(fault) => Err(fault),
    }
}

/// A valid draft, with the sorts of its parameters and variables.
fn sorted(draft: Draft) -> Verified
    requires { IsValid draft }
    ensures { result ≡ draft }
{
    let parameters = parameter_bits(draft.signals.as_slice());
    let variables = bits_of_variables(draft.processes.as_slice());
    Verified {
        draft,
        parameters,
        variables,
    }
}

/// Which variables of each process are Booleans, as bits.
fn bits_of_variables(processes: &[DraftProcess]) -> [u32; 16]
    requires few { length processes.now ≤ MOST_PROCESSES }
    requires small { All (λ (p : PlainProcess). length p.variables ≤ MOST_VARIABLES) processes.now }
    ensures { AreVariableBits processes.now result }
{
    let mut bits = [0; 16];
    for number in 0..processes.len() {
        bits[number] = variable_bits(processes[number].variables.as_slice());
    }
    bits
}

/// The bits at a place; 0 if there is no such place.
fn bits_at(bits: &[u32], place: usize) -> u32
    ensures { result ≡ slice_index_or bits.now place 0 }
{
    match bits.get(place) {
        Some(bits) => *bits,
        None => 0,
    }
}

impl Verified {
    ghost use Rattle.turn_check.specs.Certified.{IsCertified};

    /// The draft, which is always valid.
    pub fn draft(&self) -> &Draft
        ensures value { result.now ≡ self.now }
        ensures valid { IsValid self.now }
    {
        &self.draft
    }

    /// An equal set, or `AllocError` if memory runs out.
    pub fn copy(&self) -> Result<Verified, AllocError>
        ensures { IfOk result (λ v. v ≡ self.now) }
    {
        let draft = self.draft.copy()?;
        Ok(Verified {
            draft,
            parameters: self.parameters,
            variables: self.variables,
        })
    }

    /// Which parameters of the set's signals, and which variables of a process, are Booleans.
    pub fn sorts(&self, process: ProcessNumber) -> Sorts
        ensures { (p : PlainProcess) → slice_get self.now.processes process.0 ≡ Some p → AreSortsOf self.now.signals p.variables result }
    {
        Sorts {
            parameters: self.parameters,
            variables: bits_at(&self.variables, usize::from(process.0)),
        }
    }

    /// The counts of input `input` at a place of a process; none if there is no such input. START has the input 0.
    pub fn certificate(&self, process: ProcessNumber, place: Place, input: usize) -> Option<Cert>
        ensures value { result ≡ option_map (λ (t : Plain). t.piece.certificate) (transition_at self.now process.0 place input) }
        ensures longest { IfSome result (λ c. IsCertified self.now process.0 place input c) }
    {
        path_law();
        safe_law();
        self.keeps();
        match self.transition(process, place, input) {
            Some(transition) => Some(transition.piece.certificate),
            None => None,
        }
    }

    /// The transition of input `input` at a place of a process; none if there is no such input. START has the input 0.
    pub fn transition(
        &self,
        number: ProcessNumber,
        place: Place,
        input: usize,
    ) -> Option<Transition<'_>>
        ensures { option_map seen result ≡ transition_at self.now number.0 place input }
    {
        match self.draft.processes.as_slice().get(usize::from(number.0)) {
            Some(process) => match place {
                Place::Start => self.start_at(number, process, input),
                Place::State(state) => input_at(
                    self.draft.signals.as_slice(),
                    number,
                    process,
                    state,
                    input,
                ),
            },
            None => None,
        }
    }

    /// The START transition of a process for input 0; none for any other input.
    fn start_at<'a>(
        &self,
        number: ProcessNumber,
        process: &'a DraftProcess,
        input: usize,
    ) -> Option<Transition<'a>>
        requires { slice_get self.now.processes number.0 ≡ Some process.now }
        ensures { option_map seen result ≡ start_found number.0 process.now input }
    {
        match input {
            0 => Some(self.start(number, process)),
            _ => None,
        }
    }

    /// The START transition of a process.
    fn start<'a>(&self, number: ProcessNumber, process: &'a DraftProcess) -> Transition<'a>
        requires { slice_get self.now.processes number.0 ≡ Some process.now }
        ensures { seen result ≡ start_of number.0 process.now }
    {
        self.keeps();
        start_transition(number, process)
    }

    /// Tells the proof that the draft is valid; it does nothing at run time.
    fn keeps(&self)
        ensures { IsValid self.now }
    {
        let _ = &self.draft;
    }
}

/// The transition of an input of a state.
fn input_at<'a>(
    signals: &'a [DraftSignal],
    number: ProcessNumber,
    process: &'a DraftProcess,
    state: StateNumber,
    input: usize,
) -> Option<Transition<'a>>
    ensures { option_map seen result ≡ input_found signals.now number.0 process.now input (slice_get process.now.states state.0) }
{
    match process.states.as_slice().get(usize::from(state.0)) {
        Some(state) => match state.inputs.as_slice().get(input) {
            Some(found) => Some(input_transition(signals, number, process, state, found)),
            None => None,
        },
        None => None,
    }
}
