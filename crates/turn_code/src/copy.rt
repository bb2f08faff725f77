//! Copies of drafts, in newly allocated memory.

ghost use Rattle.std.specs.Prelude.{◌≡◌, IfOk};

use crate::draft::{
    Draft, DraftInput, DraftPiece, DraftProcess, DraftRoute, DraftSignal, DraftState,
    DraftVariable, PlaceFacts,
};
use crate::name::Name;
use crate::sequence::Sequence;
use std::alloc::AllocError;

impl Draft {
    /// An equal draft, or `AllocError` if memory runs out.
    pub fn copy(&self) -> Result<Draft, AllocError>
        ensures { IfOk result (λ draft. draft ≡ self.now) }
    {
        Ok(Draft {
            signals: copied_signals(&self.signals)?,
            routes: copied_routes(&self.routes)?,
            processes: copied_processes(&self.processes)?,
        })
    }
}

/// Equal signals, or `AllocError` if memory runs out.
fn copied_signals(signals: &Sequence<DraftSignal>) -> Result<Sequence<DraftSignal>, AllocError>
    ensures { IfOk result (λ copy. copy ≡ signals.now) }
{
    let mut copy = signals.room()?;
    for signal in signals.as_slice() {
        copy.push(signal.copy()?)?;
    }
    Ok(Sequence::from(copy))
}

/// Equal routes, or `AllocError` if memory runs out.
fn copied_routes(routes: &Sequence<DraftRoute>) -> Result<Sequence<DraftRoute>, AllocError>
    ensures { IfOk result (λ copy. copy ≡ routes.now) }
{
    let mut copy = routes.room()?;
    for route in routes.as_slice() {
        copy.push(route.copy()?)?;
    }
    Ok(Sequence::from(copy))
}

/// Equal processes, or `AllocError` if memory runs out.
fn copied_processes(
    processes: &Sequence<DraftProcess>,
) -> Result<Sequence<DraftProcess>, AllocError>
    ensures { IfOk result (λ copy. copy ≡ processes.now) }
{
    let mut copy = processes.room()?;
    for process in processes.as_slice() {
        copy.push(process.copy()?)?;
    }
    Ok(Sequence::from(copy))
}

impl DraftSignal {
    /// An equal signal, or `AllocError` if memory runs out.
    fn copy(&self) -> Result<DraftSignal, AllocError>
        ensures { IfOk result (λ signal. signal ≡ self.now) }
    {
        Ok(DraftSignal {
            name: self.name.copy(),
            parameters: self.parameters.copy()?,
        })
    }
}

impl DraftRoute {
    /// An equal route, or `AllocError` if memory runs out.
    fn copy(&self) -> Result<DraftRoute, AllocError>
        ensures { IfOk result (λ route. route ≡ self.now) }
    {
        Ok(DraftRoute {
            from: self.from,
            to: self.to,
            signals: self.signals.copy()?,
        })
    }
}

impl DraftProcess {
    /// An equal process, or `AllocError` if memory runs out.
    fn copy(&self) -> Result<DraftProcess, AllocError>
        ensures { IfOk result (λ process. process ≡ self.now) }
    {
        Ok(DraftProcess {
            name: self.name.copy(),
            instances: self.instances,
            variables: copied_variables(&self.variables)?,
            timers: copied_names(&self.timers)?,
            start: self.start.copy()?,
            states: copied_states(&self.states)?,
        })
    }
}

/// Equal variables, or `AllocError` if memory runs out.
fn copied_variables(
    variables: &Sequence<DraftVariable>,
) -> Result<Sequence<DraftVariable>, AllocError>
    ensures { IfOk result (λ copy. copy ≡ variables.now) }
{
    let mut copy = variables.room()?;
    for variable in variables.as_slice() {
        copy.push(variable.copy())?;
    }
    Ok(Sequence::from(copy))
}

/// Equal names, or `AllocError` if memory runs out.
fn copied_names(names: &Sequence<Name>) -> Result<Sequence<Name>, AllocError>
    ensures { IfOk result (λ copy. copy ≡ names.now) }
{
    let mut copy = names.room()?;
    for name in names.as_slice() {
        copy.push(name.copy())?;
    }
    Ok(Sequence::from(copy))
}

/// Equal states, or `AllocError` if memory runs out.
fn copied_states(states: &Sequence<DraftState>) -> Result<Sequence<DraftState>, AllocError>
    ensures { IfOk result (λ copy. copy ≡ states.now) }
{
    let mut copy = states.room()?;
    for state in states.as_slice() {
        copy.push(state.copy()?)?;
    }
    Ok(Sequence::from(copy))
}

impl DraftVariable {
    /// A copy of the variable. It allocates no memory.
    fn copy(&self) -> DraftVariable
        ensures { result ≡ self.now }
    {
        DraftVariable {
            name: self.name.copy(),
            sort: self.sort,
            initial: self.initial,
        }
    }
}

impl DraftState {
    /// An equal state, or `AllocError` if memory runs out.
    fn copy(&self) -> Result<DraftState, AllocError>
        ensures { IfOk result (λ state. state ≡ self.now) }
    {
        Ok(DraftState {
            name: self.name.copy(),
            set: self.set,
            saves: self.saves.copy()?,
            inputs: copied_inputs(&self.inputs)?,
        })
    }
}

/// Equal inputs, or `AllocError` if memory runs out.
fn copied_inputs(inputs: &Sequence<DraftInput>) -> Result<Sequence<DraftInput>, AllocError>
    ensures { IfOk result (λ copy. copy ≡ inputs.now) }
{
    let mut copy = inputs.room()?;
    for input in inputs.as_slice() {
        copy.push(input.copy()?)?;
    }
    Ok(Sequence::from(copy))
}

impl DraftInput {
    /// An equal input, or `AllocError` if memory runs out.
    fn copy(&self) -> Result<DraftInput, AllocError>
        ensures { IfOk result (λ input. input ≡ self.now) }
    {
        Ok(DraftInput {
            trigger: self.trigger,
            piece: self.piece.copy()?,
        })
    }
}

impl DraftPiece {
    /// An equal piece, or `AllocError` if memory runs out.
    fn copy(&self) -> Result<DraftPiece, AllocError>
        ensures { IfOk result (λ piece. piece ≡ self.now) }
    {
        Ok(DraftPiece {
            code: self.code.copy()?,
            facts: copied_facts(&self.facts)?,
            certificate: self.certificate,
        })
    }
}

/// Equal facts, or `AllocError` if memory runs out.
fn copied_facts(facts: &Sequence<PlaceFacts>) -> Result<Sequence<PlaceFacts>, AllocError>
    ensures { IfOk result (λ copy. copy ≡ facts.now) }
{
    let mut copy = facts.room()?;
    for fact in facts.as_slice() {
        copy.push(fact.copy()?)?;
    }
    Ok(Sequence::from(copy))
}

impl PlaceFacts {
    /// The equal facts of a place, or `AllocError` if memory runs out.
    fn copy(&self) -> Result<PlaceFacts, AllocError>
        ensures { IfOk result (λ facts. facts ≡ self.now) }
    {
        Ok(PlaceFacts {
            shape: self.shape.copy()?,
            set: self.set,
            count: self.count,
            effects: self.effects,
        })
    }
}
