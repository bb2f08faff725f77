//! The draft for a set of plain data, and the result of `verify`.
use crate::plans::{Claim, P, Plan, Recipe, UP, Verdict};
use std::alloc::{AllocError, Global};
use turn_check::{Verified, verify};
use turn_code::{
    Cert, Draft, DraftInput, DraftPiece, DraftProcess, DraftRoute, DraftSignal, DraftState,
    DraftVariable, Name, Party, PlaceFacts, Sequence, Sort, Value, VariableSet,
};

fn one<T: Drop>(alloc: Global, item: T) -> Result<Sequence<T>, AllocError> {
    let mut items = Vec::new(alloc);
    items.push(item)?;
    Ok(Sequence::from(items))
}

fn list<T: Copy>(alloc: Global, items: &[T]) -> Result<Sequence<T>, AllocError> {
    Ok(Sequence::from(Vec::from_slice(alloc, items)?))
}

fn named(text: &str) -> Result<Name, AllocError> {
    Name::from_bytes(text.as_bytes()).ok_or(AllocError)
}

pub fn facts(alloc: Global, claim: &Claim) -> Result<PlaceFacts, AllocError> {
    let Claim(shape, set, count, effects) = *claim;
    Ok(PlaceFacts {
        shape: list(alloc, shape)?,
        set: VariableSet(set),
        count,
        effects,
    })
}

fn all_facts(alloc: Global, claims: &[Claim]) -> Result<Sequence<PlaceFacts>, AllocError> {
    let mut all = Vec::new(alloc);
    for claim in claims {
        all.push(facts(alloc, claim)?)?;
    }
    Ok(Sequence::from(all))
}

fn piece(alloc: Global, plan: &Plan) -> Result<DraftPiece, AllocError> {
    let (budget, depth, effects) = plan.counts;
    Ok(DraftPiece {
        code: list(alloc, plan.code)?,
        facts: all_facts(alloc, plan.claims)?,
        certificate: Cert {
            budget,
            depth,
            effects,
        },
    })
}

fn input(alloc: Global, recipe: &Recipe) -> Result<DraftInput, AllocError> {
    Ok(DraftInput {
        trigger: recipe.trigger,
        piece: piece(alloc, &recipe.up)?,
    })
}

fn state(alloc: Global, recipe: &Recipe) -> Result<DraftState, AllocError> {
    Ok(DraftState {
        name: named("Run")?,
        set: VariableSet(2),
        saves: list(alloc, recipe.saves)?,
        inputs: one(alloc, input(alloc, recipe)?)?,
    })
}

fn bare_state(alloc: Global) -> Result<DraftState, AllocError> {
    Ok(DraftState {
        name: named("S")?,
        set: VariableSet(0),
        saves: Sequence::from(Vec::new(alloc)),
        inputs: Sequence::from(Vec::new(alloc)),
    })
}

fn states(alloc: Global, recipe: &Recipe) -> Result<Sequence<DraftState>, AllocError> {
    let mut all = Vec::new(alloc);
    all.push(state(alloc, recipe)?)?;
    for _ in 0..recipe.more {
        all.push(bare_state(alloc)?)?;
    }
    Ok(Sequence::from(all))
}

fn integer(text: &str, initial: Option<Value>) -> Result<DraftVariable, AllocError> {
    Ok(DraftVariable {
        name: named(text)?,
        sort: Sort::Integer,
        initial,
    })
}

fn variables(alloc: Global, initial: Option<Value>) -> Result<Sequence<DraftVariable>, AllocError> {
    let mut both = Vec::new(alloc);
    both.push(integer("n", initial)?)?;
    both.push(integer("total", None)?)?;
    Ok(Sequence::from(both))
}

fn process(alloc: Global, recipe: &Recipe, start: DraftPiece) -> Result<DraftProcess, AllocError> {
    Ok(DraftProcess {
        name: named("P")?,
        instances: recipe.instances,
        variables: variables(alloc, recipe.initial)?,
        timers: one(alloc, named("Tick")?)?,
        start,
        states: states(alloc, recipe)?,
    })
}

fn signal(alloc: Global, recipe: &Recipe) -> Result<DraftSignal, AllocError> {
    Ok(DraftSignal {
        name: named("Up")?,
        parameters: list(alloc, recipe.parameters)?,
    })
}

fn route(alloc: Global, from: Party, to: Party) -> Result<DraftRoute, AllocError> {
    Ok(DraftRoute {
        from,
        to,
        signals: one(alloc, UP)?,
    })
}

fn routes(alloc: Global) -> Result<Sequence<DraftRoute>, AllocError> {
    let mut both = Vec::new(alloc);
    both.push(route(alloc, Party::Environment, Party::Process(P))?)?;
    both.push(route(alloc, Party::Process(P), Party::Environment)?)?;
    Ok(Sequence::from(both))
}

/// The draft of a set with this START in place of its own.
fn draft_with(alloc: Global, recipe: &Recipe, start: DraftPiece) -> Result<Draft, AllocError> {
    Ok(Draft {
        processes: one(alloc, process(alloc, recipe, start)?)?,
        signals: one(alloc, signal(alloc, recipe)?)?,
        routes: routes(alloc)?,
    })
}

fn draft(alloc: Global, recipe: &Recipe) -> Result<Draft, AllocError> {
    draft_with(alloc, recipe, piece(alloc, &recipe.start)?)
}

fn judged(draft: Draft) -> Verdict {
    match verify(draft) {
        Ok(_) => Verdict::Accepted,
        Err(fault) => Verdict::Refused(fault.rule(), fault.spot()),
    }
}

/// The result of `verify` for a set.
pub fn tried(alloc: Global, recipe: &Recipe) -> Verdict {
    match draft(alloc, recipe) {
        Ok(draft) => judged(draft),
        Err(_) => Verdict::NotMade,
    }
}

/// The result of `verify` for a set with this START in place of its own.
pub fn tried_with(alloc: Global, recipe: &Recipe, start: DraftPiece) -> Verdict {
    match draft_with(alloc, recipe, start) {
        Ok(draft) => judged(draft),
        Err(_) => Verdict::NotMade,
    }
}

/// The set, if it is accepted.
pub fn made(alloc: Global, recipe: &Recipe) -> Option<Verified> {
    verify(draft(alloc, recipe).ok()?).ok()
}
