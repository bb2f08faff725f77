//! Whether a path through the transitions of a process reads a variable before it is set.
ghost use Rattle.std.specs.Prelude.{◌≡◌, ℕ, ◌<◌, ◌+◌, List, [], ◌∷◌, ◌++◌, length, IfOk, OnOk, IfSome, IfNone, vec_len};
ghost use Rattle.sdl_unset.specs.Graph.{has, ReadsUnset, IsShortest, IsSeen, Covers, IsClosed, IsClosedSet, AreEntered, IfUnset, IfSet};
ghost use Rattle.sdl_unset.specs.Order.{IsFirst, IsSorted, AreSorted};
ghost use Rattle.sdl_unset.specs.declared.paths.Step.TheVariants.{Input as By};
ghost use Rattle.sdl_unset.specs.Visits.{unseen, Grows, Adds, Enters, IsBy, IsByInput, ReadsBy, AreSafe, AreReached, AreVisited, StayInOrder, AreLevels, AreKept, AreUnder, AreNear, AreAllSorted, AreLeast};

use std::alloc::{AllocError, Global};

/// A way through a transition: the state in which it ends, and the variables that it doesn't set.
#[derive(Clone, Copy, Debug)]
pub struct Passage {
    /// The number of the state.
    pub state: usize,
    /// Bit v says that variable v isn't set on the way.
    pub keeps: u32,
}

/// The variables that the walks of a transition read unset, and those that they leave unset.
#[derive(Debug, Drop)]
pub struct Summary {
    /// Bit v says that some walk reads variable v before it sets it.
    pub reads: u32,
    /// The states in which walks end, with the variables that they leave unset, in the order of the states.
    pub passages: Vec<Passage>,
}

/// The transitions of a process, by number.
#[derive(Debug, Drop)]
pub struct Graph {
    /// The transition after START.
    pub start: Summary,
    /// The transitions of each state by number, in the order of its inputs.
    pub states: Vec<Vec<Summary>>,
}

/// A transition by its place. Steps are ordered as in the text.
#[derive(Clone, Copy, Debug, PartialEq, Eq, PartialOrd, Ord)]
pub enum Step {
    /// The transition after START.
    Start,
    /// The transition of an input: the number of the state, and the number of the input in this state.
    Input(usize, usize),
}

/// Whether a path reads a variable unset.
#[derive(Debug, Drop)]
pub enum Fate {
    /// The transitions of this path read it unset.
    Unset(Vec<Step>),
    /// No path reads it unset. Each state, by number, has a mark if a path enters it with the variable unset.
    Set(Vec<bool>),
}

/// A state that the search has reached, and a path to it.
#[derive(Drop)]
struct Visit {
    state: usize,
    path: Vec<Step>,
}

/// Whether bit `variable` is set.
fn contains(bits: u32, variable: u32) -> bool
    requires { variable < 32 }
    ensures { result ≡ has bits variable }
{
    (bits >> variable) & 1 == 1
}

/// The path with this step added at its end.
fn extended(alloc: Global, path: &[Step], step: Step) -> Result<Vec<Step>, AllocError>
    ensures { IfOk result (λ v. v.items ≡ path.now ++ step ∷ []) }
{
    let mut longer = Vec::from_slice(alloc, path)?;
    longer.push(step)?;
    Ok(longer)
}

/// Adds a visit of a state, if there is such a state and the search hasn't seen it yet.
fn see(
    alloc: Global,
    state: usize,
    path: &[Step],
    seen: &mut Vec<bool>,
    visits: &mut Vec<Visit>,
) -> Result<(), AllocError>
    ensures grows { OnOk result (Grows seen.old.items visits.old.items seen.new.items visits.new.items) }
    ensures seen { OnOk result (IsSeen seen.new.items state) }
    ensures adds { OnOk result (Adds state path.now visits.old.items visits.new.items) }
    ensures order { OnOk result (StayInOrder (length path.now) visits.old.items visits.new.items) }
    ensures kept { OnOk result ((q : ℕ) → state < q → AreKept path.now state visits.old.items → AreKept path.now q visits.new.items) }
{
    if state >= seen.len() || seen[state] {
        return Ok(());
    }
    let path = Vec::from_slice(alloc, path)?;
    visits.push(Visit { state, path })?;
    seen[state] = true;
    Ok(())
}

/// Adds a visit of each state to which a passage leads with the variable unset, if the search hasn't seen it yet.
fn enter(
    alloc: Global,
    passages: &[Passage],
    path: &[Step],
    variable: u32,
    seen: &mut Vec<bool>,
    visits: &mut Vec<Visit>,
) -> Result<(), AllocError>
    requires { variable < 32 }
    ensures grows { OnOk result (Grows seen.old.items visits.old.items seen.new.items visits.new.items) }
    ensures covers { OnOk result (Covers passages.now variable seen.new.items) }
    ensures enters { OnOk result (Enters (IsBy passages.now variable path.now) visits.old.items visits.new.items) }
    ensures order { OnOk result (StayInOrder (length path.now) visits.old.items visits.new.items) }
    ensures kept { OnOk result (AreSorted passages.now → AreKept path.now 0 visits.old.items → AreUnder path.now visits.new.items) }
{
    for passage in passages {
        if contains(passage.keeps, variable) {
            see(alloc, passage.state, path, seen, visits)?;
        }
    }
    Ok(())
}

/// Goes through the inputs of a state. Returns the path to one that reads the variable, or visits the next states.
fn expand(
    alloc: Global,
    inputs: &[Summary],
    state: usize,
    path: &[Step],
    variable: u32,
    seen: &mut Vec<bool>,
    visits: &mut Vec<Visit>,
) -> Result<Option<Vec<Step>>, AllocError>
    requires { variable < 32 }
    ensures found { IfOk result (λ o. IfSome o (λ longer. ReadsBy inputs.now variable state path.now longer.items)) }
    ensures grows { OnOk result (Grows seen.old.items visits.old.items seen.new.items visits.new.items) }
    ensures enters { OnOk result (Enters (IsByInput inputs.now variable state path.now) visits.old.items visits.new.items) }
    ensures order { OnOk result (StayInOrder (length path.now + 1) visits.old.items visits.new.items) }
    ensures none { IfOk result (λ o. IfNone o (AreSafe inputs.now variable seen.new.items)) }
    ensures kept { OnOk result (AreAllSorted inputs.now → AreKept (path.now ++ By state 0 ∷ []) 0 visits.old.items
        → (n : ℕ) × AreKept (path.now ++ By state n ∷ []) 0 visits.new.items) }
    ensures near { IfOk result (λ o. IfNone o (AreAllSorted inputs.now → AreKept (path.now ++ By state 0 ∷ []) 0 visits.old.items
        → AreVisited seen.old.items visits.old.items
        → AreNear (length seen.old.items) variable visits.new.items path.now state inputs.now (length inputs.now))) }
{
    for (number, summary) in inputs.iter().enumerate() {
        let longer = extended(alloc, path, Step::Input(state, number))?;
        if contains(summary.reads, variable) {
            return Ok(Some(longer));
        }
        enter(alloc, &summary.passages, &longer, variable, seen, visits)?;
    }
    Ok(None)
}

/// Searches for a path that reads the variable unset. Returns one with the fewest transitions, and of these the first
/// in the order of the text, if each transition has its passages in the order of the states. The first transition in
/// which two paths differ decides which comes first. `variable` is below 32. A passage to a state that the graph lacks
/// leads nowhere. Fails only if memory runs out.
pub fn first_unset(alloc: Global, graph: &Graph, variable: u32) -> Result<Fate, AllocError>
    requires { variable < 32 }
    ensures found { IfOk result (λ f. IfUnset f (λ path. ReadsUnset graph.now variable path.items)) }
    ensures fewest { IfOk result (λ f. IfUnset f (λ path. IsShortest graph.now variable path.items)) }
    ensures first { IfOk result (λ f. IfUnset f (λ path. IsSorted graph.now → IsFirst graph.now variable path.items)) }
    ensures none { IfOk result (λ f. IfSet f (λ _. (path : List Step) → ReadsUnset graph.now variable path → ⊥)) }
    ensures closed { IfOk result (λ f. IfSet f (λ marks. IsClosedSet graph.now variable marks.items)) }
    ensures entered { IfOk result (λ f. IfSet f (λ marks. AreEntered graph.now variable marks.items)) }
{
    let start = extended(alloc, &[], Step::Start)?;
    if contains(graph.start.reads, variable) {
        return Ok(Fate::Unset(start));
    }
    let mut seen = vec![in alloc; false; graph.states.len()]?;
    let mut visits = Vec::new(alloc);
    enter(
        alloc,
        &graph.start.passages,
        &start,
        variable,
        &mut seen,
        &mut visits,
    )?;
    match search(alloc, graph, variable, &mut seen, &mut visits)? {
        Some(path) => Ok(Fate::Unset(path)),
        None => Ok(Fate::Set(seen)),
    }
}

/// Expands the visits in turn until it finds a path or has visited every state that can be reached.
fn search(
    alloc: Global,
    graph: &Graph,
    variable: u32,
    seen: &mut Vec<bool>,
    visits: &mut Vec<Visit>,
) -> Result<Option<Vec<Step>>, AllocError>
    requires variable { variable < 32 }
    requires states { vec_len seen.old ≡ vec_len graph.now.states }
    requires reached { AreReached graph.now variable visits.old.items }
    requires visited { AreVisited seen.old.items visits.old.items }
    requires count { length visits.old.items + unseen seen.old.items ≡ length seen.old.items }
    requires levels { AreLevels graph.now variable visits.old.items 0 }
    requires least { IsSorted graph.now → AreLeast graph.now variable visits.old.items 0 }
    ensures found { IfOk result (λ o. IfSome o (λ path. ReadsUnset graph.now variable path.items)) }
    ensures fewest { IfOk result (λ o. IfSome o (λ path. IsShortest graph.now variable path.items)) }
    ensures first { IfOk result (λ o. IfSome o (λ path. IsSorted graph.now → IsFirst graph.now variable path.items)) }
    ensures states { OnOk result (length seen.new.items ≡ length seen.old.items) }
    ensures stays { OnOk result ((s : ℕ) → IsSeen seen.old.items s → IsSeen seen.new.items s) }
    ensures none { IfOk result (λ o. IfNone o (IsClosed graph.now variable seen.new.items)) }
    ensures entered { IfOk result (λ o. IfNone o (AreEntered graph.now variable seen.new.items)) }
{
    let mut next = 0;
    while next < visits.len() {
        let visit = &visits[next];
        let state = visit.state;
        let path = Vec::from_slice(alloc, visit.path.as_slice())?;
        if state < graph.states.len() {
            let inputs = &graph.states[state];
            let found = expand(alloc, inputs, state, &path, variable, seen, visits)?;
            if found.is_some() {
                return Ok(found);
            }
        }
        next += 1;
    }
    Ok(None)
}
