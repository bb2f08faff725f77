//! The variables that the walks up to some place may read and leave unset, for all variables at once.
ghost use Rattle.std.specs.Prelude.{◌≡◌, ◌<◌, ◌==◌, ◌&&◌, ◌||◌, ℕ, false, List, length, IfOk, All};
ghost use Rattle.sdl_unset.specs.Graph.{has};
ghost use Rattle.sdl_ast.specs.Plain.{PlainProcess};
ghost use Rattle.sdl_tables.specs.Names.{states_of};
ghost use Rattle.sdl_sound.specs.Paths.{Event, reads};
ghost use Rattle.sdl_sound.specs.Chances.{no_chances, leaving, event_chances};
ghost use Rattle.sdl_unset.specs.Flows.{Does, mask_at, Doings, Stands, Walked};

use crate::firsts::Firsts;
use crate::flow::Flow;
use std::alloc::{AllocError, Global};

/// What the walks up to some place may do. Bit v stands for variable v.
#[derive(Drop)]
pub(crate) struct Walker {
    /// Some walk reads the variable before it sets it.
    pub reads: u32,
    /// Some walk comes to the place and doesn't set the variable.
    pub leaves: u32,
    /// For each state by number: some walk ends in the state and doesn't set the variable.
    pub enters: Vec<u32>,
    /// The first place where a walk reads each variable so.
    pub firsts: Firsts,
}

/// An empty mask for each of `count` states.
fn empty_masks(alloc: Global, count: usize) -> Result<Vec<u32>, AllocError>
    ensures count { IfOk result (λ masks. length masks.items ≡ count) }
    ensures empty { IfOk result (λ masks. (q : ℕ) → mask_at masks.items q ≡ 0) }
{
    let mut masks = Vec::new(alloc);
    for _state in 0..count {
        masks.push(0)?;
    }
    Ok(masks)
}

/// The mask of a state; 0 if there is no such state.
fn mask_of(masks: &[u32], state: usize) -> u32
    ensures { result ≡ mask_at masks.now state }
{
    match masks.get(state) {
        None => 0,
        Some(mask) => *mask,
    }
}

/// Adds the bits of a mask to those of a state, if there is such a state.
fn add_mask(masks: &mut Vec<u32>, state: usize, mask: u32)
    ensures count { length masks.new.items ≡ length masks.old.items }
    ensures bits { state < length masks.old.items → (v q : ℕ)
        → has (mask_at masks.new.items q) v ≡ (has (mask_at masks.old.items q) v || (has mask v && (state == q))) }
{
    if state < masks.len() {
        masks[state] |= mask;
    }
}

/// Adds the masks of `others`, for the variables that `keeps` leaves unset.
fn add_masks(masks: &mut Vec<u32>, keeps: u32, others: &[u32])
    ensures count { length masks.new.items ≡ length masks.old.items }
    ensures bits { length others.now ≡ length masks.old.items → (v q : ℕ)
        → has (mask_at masks.new.items q) v ≡ (has (mask_at masks.old.items q) v || (has keeps v && has (mask_at others.now q) v)) }
{
    for state in 0..masks.len() {
        masks[state] |= keeps & mask_of(others, state);
    }
}

impl Walker {
    /// The walker at the beginning of a text.
    pub fn at_start(alloc: Global, states: usize) -> Result<Walker, AllocError>
        ensures { IfOk result (λ w. (p : PlainProcess) → length (states_of p) ≡ states → Stands p (λ x q. leaving) w) }
    {
        let enters = empty_masks(alloc, states)?;
        Ok(Walker {
            reads: 0,
            leaves: u32::MAX,
            enters,
            firsts: Firsts::none(),
        })
    }

    /// The walker at a place that no walk reaches.
    fn nowhere(alloc: Global, states: usize) -> Result<Walker, AllocError>
        ensures { IfOk result (λ w. (p : PlainProcess) → length (states_of p) ≡ states → Stands p (λ x q. no_chances) w) }
    {
        let enters = empty_masks(alloc, states)?;
        Ok(Walker {
            reads: 0,
            leaves: 0,
            enters,
            firsts: Firsts::none(),
        })
    }

    /// Goes on through a part that every walk passes.
    pub fn pass(&mut self, flow: Flow)
        ensures { (p : PlainProcess) (events : List Event) → Does p events flow → Walked p (λ x q. event_chances events x) self.old self.new }
    {
        self.reads |= self.leaves & flow.reads;
        self.firsts = self
            .firsts
            .followed_by(self.leaves & flow.reads, &flow.firsts);
        self.leaves &= flow.keeps;
    }

    /// Ends all walks.
    pub fn stop(&mut self)
        ensures { (p : PlainProcess) → Walked p (λ x q. no_chances) self.old self.new }
    {
        self.leaves = 0;
    }

    /// Ends all walks in a state.
    pub fn enter(&mut self, state: usize)
        ensures { (p : PlainProcess) → state < length (states_of p)
            → Walked p (λ x q. record { reads = false; leaves = false; enters = state == q }) self.old self.new }
    {
        add_mask(&mut self.enters, state, self.leaves);
        self.leaves = 0;
    }

    /// Goes on through a part with several walks, given its own walker.
    pub fn join(&mut self, other: &Walker)
        ensures { (p : PlainProcess) (c : Doings) → Stands p c other.now → Walked p c self.old self.new }
    {
        self.reads |= self.leaves & other.reads;
        self.firsts = self
            .firsts
            .followed_by(self.leaves & other.reads, &other.firsts);
        add_masks(&mut self.enters, self.leaves, &other.enters);
        self.leaves &= other.leaves;
    }
}

/// Walkers at places that no walk reaches.
pub(crate) fn idle_walkers(
    alloc: Global,
    states: usize,
    count: usize,
) -> Result<Vec<Walker>, AllocError>
    ensures count { IfOk result (λ ws. length ws.items ≡ count) }
    ensures idle { IfOk result (λ ws. (p : PlainProcess) → length (states_of p) ≡ states → All (Stands p (λ x q. no_chances)) ws.items) }
{
    let mut walkers = Vec::new(alloc);
    for _number in 0..count {
        walkers.push(Walker::nowhere(alloc, states)?)?;
    }
    Ok(walkers)
}
