//! Runs both steppers at each place of a set.

use crate::alike::are_alike;
use crate::inputs::{input_of, operands_of};
use crate::sorted::{machine_with, step_sorted};
use crate::stepping::step_words;
use turn_check::{Transition, Verified};
use turn_code::{Place, ProcessNumber, StateNumber};

/// How many steps were alike, how many were not, and for how many places and turns there was none.
#[derive(Clone, Copy, PartialEq, Eq, Debug)]
pub struct Tally {
    pub steps: u32,
    pub unlike: u32,
    pub left_out: u32,
}

impl Tally {
    /// Counts one more place and turn.
    fn add(&mut self, alike: Option<bool>) {
        match alike {
            Some(true) => self.steps = self.steps.wrapping_add(1),
            Some(false) => self.unlike = self.unlike.wrapping_add(1),
            None => self.left_out = self.left_out.wrapping_add(1),
        }
    }
}

/// Whether both steps at a place of a transition's code are alike in a turn; `None` if no values are allowed there.
fn alike_at(
    set: &Verified,
    process: ProcessNumber,
    from: Place,
    number: usize,
    place: usize,
    turn: i32,
) -> Option<bool> {
    let transition = set.transition(process, from, number)?;
    let facts = transition.piece.facts.as_slice().get(place)?;
    let operands = operands_of(facts.shape.as_slice(), turn);
    let input = input_of(set, process, from, number, turn)?;
    let stepped = step_words(set, process, from, number, place, &operands, &input)?;
    let mut machine = machine_with(&input, operands.as_slice());
    let sorted = step_sorted(
        transition.piece.code.as_slice(),
        &input,
        place,
        &mut machine,
    )?;
    Some(are_alike(sorted, &mut machine, &stepped, input.sender))
}

/// Counts both steps at each place of a transition's code, in sixteen turns.
fn step_all(
    tally: &mut Tally,
    set: &Verified,
    process: ProcessNumber,
    from: Place,
    number: usize,
    transition: &Transition<'_>,
) {
    for place in 0..transition.piece.code.len() {
        for turn in 0..16i32 {
            tally.add(alike_at(set, process, from, number, place, turn));
        }
    }
}

/// Counts the steps of an input's transition, if it exists.
fn step_input(
    tally: &mut Tally,
    set: &Verified,
    process: ProcessNumber,
    from: Place,
    number: usize,
) {
    if let Some(transition) = set.transition(process, from, number) {
        step_all(tally, set, process, from, number, &transition);
    }
}

/// Counts the steps of all transitions of a process.
fn step_process(tally: &mut Tally, set: &Verified, process: ProcessNumber) {
    step_input(tally, set, process, Place::Start, 0);
    for state in 0..set.state_count(process).min(256) {
        let state = StateNumber(state as u8);
        for number in 0..set.input_count(process, state) {
            step_input(tally, set, process, Place::State(state), number);
        }
    }
}

/// Counts the steps of all transitions of a set.
pub fn tally_of(set: &Verified) -> Tally {
    let mut tally = Tally {
        steps: 0,
        unlike: 0,
        left_out: 0,
    };
    for process in 0..set.process_count().min(256) {
        step_process(&mut tally, set, ProcessNumber(process as u8));
    }
    tally
}
