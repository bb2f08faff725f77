//! Compares turns by two steppers, on words and on values with their sorts. Each transition of a set runs on ten
//! inputs, with numbers at the ends of their range, and each of its places is stepped from.

ghost use Rattle.std.specs.Prelude.{IfSome};
ghost use Rattle.turn_code.specs.Fits.{Fits};

use crate::sorted::has_room;
use crate::tally::tally_of as steps_of;
use arrayvec::ArrayVec;
use mtp2_text::{LoadFault, load, monitors, standard};
use turn_check::Verified;
use turn_code::{
    Address, After, DraftVariable, Effect, End, Input, Instruction, Machine, Operands, Party,
    Place, ProcessNumber, Sort, StateNumber, Value, copied_variables, same_variables, step_plain,
};
use turn_machine::{Received, fits, new_machine, run_in};

/// All operations, relations and effects; parameters and variables of both sorts; OUTPUTs TO SENDER; joining branches.
const MILL: &str = "BLOCK Mill;
SIGNAL Ask(Integer, Boolean, Integer, Boolean), Told(Integer, Boolean, Integer, Boolean), Push, Count(Integer);
SIGNALROUTE hands FROM ENV TO Wheel WITH Ask, Push;
SIGNALROUTE voice FROM Wheel TO ENV WITH Told, Count;
PROCESS Wheel;
DCL n, m Integer := 0, b, c Boolean := FALSE, k Integer := 7;
TIMER Pause;
START;
  TASK n := -2147483647 - 1, m := 2147483647;
  OUTPUT Told(m + 1, n < m, n * m, NOT b);
  NEXTSTATE Ready;
STATE Ready;
  INPUT Ask(n, b, m, c);
    TASK k := (n / 7) * 3 - m MOD 5 + n REM 11, b := b AND c OR (b XOR c), c := (b = c) OR (n /= m);
    DECISION n;
      (-2147483647 : -1, 100): OUTPUT Told(-n, b, k, c) TO SENDER;
      (> 5, = 1): TASK m := -m;
      ELSE: OUTPUT Told(n, m >= k, m, n <= k) TO SENDER;
    ENDDECISION;
    DECISION b;
      (TRUE): SET(NOW + k, Pause);
      (FALSE): RESET(Pause);
    ENDDECISION;
    JOIN back;
  INPUT Push;
    TASK n := n + 1, k := k - n, b := n > m;
    OUTPUT Count(k) TO SENDER;
    JOIN back;
  INPUT Pause;
    TASK n := -k;
    STOP;
ENDSTATE Ready;
CONNECTION back:
  TASK c := NOT c;
  NEXTSTATE Ready;
ENDCONNECTION back;
ENDPROCESS Wheel;
ENDBLOCK Mill;";

/// A value of a sort. The Integers include both ends of their range and values about 0; the Booleans alternate.
fn value_of(sort: Sort, turn: u32) -> Value {
    match sort {
        Sort::Boolean => Value::Bool(turn % 2 == 1),
        Sort::Integer => match turn % 5 {
            0 => Value::Int(i32::MIN),
            1 => Value::Int(i32::MAX),
            2 => Value::Int(0),
            3 => Value::Int(-1),
            _ => Value::Int(1),
        },
    }
}

/// A value for each variable, at most 32.
fn values_of(variables: &[DraftVariable], turn: u32) -> ArrayVec<Option<Value>, 32> {
    let mut values = ArrayVec::new();
    let mut next = turn;
    for variable in variables {
        if values.len() < 32 {
            values.push(Some(value_of(variable.sort, next)));
        }
        next = next.wrapping_add(1);
    }
    values
}

/// A value for each parameter, at most 4.
fn parameters_of(sorts: &[Sort], turn: u32) -> ArrayVec<Value, 4> {
    let mut values = ArrayVec::new();
    let mut next = turn;
    for sort in sorts {
        if values.len() < 4 {
            values.push(value_of(*sort, next));
        }
        next = next.wrapping_add(3);
    }
    values
}

/// The parties of a set by number: the environment first, then its processes.
fn sender_of(number: u8) -> Address {
    Address {
        party: match number {
            0 => Party::Environment,
            _ => Party::Process(ProcessNumber(number - 1)),
        },
        instance: None,
    }
}

/// Runs code from its first instruction on a machine set up for an input. `None` if it takes over 512 instructions.
fn run_sorted(code: &[Instruction], input: &Input, machine: &mut Machine) -> Option<End> {
    let mut place = 0;
    for _ in 0..512u32 {
        if machine.count >= 512 || !has_room(code, place, machine) {
            return None;
        }
        match step_plain(code, input, place, machine) {
            After::Goes(next) => place = next,
            After::Ends(end) => return Some(end),
            After::Stuck(_) => return None,
        }
    }
    None
}

/// How many runs there were, and in how many of them the two steppers differed.
#[derive(Clone, Copy, PartialEq, Eq, Debug)]
struct Tally {
    runs: u32,
    unlike: u32,
}

impl Tally {
    /// Counts one more run.
    fn add(&mut self, alike: bool) {
        self.runs = self.runs.wrapping_add(1);
        if !alike {
            self.unlike = self.unlike.wrapping_add(1);
        }
    }
}

/// Whether the effects are the same.
fn same_effects(one: &[Effect], other: &[Effect]) -> bool {
    for place in 0..one.len() {
        match other.get(place) {
            Some(like) if one[place].same(like) => {}
            _ => return false,
        }
    }
    one.len() == other.len()
}

/// Whether two machines have the same variables, effects and number of instructions.
fn are_alike(one: &Machine, other: &Machine) -> bool {
    one.count == other.count
        && same_variables(one.variables.as_slice(), other.variables.as_slice())
        && same_effects(one.effects.as_slice(), other.effects.as_slice())
}

/// The parameters and the sender of an input in a turn, from the first party that may send it.
fn received(
    set: &Verified,
    process: ProcessNumber,
    place: Place,
    number: usize,
    turn: u32,
) -> Option<Input>
    ensures { IfSome result (λ input. Fits set.now process.0 place number input) }
{
    let transition = set.transition(process, place, number)?;
    let variables = values_of(transition.process.variables.as_slice(), turn);
    for sender in 0..17u8 {
        let received = Received {
            parameters: parameters_of(transition.parameters, turn),
            sender: Some(sender_of(sender)),
        };
        if fits(set, process, place, number, &variables, &received) {
            return Some(Input {
                variables,
                parameters: received.parameters,
                sender: received.sender,
            });
        }
    }
    None
}

/// Runs a transition in a turn by both steppers. `None` if no input fits it.
fn run_both(
    tally: &mut Tally,
    set: &Verified,
    process: ProcessNumber,
    place: Place,
    number: usize,
    turn: u32,
) {
    let Some(transition) = set.transition(process, place, number) else {
        return;
    };
    let Some(input) = received(set, process, place, number, turn) else {
        return;
    };
    let mut sorted = Machine {
        operands: Operands::new(),
        variables: copied_variables(&input.variables),
        effects: ArrayVec::new(),
        count: 0,
    };
    let plain = run_sorted(transition.piece.code.as_slice(), &input, &mut sorted);
    let mut machine = new_machine();
    let end = run_in(set, process, place, number, &input, &mut machine);
    tally.add(plain == Some(end) && are_alike(&machine, &sorted));
}

/// Runs a transition in ten turns.
fn run_turns(
    tally: &mut Tally,
    set: &Verified,
    process: ProcessNumber,
    place: Place,
    number: usize,
) {
    for turn in 0..10u32 {
        run_both(tally, set, process, place, number, turn);
    }
}

/// Runs all transitions of a state.
fn run_state(tally: &mut Tally, set: &Verified, process: ProcessNumber, state: StateNumber) {
    for number in 0..set.input_count(process, state) {
        run_turns(tally, set, process, Place::State(state), number);
    }
}

/// Runs all transitions of a process.
fn run_process(tally: &mut Tally, set: &Verified, process: ProcessNumber) {
    run_turns(tally, set, process, Place::Start, 0);
    for state in 0..set.state_count(process).min(256) {
        run_state(tally, set, process, StateNumber(state as u8));
    }
}

/// Runs all transitions of a set.
fn tally_of(set: &Verified) -> Tally {
    let mut tally = Tally { runs: 0, unlike: 0 };
    for process in 0..set.process_count().min(256) {
        run_process(&mut tally, set, ProcessNumber(process as u8));
    }
    tally
}

/// As `tally_of`, if the set is accepted.
fn tally_in(set: Result<Verified, LoadFault>) -> Option<Tally> {
    match set {
        Ok(set) => Some(tally_of(&set)),
        Err(_) => None,
    }
}

/// The tally of this many runs without a difference.
fn alike(runs: u32) -> Option<Tally> {
    Some(Tally { runs, unlike: 0 })
}

#[test]
fn the_profile_runs_alike_on_words(rt: HostRuntime) {
    // its 93 transitions in ten turns
    assert_eq!(rt; tally_in(standard(rt.alloc())), alike(930));
}

#[test]
fn the_monitors_run_alike_on_words(rt: HostRuntime) {
    // ten transitions
    assert_eq!(rt; tally_in(monitors(rt.alloc())), alike(100));
}

#[test]
fn every_operation_runs_alike_on_words(rt: HostRuntime) {
    // START and three inputs
    assert_eq!(rt; tally_in(load(rt.alloc(), MILL)), alike(40));
}

/// Whether the steps at each place of a set were alike, and at least `least` of them were made.
fn steps_alike(set: Result<Verified, LoadFault>, least: u32) -> bool {
    match set {
        Ok(set) => {
            let tally = steps_of(&set);
            tally.unlike == 0 && tally.steps >= least
        }
        Err(_) => false,
    }
}

#[test]
fn steps_are_alike_at_each_place(rt: HostRuntime) {
    // the first place of each transition has sixteen steps by itself
    assert_eq!(rt; steps_alike(standard(rt.alloc()), 1_488), true);
    assert_eq!(rt; steps_alike(monitors(rt.alloc()), 160), true);
    assert_eq!(rt; steps_alike(load(rt.alloc(), MILL), 64), true);
}
