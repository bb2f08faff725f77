//! A machine that runs one instruction at a time, on values with their sorts.

ghost use Rattle.std.specs.Prelude.{◌≡◌, ◌+◌, ◌<◌, ◌≤◌, ◌∷◌, length, slice_get, neg_ℤ, not, if◌then◌else◌};
ghost use Rattle.turn_code.specs.Values.{wrap, holds, is_between};
ghost use Rattle.turn_code.specs.Run.{CountIs, step, act, goes, ends, loaded, stored, given, on_two, on_top, on_integer, on_integers, on_boolean, on_operands, divided, joined, tested, sent, address_of, tick, with_effect};
ghost use Rattle.turn_code.specs.Machine.{progress_of, after_of, StaysIfStuck, HasRoom, HasRoomFor};
ghost use Rattle.turn_code.specs.Operation.{meaning_of, truth_of};
ghost use Rattle.turn_code.specs.Division.{division_of};
ghost use Rattle.turn_code.specs.declared.value.Value.TheVariants.{Int as IntValue, Bool as BoolValue};
ghost use Rattle.turn_code.specs.declared.effect.Effect.TheVariants.{Set as SetEffect};
ghost use Rattle.plain_laws.specs.Limits.{MOST_EFFECTS, MOST_INSTRUCTIONS, MOST_OPERANDS, MOST_PARAMETERS};

use crate::division::Division;
use crate::effect::{Effect, Sending};
use crate::input::Input;
use crate::instruction::{Instruction, Receiver, Relation};
use crate::numbers::{CodePlace, SignalNumber, StateNumber, TimerNumber, VariableNumber};
use crate::operands::Operands;
use crate::operation::{Connective, Operation, negated};
use crate::trouble::Trouble;
use crate::value::Value;
use arrayvec::ArrayVec;

/// How a transition ends.
#[derive(Clone, Copy, PartialEq, Eq, Debug)]
pub enum End {
    /// In a state.
    State(StateNumber),
    /// With a stop of the process.
    Stop,
}

/// The outcome of one instruction.
#[derive(Clone, Copy, PartialEq, Eq, Debug)]
pub enum After {
    /// The transition goes on with the instruction at this place.
    Goes(usize),
    /// The transition is over.
    Ends(End),
    /// The code doesn't say how to go on.
    Stuck(Trouble),
}

/// The state of a run.
#[derive(Drop)]
pub struct Machine {
    /// Its operands.
    pub operands: Operands,
    /// The value of each variable; none for a variable that isn't set.
    pub variables: ArrayVec<Option<Value>, 32>,
    /// Its effects so far.
    pub effects: ArrayVec<Effect, 32>,
    /// The number of instructions that it has taken.
    pub count: u32,
}

/// Runs the instruction at `place` of the code on an input. If it is stuck, the machine is unchanged.
#[tactic(auto, using(crate::proofs::Ran::step_count))]
pub fn step_plain(code: &[Instruction], input: &Input, place: usize, machine: &mut Machine) -> After
    requires room { HasRoom code.now place machine.old.operands machine.old.effects.items }
    requires count { machine.old.count < MOST_INSTRUCTIONS }
    ensures count { CountIs (machine.old.count + 1) (after_of result machine.new) }
    ensures exact { after_of result machine.new ≡ step code.now input.now place machine.old.operands (progress_of machine.old) }
    ensures stays { StaysIfStuck result machine.old machine.new }
{
    match code.get(place) {
        Some(instruction) => machine.act(*instruction, input, place + 1),
        None => After::Stuck(Trouble::Outside),
    }
}

impl Machine {
    /// Runs an instruction; `next` is the place after it.
    fn act(&mut self, instruction: Instruction, input: &Input, next: usize) -> After
        requires room { HasRoomFor instruction self.old.operands self.old.effects.items }
        requires count { self.old.count < MOST_INSTRUCTIONS }
        ensures exact { after_of result self.new ≡ act instruction input.now next self.old.operands (tick (progress_of self.old)) }
        ensures stays { StaysIfStuck result self.old self.new }
    {
        match instruction {
            Instruction::Int(number) => self.put(Value::Int(number), next),
            Instruction::Bool(truth) => self.put(Value::Bool(truth), next),
            Instruction::Load(variable) => self.load(variable, next),
            Instruction::Store(variable) => self.store(variable, next),
            Instruction::Param(place) => self.parameter(input, place, next),
            Instruction::Add => self.combine(Operation::Add, next),
            Instruction::Sub => self.combine(Operation::Subtract, next),
            Instruction::Mul => self.combine(Operation::Multiply, next),
            Instruction::Div(divisor) => self.divide(Division::Quotient, divisor, next),
            Instruction::Mod(divisor) => self.divide(Division::Modulo, divisor, next),
            Instruction::Rem(divisor) => self.divide(Division::Remainder, divisor, next),
            Instruction::Neg => self.negate(next),
            Instruction::Not => self.invert(next),
            Instruction::And => self.connect(Connective::And, next),
            Instruction::Or => self.connect(Connective::Or, next),
            Instruction::Xor => self.connect(Connective::Xor, next),
            Instruction::Same => self.connect(Connective::Same, next),
            Instruction::Compare(relation) => self.compare(relation, next),
            Instruction::Case(relation, to, place) => self.case(relation, to, place, next),
            Instruction::CaseWithin(place, least, most) => self.within(least, most, place, next),
            Instruction::Pick(no, yes) => self.pick(no, yes),
            Instruction::Drop => self.throw_away(next),
            Instruction::Jump(place) => self.go(usize::from(place.0)),
            Instruction::Output(signal, to, count) => self.output(signal, to, count, input, next),
            Instruction::Set(timer) => self.set(timer, next),
            Instruction::Reset(timer) => self.give(Effect::Reset(timer), next),
            Instruction::Next(state) => self.end(End::State(state)),
            Instruction::Stop => self.end(End::Stop),
        }
    }

    /// Counts one instruction; the one at this place is next.
    fn go(&mut self, place: usize) -> After
        requires count { self.old.count < MOST_INSTRUCTIONS }
        ensures exact { after_of result self.new ≡ goes place self.old.operands (tick (progress_of self.old)) }
        ensures stays { StaysIfStuck result self.old self.new }
    {
        self.count += 1;
        After::Goes(place)
    }

    /// Counts one instruction; the transition ends here.
    fn end(&mut self, end: End) -> After
        requires count { self.old.count < MOST_INSTRUCTIONS }
        ensures exact { after_of result self.new ≡ ends end (tick (progress_of self.old)) }
        ensures stays { StaysIfStuck result self.old self.new }
    {
        self.count += 1;
        After::Ends(end)
    }

    /// Puts a value on top and goes on at `next`.
    fn put(&mut self, value: Value, next: usize) -> After
        requires room { length self.old.operands < MOST_OPERANDS }
        requires count { self.old.count < MOST_INSTRUCTIONS }
        ensures exact { after_of result self.new ≡ goes next (value ∷ self.old.operands) (tick (progress_of self.old)) }
        ensures stays { StaysIfStuck result self.old self.new }
    {
        self.operands.push(value);
        self.count += 1;
        After::Goes(next)
    }

    /// Adds an effect and goes on at `next`.
    fn give(&mut self, effect: Effect, next: usize) -> After
        requires room { length self.old.effects.items < MOST_EFFECTS }
        requires count { self.old.count < MOST_INSTRUCTIONS }
        ensures exact { after_of result self.new ≡ goes next self.old.operands (with_effect (tick (progress_of self.old)) effect) }
        ensures stays { StaysIfStuck result self.old self.new }
    {
        self.effects.push(effect);
        self.count += 1;
        After::Goes(next)
    }

    /// Puts the value of a variable on top; stuck if the variable isn't set.
    fn load(&mut self, variable: VariableNumber, next: usize) -> After
        requires room { length self.old.operands < MOST_OPERANDS }
        requires count { self.old.count < MOST_INSTRUCTIONS }
        ensures exact { after_of result self.new ≡ loaded next self.old.operands (tick (progress_of self.old)) (slice_get self.old.variables.items variable.0) }
        ensures stays { StaysIfStuck result self.old self.new }
    {
        match self.variables.as_slice().get(usize::from(variable.0)) {
            Some(Some(value)) => {
                let value = *value;
                self.put(value, next)
            }
            _ => After::Stuck(Trouble::Unset),
        }
    }

    /// Takes a value and stores it in the variable; stuck if there is no value or no such variable.
    fn store(&mut self, variable: VariableNumber, next: usize) -> After
        requires count { self.old.count < MOST_INSTRUCTIONS }
        ensures exact { after_of result self.new ≡ on_top self.old.operands (λ x rest. stored next rest (tick (progress_of self.old)) variable.0 x (slice_get self.old.variables.items variable.0)) }
        ensures stays { StaysIfStuck result self.old self.new }
    {
        let Some(value) = self.operands.pop() else {
            return After::Stuck(Trouble::Underflow);
        };
        let place = usize::from(variable.0);
        if place < self.variables.len() {
            self.variables[place] = Some(value);
            self.count += 1;
            After::Goes(next)
        } else {
            self.operands.push(value);
            After::Stuck(Trouble::Unset)
        }
    }

    /// Puts a parameter of the input on top, by its place from 0; stuck if there is none.
    fn parameter(&mut self, input: &Input, place: u8, next: usize) -> After
        requires room { length self.old.operands < MOST_OPERANDS }
        requires count { self.old.count < MOST_INSTRUCTIONS }
        ensures exact { after_of result self.new ≡ given next self.old.operands (tick (progress_of self.old)) (slice_get input.now.parameters.items place) }
        ensures stays { StaysIfStuck result self.old self.new }
    {
        match input.parameters.as_slice().get(usize::from(place)) {
            Some(value) => self.put(*value, next),
            None => After::Stuck(Trouble::Underflow),
        }
    }

    /// Replaces two Integers by the result of an operation, wrapped to -2^31 to 2^31 - 1.
    fn combine(&mut self, operation: Operation, next: usize) -> After
        requires count { self.old.count < MOST_INSTRUCTIONS }
        ensures exact { after_of result self.new ≡ on_two (meaning_of operation) next self.old.operands (tick (progress_of self.old)) }
        ensures stays { StaysIfStuck result self.old self.new }
    {
        match self.operands.pop_integers() {
            Ok((left, right)) => self.put(Value::Int(operation.apply(left, right)), next),
            Err(trouble) => After::Stuck(trouble),
        }
    }

    /// Replaces an Integer by the result of a division; stuck if the divisor is below 1.
    fn divide(&mut self, division: Division, divisor: i32, next: usize) -> After
        requires count { self.old.count < MOST_INSTRUCTIONS }
        ensures exact { after_of result self.new ≡ divided (division_of division) divisor next self.old.operands (tick (progress_of self.old)) }
        ensures stays { StaysIfStuck result self.old self.new }
    {
        match self.operands.pop_integer() {
            Ok(number) if 0 < divisor => self.put(
                Value::Int(division.apply(number, divisor)),
                next,
            ),
            Ok(number) => {
                self.operands.push(Value::Int(number));
                After::Stuck(Trouble::WrongSort)
            }
            Err(trouble) => After::Stuck(trouble),
        }
    }

    /// Negates an Integer; -2^31 stays.
    fn negate(&mut self, next: usize) -> After
        requires count { self.old.count < MOST_INSTRUCTIONS }
        ensures exact { after_of result self.new ≡ on_integer self.old.operands (λ x rest. goes next (IntValue (wrap (neg_ℤ x)) ∷ rest) (tick (progress_of self.old))) }
        ensures stays { StaysIfStuck result self.old self.new }
    {
        match self.operands.pop_integer() {
            Ok(number) => self.put(Value::Int(negated(number)), next),
            Err(trouble) => After::Stuck(trouble),
        }
    }

    /// Negates a Boolean.
    fn invert(&mut self, next: usize) -> After
        requires count { self.old.count < MOST_INSTRUCTIONS }
        ensures exact { after_of result self.new ≡ on_boolean self.old.operands (λ b rest. goes next (BoolValue (not b) ∷ rest) (tick (progress_of self.old))) }
        ensures stays { StaysIfStuck result self.old self.new }
    {
        match self.operands.pop_boolean() {
            Ok(truth) => self.put(Value::Bool(!truth), next),
            Err(trouble) => After::Stuck(trouble),
        }
    }

    /// Replaces two Booleans by the result of a connective.
    fn connect(&mut self, connective: Connective, next: usize) -> After
        requires count { self.old.count < MOST_INSTRUCTIONS }
        ensures exact { after_of result self.new ≡ joined (truth_of connective) next self.old.operands (tick (progress_of self.old)) }
        ensures stays { StaysIfStuck result self.old self.new }
    {
        match self.operands.pop_booleans() {
            Ok((left, right)) => self.put(Value::Bool(connective.apply(left, right)), next),
            Err(trouble) => After::Stuck(trouble),
        }
    }

    /// Replaces two Integers by whether they are in the relation, the topmost on the right.
    fn compare(&mut self, relation: Relation, next: usize) -> After
        requires count { self.old.count < MOST_INSTRUCTIONS }
        ensures exact { after_of result self.new ≡ on_integers self.old.operands (λ a b rest. goes next (BoolValue (holds relation a b) ∷ rest) (tick (progress_of self.old))) }
        ensures stays { StaysIfStuck result self.old self.new }
    {
        match self.operands.pop_integers() {
            Ok((left, right)) => self.put(Value::Bool(relation.holds(left, right)), next),
            Err(trouble) => After::Stuck(trouble),
        }
    }

    /// If the topmost Integer is in this relation to `to`, takes it and goes on at `place`; otherwise leaves it.
    fn case(&mut self, relation: Relation, to: i32, place: CodePlace, next: usize) -> After
        requires count { self.old.count < MOST_INSTRUCTIONS }
        ensures exact { after_of result self.new ≡ tested (λ x. holds relation x to) place.0 next self.old.operands (tick (progress_of self.old)) }
        ensures stays { StaysIfStuck result self.old self.new }
    {
        match self.operands.pop_integer() {
            Ok(number) if relation.holds(number, to) => self.go(usize::from(place.0)),
            Ok(number) => self.put(Value::Int(number), next),
            Err(trouble) => After::Stuck(trouble),
        }
    }

    /// If the topmost Integer is from `least` to `most`, both included, takes it and goes on at `place`; otherwise
    /// leaves it.
    fn within(&mut self, least: i32, most: i32, place: CodePlace, next: usize) -> After
        requires count { self.old.count < MOST_INSTRUCTIONS }
        ensures exact { after_of result self.new ≡ tested (is_between least most) place.0 next self.old.operands (tick (progress_of self.old)) }
        ensures stays { StaysIfStuck result self.old self.new }
    {
        match self.operands.pop_integer() {
            Ok(number) if least <= number && number <= most => self.go(usize::from(place.0)),
            Ok(number) => self.put(Value::Int(number), next),
            Err(trouble) => After::Stuck(trouble),
        }
    }

    /// Takes a Boolean, and goes on at the first place if it is FALSE, at the second if it is TRUE.
    fn pick(&mut self, no: CodePlace, yes: CodePlace) -> After
        requires count { self.old.count < MOST_INSTRUCTIONS }
        ensures exact { after_of result self.new ≡ on_boolean self.old.operands (λ b rest. goes (if b then yes.0 else no.0) rest (tick (progress_of self.old))) }
        ensures stays { StaysIfStuck result self.old self.new }
    {
        match self.operands.pop_boolean() {
            Ok(true) => self.go(usize::from(yes.0)),
            Ok(false) => self.go(usize::from(no.0)),
            Err(trouble) => After::Stuck(trouble),
        }
    }

    /// Takes an Integer and discards it.
    fn throw_away(&mut self, next: usize) -> After
        requires count { self.old.count < MOST_INSTRUCTIONS }
        ensures exact { after_of result self.new ≡ on_integer self.old.operands (λ x rest. goes next rest (tick (progress_of self.old))) }
        ensures stays { StaysIfStuck result self.old self.new }
    {
        match self.operands.pop_integer() {
            Ok(_) => self.go(next),
            Err(trouble) => After::Stuck(trouble),
        }
    }

    /// Takes `count` parameters, the last one topmost, and sends a signal with them. Stuck if there are too few, or if
    /// the receiver is the sender and there is none.
    fn output(
        &mut self,
        signal: SignalNumber,
        to: Receiver,
        count: u8,
        input: &Input,
        next: usize,
    ) -> After
        requires room { length self.old.effects.items < MOST_EFFECTS }
        requires few { count ≤ MOST_PARAMETERS }
        requires count { self.old.count < MOST_INSTRUCTIONS }
        ensures exact { after_of result self.new ≡ on_operands count self.old.operands (λ vs rest. sent signal (address_of to input.now.sender) vs next rest (tick (progress_of self.old))) }
        ensures stays { StaysIfStuck result self.old self.new }
    {
        if self.operands.len() < usize::from(count) {
            return After::Stuck(Trouble::Underflow);
        }
        let Some(receiver) = to.address(input.sender) else {
            return After::Stuck(Trouble::NoReceiver);
        };
        let parameters = self.operands.pop_parameters(usize::from(count));
        let sending = Sending {
            signal,
            receiver,
            parameters,
        };
        self.give(Effect::Output(sending), next)
    }

    /// Takes an Integer, and sets a timer to the clock plus this many ticks.
    fn set(&mut self, timer: TimerNumber, next: usize) -> After
        requires room { length self.old.effects.items < MOST_EFFECTS }
        requires count { self.old.count < MOST_INSTRUCTIONS }
        ensures exact { after_of result self.new ≡ on_integer self.old.operands (λ x rest. goes next rest (with_effect (tick (progress_of self.old)) (SetEffect timer x))) }
        ensures stays { StaysIfStuck result self.old self.new }
    {
        match self.operands.pop_integer() {
            Ok(delay) => self.give(Effect::Set(timer, delay), next),
            Err(trouble) => After::Stuck(trouble),
        }
    }
}
