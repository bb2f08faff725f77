//! What an instruction does on words.
ghost use Rattle.std.specs.Prelude.{◌≡◌, ◌<◌, ◌≤◌, ◌≤ℤ◌, pos, Some, None, slice_index_or};
ghost use Rattle.turn_code.specs.Values.{holds, is_between};
ghost use Rattle.turn_code.specs.Operation.{meaning_of, truth_of};
ghost use Rattle.turn_code.specs.Division.{division_of};
ghost use Rattle.plain_laws.specs.Limits.{MOST_OPERANDS, MOST_PARAMETERS, MOST_VARIABLES};
ghost use Rattle.turn_code.specs.declared.after.Next.TheVariants.{Goes, Ends};
ghost use Rattle.turn_code.specs.Bare.{bare_of, did, Takes, HasRoom, HasWords, bare_act, pushed, put, loaded, stored, given, combined, divided, negated_word, inverted, joined, compared, tested, picked, dropped, sent, timed, words_taken};

use crate::after::{BareAfter, BareEffect, Next};
use crate::division::Division;
use crate::instruction::{Instruction, Receiver, Relation};
use crate::machine::End;
use crate::numbers::{CodePlace, SignalNumber, TimerNumber, VariableNumber};
use crate::operation::{Connective, Operation, negated};
use crate::words::Words;

/// The code goes on at a place, without an effect.
fn go(place: usize) -> BareAfter
    ensures { result ≡ record { effect = None; next = Goes place } }
{
    BareAfter {
        effect: None,
        next: Next::Goes(place),
    }
}

/// The code goes on at a place, with this effect.
fn give(effect: BareEffect, next: usize) -> BareAfter
    ensures { result ≡ record { effect = Some effect; next = Goes next } }
{
    BareAfter {
        effect: Some(effect),
        next: Next::Goes(next),
    }
}

/// The transition ends here.
fn end(end: End) -> BareAfter
    ensures { result ≡ record { effect = None; next = Ends end } }
{
    BareAfter {
        effect: None,
        next: Next::Ends(end),
    }
}

impl Words {
    /// Runs an instruction; `next` is the place after it.
    pub(crate) fn act(&mut self, instruction: Instruction, next: usize) -> BareAfter
        requires { HasWords instruction (bare_of self.old) }
        ensures { did result self.new ≡ bare_act instruction next (bare_of self.old) }
    {
        match instruction {
            Instruction::Int(number) => self.put(number, next),
            Instruction::Bool(truth) => self.put(i32::from(truth), next),
            Instruction::Load(variable) => self.load(variable, next),
            Instruction::Store(variable) => self.store(variable, next),
            Instruction::Param(place) => self.parameter(place, next),
            Instruction::Add => self.combine(Operation::Add, next),
            Instruction::Sub => self.combine(Operation::Subtract, next),
            Instruction::Mul => self.combine(Operation::Multiply, next),
            Instruction::Div(divisor) => self.divide(Division::Quotient, divisor, next),
            Instruction::Mod(divisor) => self.divide(Division::Modulo, divisor, next),
            Instruction::Rem(divisor) => self.divide(Division::Remainder, divisor, next),
            Instruction::Neg => self.negate(next),
            Instruction::Not => self.invert(next),
            Instruction::And => self.connect(Connective::And, next),
            Instruction::Or => self.connect(Connective::Or, next),
            Instruction::Xor => self.connect(Connective::Xor, next),
            Instruction::Same => self.connect(Connective::Same, next),
            Instruction::Compare(relation) => self.compare(relation, next),
            Instruction::Case(relation, to, place) => self.case(relation, to, place, next),
            Instruction::CaseWithin(place, least, most) => self.within(least, most, place, next),
            Instruction::Pick(no, yes) => self.pick(no, yes),
            Instruction::Drop => self.throw_away(next),
            Instruction::Jump(place) => go(usize::from(place.0)),
            Instruction::Output(signal, to, count) => self.output(signal, to, count, next),
            Instruction::Set(timer) => self.set_timer(timer, next),
            Instruction::Reset(timer) => give(BareEffect::Reset(timer), next),
            Instruction::Next(state) => end(End::State(state)),
            Instruction::Stop => end(End::Stop),
        }
    }

    /// Pushes a word.
    fn push(&mut self, word: i32)
        requires { HasRoom (bare_of self.old) }
        ensures { bare_of self.new ≡ pushed (bare_of self.old) word }
    {
        self.operands[usize::from(self.depth)] = word;
        self.depth += 1;
    }

    /// Pops the topmost word.
    fn pop(&mut self) -> i32
        requires { Takes 1 (bare_of self.old) }
        ensures { bare_of self.old ≡ pushed (bare_of self.new) result }
    {
        self.depth -= 1;
        self.operands[usize::from(self.depth)]
    }

    /// Pushes a word and goes on at `next`.
    fn put(&mut self, word: i32, next: usize) -> BareAfter
        requires { HasRoom (bare_of self.old) }
        ensures { did result self.new ≡ put word next (bare_of self.old) }
    {
        self.push(word);
        go(next)
    }

    /// Pushes the word of a variable.
    fn load(&mut self, variable: VariableNumber, next: usize) -> BareAfter
        requires room { HasRoom (bare_of self.old) }
        requires there { variable.0 < MOST_VARIABLES }
        ensures { did result self.new ≡ loaded variable next (bare_of self.old) }
    {
        self.put(self.variables[usize::from(variable.0)], next)
    }

    /// Pops a word and stores it in the variable, which is then set.
    fn store(&mut self, variable: VariableNumber, next: usize) -> BareAfter
        requires some { Takes 1 (bare_of self.old) }
        requires there { variable.0 < MOST_VARIABLES }
        ensures { did result self.new ≡ stored variable next (bare_of self.old) }
    {
        let word = self.pop();
        self.variables[usize::from(variable.0)] = word;
        self.set |= 1 << variable.0;
        go(next)
    }

    /// Pushes the word of a parameter.
    fn parameter(&mut self, place: u8, next: usize) -> BareAfter
        requires room { HasRoom (bare_of self.old) }
        requires there { place < MOST_PARAMETERS }
        ensures { did result self.new ≡ given place next (bare_of self.old) }
    {
        self.put(self.params[usize::from(place)], next)
    }

    /// Replaces two words by the result of an operation.
    fn combine(&mut self, operation: Operation, next: usize) -> BareAfter
        requires { Takes 2 (bare_of self.old) }
        ensures { did result self.new ≡ combined (meaning_of operation) next (bare_of self.old) }
    {
        let right = self.pop();
        let left = self.pop();
        self.put(operation.apply(left, right), next)
    }

    /// Replaces a word by the result of a division.
    fn divide(&mut self, division: Division, divisor: i32, next: usize) -> BareAfter
        requires some { Takes 1 (bare_of self.old) }
        requires divisor { pos 1 ≤ℤ divisor }
        ensures { did result self.new ≡ divided (division_of division) divisor next (bare_of self.old) }
    {
        let number = self.pop();
        self.put(division.apply(number, divisor), next)
    }

    /// Negates a word.
    fn negate(&mut self, next: usize) -> BareAfter
        requires { Takes 1 (bare_of self.old) }
        ensures { did result self.new ≡ negated_word next (bare_of self.old) }
    {
        let number = self.pop();
        self.put(negated(number), next)
    }

    /// Negates the word of a Boolean.
    fn invert(&mut self, next: usize) -> BareAfter
        requires { Takes 1 (bare_of self.old) }
        ensures { did result self.new ≡ inverted next (bare_of self.old) }
    {
        let word = self.pop();
        self.put(i32::from(word == 0), next)
    }

    /// Replaces the words of two Booleans by the result of a connective.
    fn connect(&mut self, connective: Connective, next: usize) -> BareAfter
        requires { Takes 2 (bare_of self.old) }
        ensures { did result self.new ≡ joined (truth_of connective) next (bare_of self.old) }
    {
        let right = self.pop();
        let left = self.pop();
        self.put(i32::from(connective.apply(left != 0, right != 0)), next)
    }

    /// Replaces two words by whether they are in this relation.
    fn compare(&mut self, relation: Relation, next: usize) -> BareAfter
        requires { Takes 2 (bare_of self.old) }
        ensures { did result self.new ≡ compared relation next (bare_of self.old) }
    {
        let right = self.pop();
        let left = self.pop();
        self.put(i32::from(relation.holds(left, right)), next)
    }

    /// If the topmost word is in this relation to `to`, pops it and goes on at `place`; otherwise leaves it.
    fn case(&mut self, relation: Relation, to: i32, place: CodePlace, next: usize) -> BareAfter
        requires { Takes 1 (bare_of self.old) }
        ensures { did result self.new ≡ tested (λ x. holds relation x to) place.0 next (bare_of self.old) }
    {
        let number = self.pop();
        if relation.holds(number, to) {
            return go(usize::from(place.0));
        }
        self.put(number, next)
    }

    /// If the topmost word is from `least` to `most`, pops it and goes on at `place`; otherwise leaves it.
    fn within(&mut self, least: i32, most: i32, place: CodePlace, next: usize) -> BareAfter
        requires { Takes 1 (bare_of self.old) }
        ensures { did result self.new ≡ tested (is_between least most) place.0 next (bare_of self.old) }
    {
        let number = self.pop();
        if least <= number && number <= most {
            return go(usize::from(place.0));
        }
        self.put(number, next)
    }

    /// Pops the word of a Boolean, and goes on at the first place if it is 0, otherwise at the second.
    fn pick(&mut self, no: CodePlace, yes: CodePlace) -> BareAfter
        requires { Takes 1 (bare_of self.old) }
        ensures { did result self.new ≡ picked no.0 yes.0 (bare_of self.old) }
    {
        let word = self.pop();
        let place = if word == 0 { no } else { yes };
        go(usize::from(place.0))
    }

    /// Pops a word and discards it.
    fn throw_away(&mut self, next: usize) -> BareAfter
        requires { Takes 1 (bare_of self.old) }
        ensures { did result self.new ≡ dropped next (bare_of self.old) }
    {
        let _ = self.pop();
        go(next)
    }

    /// The operand at a place counted from the bottom.
    fn operand(&self, place: usize) -> i32
        requires { place < MOST_OPERANDS }
        ensures { result ≡ slice_index_or self.now.operands place (pos 0) }
    {
        self.operands[place]
    }

    /// The `count` topmost words, at most 4, the topmost last, filled up with zeros.
    fn taken(&self, count: u8) -> [i32; 4]
        requires few { count ≤ MOST_PARAMETERS }
        requires there { Takes count (bare_of self.now) }
        ensures { result ≡ words_taken count (bare_of self.now) }
    {
        let first = usize::from(self.depth - count);
        let mut words = [0; 4];
        for place in 0..usize::from(count) {
            let word = self.operand(first + place);
            words[place] = word;
        }
        words
    }

    /// Pops `count` words, and sends a signal with them.
    fn output(&mut self, signal: SignalNumber, to: Receiver, count: u8, next: usize) -> BareAfter
        requires few { count ≤ MOST_PARAMETERS }
        requires there { Takes count (bare_of self.old) }
        ensures { did result self.new ≡ sent signal to count next (bare_of self.old) }
    {
        let words = self.taken(count);
        self.depth -= count;
        give(BareEffect::Output(signal, to, count, words), next)
    }

    /// Pops a word, and sets a timer to the clock plus this many ticks.
    fn set_timer(&mut self, timer: TimerNumber, next: usize) -> BareAfter
        requires { Takes 1 (bare_of self.old) }
        ensures { did result self.new ≡ timed timer next (bare_of self.old) }
    {
        let delay = self.pop();
        give(BareEffect::Set(timer, delay), next)
    }
}
