//! Code of one set, renamed to the numbers of another.
ghost use Rattle.std.specs.Prelude.{◌≡◌};
ghost use Rattle.turn_code.specs.declared.instruction.Instruction.TheVariants.{Load, Store, Next};
ghost use Rattle.draw_diff.specs.Names.{moved_signal, moved_state, moved_timer, moved_variable};
ghost use Rattle.draw_diff.specs.Renaming.{renamed_party, renamed_receiver, sent_to, renamed, is_renamed, are_renamed};

use crate::names::{Pair, moved_process, moved_signal, moved_state, moved_timer, moved_variable};
use turn_code::{
    Instruction, Party, ProcessNumber, Receiver, SignalNumber, StateNumber, TimerNumber,
    VariableNumber,
};

/// A party in the other set's numbers; none if its name is missing there.
fn renamed_party(pair: &Pair<'_>, party: Party) -> Option<Party>
    ensures { result ≡ renamed_party pair.now party }
{
    match party {
        Party::Environment => Some(Party::Environment),
        Party::Process(number) => match moved_process(pair, number) {
            Some(number) => Some(Party::Process(ProcessNumber(number))),
            None => None,
        },
    }
}

/// The receiver of a signal, in the other set's numbers; none if its name is missing there.
fn renamed_receiver(pair: &Pair<'_>, receiver: Receiver) -> Option<Receiver>
    ensures { result ≡ renamed_receiver pair.now receiver }
{
    match receiver {
        Receiver::Party(party) => match renamed_party(pair, party) {
            Some(party) => Some(Receiver::Party(party)),
            None => None,
        },
        Receiver::Sender => Some(Receiver::Sender),
    }
}

/// The instruction that sends a signal, in the other set's numbers; none if a name is missing there.
fn renamed_output(
    pair: &Pair<'_>,
    signal: SignalNumber,
    receiver: Receiver,
    count: u8,
) -> Option<Instruction>
    ensures { result ≡ sent_to count (moved_signal pair.now signal.0) (renamed_receiver pair.now receiver) }
{
    match moved_signal(pair, signal) {
        Some(number) => match renamed_receiver(pair, receiver) {
            Some(receiver) => Some(Instruction::Output(SignalNumber(number), receiver, count)),
            None => None,
        },
        None => None,
    }
}

/// The instruction that loads a variable, in the other set's numbers; none if its name is missing there.
fn renamed_load(pair: &Pair<'_>, number: VariableNumber) -> Option<Instruction>
    ensures { result ≡ renamed pair.now (Load number) }
{
    match moved_variable(pair, number) {
        Some(moved) => Some(Instruction::Load(VariableNumber(moved))),
        None => None,
    }
}

/// The instruction that stores into a variable, in the other set's numbers; none if its name is missing there.
fn renamed_store(pair: &Pair<'_>, number: VariableNumber) -> Option<Instruction>
    ensures { result ≡ renamed pair.now (Store number) }
{
    match moved_variable(pair, number) {
        Some(moved) => Some(Instruction::Store(VariableNumber(moved))),
        None => None,
    }
}

/// The instruction that names the next state, in the other set's numbers; none if its name is missing there.
fn renamed_next(pair: &Pair<'_>, number: StateNumber) -> Option<Instruction>
    ensures { result ≡ renamed pair.now (Next number) }
{
    match moved_state(pair, number) {
        Some(moved) => Some(Instruction::Next(StateNumber(moved))),
        None => None,
    }
}

/// An instruction in the other set's numbers; none if a name is missing there.
fn renamed(pair: &Pair<'_>, instruction: &Instruction) -> Option<Instruction>
    ensures { result ≡ renamed pair.now instruction.now }
{
    match instruction {
        Instruction::Load(number) => renamed_load(pair, *number),
        Instruction::Store(number) => renamed_store(pair, *number),
        Instruction::Output(signal, receiver, count) => {
            renamed_output(pair, *signal, *receiver, *count)
        }
        Instruction::Set(number) => match moved_timer(pair, *number) {
            Some(moved) => Some(Instruction::Set(TimerNumber(moved))),
            None => None,
        },
        Instruction::Reset(number) => match moved_timer(pair, *number) {
            Some(moved) => Some(Instruction::Reset(TimerNumber(moved))),
            None => None,
        },
        Instruction::Next(number) => renamed_next(pair, *number),
        Instruction::Int(_) => Some(*instruction),
        Instruction::Bool(_) => Some(*instruction),
        Instruction::Param(_) => Some(*instruction),
        Instruction::Add => Some(*instruction),
        Instruction::Sub => Some(*instruction),
        Instruction::Mul => Some(*instruction),
        Instruction::Div(_) => Some(*instruction),
        Instruction::Mod(_) => Some(*instruction),
        Instruction::Rem(_) => Some(*instruction),
        Instruction::Neg => Some(*instruction),
        Instruction::Not => Some(*instruction),
        Instruction::And => Some(*instruction),
        Instruction::Or => Some(*instruction),
        Instruction::Xor => Some(*instruction),
        Instruction::Same => Some(*instruction),
        Instruction::Compare(_) => Some(*instruction),
        Instruction::Case(_, _, _) => Some(*instruction),
        Instruction::CaseWithin(_, _, _) => Some(*instruction),
        Instruction::Pick(_, _) => Some(*instruction),
        Instruction::Drop => Some(*instruction),
        Instruction::Jump(_) => Some(*instruction),
        Instruction::Stop => Some(*instruction),
    }
}

/// Whether an instruction, renamed, equals another.
fn is_renamed(pair: &Pair<'_>, old: &Instruction, new: &Instruction) -> bool
    ensures { result ≡ is_renamed pair.now old.now new.now }
{
    match renamed(pair, old) {
        Some(renamed) => renamed == *new,
        None => false,
    }
}

/// Whether each instruction of the old code, renamed, equals that of the new code.
pub(crate) fn are_renamed(pair: &Pair<'_>, olds: &[Instruction], news: &[Instruction]) -> bool
    ensures { result ≡ are_renamed pair.now olds.now news.now }
{
    match olds {
        [] => news.is_empty(),
        [old, olds @ ..] => match news {
            [] => false,
            [new, news @ ..] => is_renamed(pair, old, new) && are_renamed(pair, olds, news),
        },
    }
}
