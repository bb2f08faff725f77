//! How names map the numbers of one set to those of another.
ghost use Rattle.std.specs.Prelude.{◌≡◌, List, ℕ, position};
ghost use Rattle.draw_diff.specs.Names.{same_name, octet, moved, own_name, process_name, signal_name, state_name, variable_name, back_to, moved_signal, moved_process, moved_state, moved_timer, moved_variable};

use std::marker::Model;
use turn_code::{
    Draft, DraftProcess, DraftSignal, DraftState, DraftVariable, Name, ProcessNumber, SignalNumber,
    StateNumber, TimerNumber, VariableNumber,
};

/// An item that has a name.
trait Called {
    ghost name: { Self → List ℕ };

    /// Its name.
    fn name(&self) -> &[u8]
        ensures { result.now ≡ name self.now };
}

impl Called for DraftSignal {
    ghost name = { signal_name };

    fn name(&self) -> &[u8] {
        self.name.as_bytes()
    }
}

impl Called for DraftProcess {
    ghost name = { process_name };

    fn name(&self) -> &[u8] {
        self.name.as_bytes()
    }
}

impl Called for DraftState {
    ghost name = { state_name };

    fn name(&self) -> &[u8] {
        self.name.as_bytes()
    }
}

impl Called for DraftVariable {
    ghost name = { variable_name };

    fn name(&self) -> &[u8] {
        self.name.as_bytes()
    }
}

impl Called for Name {
    ghost name = { own_name };

    fn name(&self) -> &[u8] {
        self.as_bytes()
    }
}

/// A process of the old set, and a process of the new set.
#[derive(Drop)]
pub(crate) struct Pair<'a> {
    /// The old set.
    pub(crate) old: &'a Draft,
    /// The process of the old set.
    pub(crate) old_process: &'a DraftProcess,
    /// The new set.
    pub(crate) new: &'a Draft,
    /// The process of the new set.
    pub(crate) new_process: &'a DraftProcess,
}

impl<'a> Model for Pair<'a> {
    ghost use Rattle.draw_diff.specs.Names.{Sides};

    ghost Value = { Sides };

    ghost view = { λ p. record {
      old = p.old.now;
      old_process = p.old_process.now;
      new = p.new.now;
      new_process = p.new_process.now;
    } };
}

/// Whether two spellings are the same name: they differ at most in the case of letters.
pub(crate) fn same_name(name: &[u8], other: &[u8]) -> bool
    ensures { result ≡ same_name name.now other.now }
{
    name.eq_ignore_ascii_case(other)
}

/// A number as an octet, as code holds numbers; none if it doesn't fit.
fn octet(number: Option<usize>) -> Option<u8>
    ensures { result ≡ octet number }
{
    match number {
        Some(number) => {
            if number < 256 {
                Some(number as u8)
            } else {
                None
            }
        }
        None => None,
    }
}

/// The place of the first item with a name.
fn place_of<T: Called>(name: &[u8], news: &[T]) -> Option<usize>
    ensures { result ≡ position (λ y. same_name name.now (T.name y)) news.now }
{
    news.iter().position(|new| same_name(name, new.name()))
}

/// The number that an item of the old list has in the new list, by its name.
fn among<T: Called>(olds: &[T], news: &[T], number: usize) -> Option<u8>
    ensures { result ≡ moved T.name olds.now news.now number }
{
    match olds.get(number) {
        Some(old) => octet(place_of(old.name(), news)),
        None => None,
    }
}

/// The number in the new set of a signal of the old set.
pub(crate) fn moved_signal(pair: &Pair<'_>, number: SignalNumber) -> Option<u8>
    ensures { result ≡ moved_signal pair.now number.0 }
{
    among(
        pair.old.signals.as_slice(),
        pair.new.signals.as_slice(),
        usize::from(number.0),
    )
}

/// The number in the new set of a process of the old set.
pub(crate) fn moved_process(pair: &Pair<'_>, number: ProcessNumber) -> Option<u8>
    ensures { result ≡ moved_process pair.now number.0 }
{
    among(
        pair.old.processes.as_slice(),
        pair.new.processes.as_slice(),
        usize::from(number.0),
    )
}

/// The number in the new process of a state of the old process.
pub(crate) fn moved_state(pair: &Pair<'_>, number: StateNumber) -> Option<u8>
    ensures { result ≡ moved_state pair.now number.0 }
{
    among(
        pair.old_process.states.as_slice(),
        pair.new_process.states.as_slice(),
        usize::from(number.0),
    )
}

/// The number in the new process of a timer of the old process.
pub(crate) fn moved_timer(pair: &Pair<'_>, number: TimerNumber) -> Option<u8>
    ensures { result ≡ moved_timer pair.now number.0 }
{
    among(
        pair.old_process.timers.as_slice(),
        pair.new_process.timers.as_slice(),
        usize::from(number.0),
    )
}

/// The found number, if the variable there leads back by its name to the number that it came from; else none.
fn back_to(
    olds: &[DraftVariable],
    news: &[DraftVariable],
    number: usize,
    found: Option<u8>,
) -> Option<u8>
    ensures { result ≡ back_to olds.now news.now number found }
{
    match found {
        Some(other) => match among(news, olds, usize::from(other)) {
            Some(back) => {
                if usize::from(back) == number {
                    Some(other)
                } else {
                    None
                }
            }
            None => None,
        },
        None => None,
    }
}

/// The number in the new process of a variable of the old process.
pub(crate) fn moved_variable(pair: &Pair<'_>, number: VariableNumber) -> Option<u8>
    ensures { result ≡ moved_variable pair.now number.0 }
{
    let olds = pair.old_process.variables.as_slice();
    let news = pair.new_process.variables.as_slice();
    let number = usize::from(number.0);
    back_to(olds, news, number, among(olds, news, number))
}
