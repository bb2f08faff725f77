//! One turn, and a rest.

ghost use Rattle.std.specs.Prelude.{◌≡◌};
ghost use Rattle.actor_book.specs.Turns.{turn_refused, skips, tried, actors_in, least_turn, rests, MOST_TURNS};

use crate::book::Book;
use actor_machine::Refusal;

/// How many turns and skips a rest has at most.
pub const REST: u32 = 10_000;

/// The result of a try.
#[derive(Clone, Copy, PartialEq, Eq, Debug)]
pub enum Turn {
    /// The actor had a turn, from its beginning to its end, or threw a signal away.
    Made,
    /// The journal has no room for a turn (B8).
    Blocked,
    /// The actor can do nothing.
    Idle,
}

/// Gives an actor a whole turn if it can have one. Otherwise it throws away a signal that its state has no input for,
/// if it can. If it can do neither, the book stays as it is.
#[tactic(auto, unfolding(crate::specs::Turns::tried))]
pub fn try_actor(book: &mut Book, actor: u16) -> Turn
    ensures turn { result ≡ (tried actor book.old).turn }
    ensures book { book.new ≡ (tried actor book.old).book }
{
    match book.turn(actor) {
        Ok(_) => Turn::Made,
        Err(Refusal::SkipFirst) => skip(book, actor),
        Err(refusal) => refused(refusal),
    }
}

/// Throws away an actor's signal, if it can.
fn skip(book: &mut Book, actor: u16) -> Turn
    ensures turn { result ≡ (skips actor book.old).turn }
    ensures book { book.new ≡ (skips actor book.old).book }
{
    match book.skip(actor) {
        Ok(_) => Turn::Made,
        Err(refusal) => refused(refusal),
    }
}

/// The result of a try that was refused.
fn refused(refusal: Refusal) -> Turn
    ensures { result ≡ turn_refused refusal }
{
    match refusal {
        Refusal::JournalFull => Turn::Blocked,
        _ => Turn::Idle,
    }
}

/// How many actors a link has, at most 128.
fn actors_in(book: &Book) -> u16
    ensures { result ≡ actors_in book.now }
{
    book.state().actors().len() as u16
}

/// Lets the least actor that can have a turn, or throw away a signal, do so: `Made`. Returns `Blocked` if the journal
/// has no room for that, and `Idle` if no actor can. Then nothing changes.
pub fn one_turn(book: &mut Book) -> Turn
    ensures turn { result ≡ (least_turn book.old).turn }
    ensures book { book.new ≡ (least_turn book.old).book }
{
    for actor in 0..actors_in(book) {
        match try_actor(book, actor) {
            Turn::Made => return Turn::Made,
            Turn::Blocked => return Turn::Blocked,
            Turn::Idle => {}
        }
    }
    Turn::Idle
}

/// Makes turn after turn, each of the least actor that can, until none can, the journal is full, or 10,000 were made.
/// Returns how many there were. Actors that have a turn out keep it.
pub fn rest(book: &mut Book) -> u32
    ensures turns { result ≡ (rests MOST_TURNS book.old).turns }
    ensures book { book.new ≡ (rests MOST_TURNS book.old).book }
{
    for turns in 0..REST {
        match one_turn(book) {
            Turn::Made => {}
            Turn::Blocked => return turns,
            Turn::Idle => return turns,
        }
    }
    REST
}
