//! Offers of signals by the environment.
ghost use Rattle.std.specs.Prelude.{◌≡◌};
ghost use Rattle.script_lines.specs.Commands.{plain_offer};
ghost use Rattle.script_lines.specs.Refused.{refused_text};
ghost use Rattle.actor_machine.specs.declared.event.Event.TheVariants.{Offer as Offered};
ghost use Rattle.script_book.specs.Answers.{actor_named, signal_named, took, offered, looked_up, floods, flooded, why};

use crate::names::{actor_named, signal_named};
use actor_book::{Book, rest};
use actor_machine::Refusal;
use script_lines::Offer;
use turn_code::{SignalNumber, Value};

/// Offers a signal of the environment to the actor with this number.
fn offer_to(
    book: &mut Book,
    actor: u16,
    signal: SignalNumber,
    values: &[Value],
) -> Result<(), Refusal>
    ensures book { let e = Offered (record { actor = actor; signal = signal; values = record { items = values.now } }) in book.new ≡ (took book.old e).book }
    ensures refusal { let e = Offered (record { actor = actor; signal = signal; values = record { items = values.now } }) in
        why result ≡ (took book.old e).refusal }
{
    match book.offer(actor, signal, values) {
        Ok(_) => Ok(()),
        Err(refusal) => Err(refusal),
    }
}

/// Offers a signal of the environment; the names are looked up.
///
/// # Errors
///
/// `B10 NoActor` without that actor, else `B3 NoRoute` without that signal, else as `Book::offer`; nothing changes.
pub fn offer(book: &mut Book, given: &Offer<'_>) -> Result<(), Refusal>
    ensures book { book.new ≡ (offered book.old (plain_offer given.now)).book }
    ensures refusal { why result ≡ (offered book.old (plain_offer given.now)).refusal }
{
    let Some(actor) = actor_named(book, given.process) else {
        return Err(Refusal::NoActor);
    };
    let Some(signal) = signal_named(book, given.signal) else {
        return Err(Refusal::NoRoute);
    };
    offer_to(book, actor.number, signal, &given.values)
}

/// Whether the actor and the signal exist.
fn look_up(book: &Book, given: &Offer<'_>) -> Result<(), Refusal>
    ensures { why result ≡ looked_up (actor_named book.now given.now.process.now) (signal_named book.now given.now.signal.now) }
{
    if actor_named(book, given.process).is_none() {
        return Err(Refusal::NoActor);
    }
    if signal_named(book, given.signal).is_none() {
        return Err(Refusal::NoRoute);
    }
    Ok(())
}

/// Makes `times` offers, with a rest after each, up to the first one refused.
fn offers(book: &mut Book, times: u32, given: &Offer<'_>) -> Result<(), Refusal>
    ensures book { book.new ≡ (floods times (plain_offer given.now) book.old).book }
    ensures refusal { why result ≡ (floods times (plain_offer given.now) book.old).refusal }
{
    for sent in 0..times {
        match offer(book, given) {
            Ok(()) => {}
            Err(refusal) => return Err(refusal),
        }
        rest(book);
    }
    Ok(())
}

/// Makes `times` offers, with a rest after each. The names are looked up first, even if `times` is 0.
///
/// # Errors
///
/// The first refusal ends it; the offers before it remain in effect.
pub fn flood(book: &mut Book, times: u32, given: &Offer<'_>) -> Result<(), Refusal>
    ensures book { let o = plain_offer given.now in
        book.new ≡ (flooded times o book.old (looked_up (actor_named book.old o.process) (signal_named book.old o.signal))).book }
    ensures refusal { let o = plain_offer given.now in
        why result ≡ (flooded times o book.old (looked_up (actor_named book.old o.process) (signal_named book.old o.signal))).refusal }
{
    match look_up(book, given) {
        Ok(()) => offers(book, times, given),
        Err(refusal) => Err(refusal),
    }
}
