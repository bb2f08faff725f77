//! Events as they are written: `offer ACTOR SIGNAL VALUE ..`, `begin ACTOR`, `skip ACTOR`, `finish ACTOR`, `tick N`,
//! `env`, and the step `rebase`. Actors and signals are numbers. A number before the word repeats the step. A trial's
//! first line has the limits: of a port's signals, of the signals that wait for the environment, and of the journal's events.

use crate::calls::Stopped;
use crate::run::number;
use actor_book::{Limits, Offer};
use arrayvec::ArrayVec;
use link_whole::{Event, Scheduled};
use std::alloc::{AllocError, Global};
use std::str::SplitWhitespace;
use turn_code::{SignalNumber, Value};

/// The limits of a line.
pub fn limits_of(line: &str) -> Option<Limits> {
    let mut words = line.split_whitespace();
    let port = number(&mut words)?;
    let env = number(&mut words)?;
    let journal = number(&mut words)?;
    Limits::new(port as usize, env as usize, journal as usize)
}

/// The next word, as the number of an actor.
fn actor_of(words: &mut SplitWhitespace<'_>) -> Option<u16> {
    match words.next() {
        Some(word) => word.parse::<u16>().ok(),
        None => None,
    }
}

/// The next word, as the number of a signal.
fn signal_of(words: &mut SplitWhitespace<'_>) -> Option<SignalNumber> {
    match words.next() {
        Some(word) => match word.parse::<u8>() {
            Ok(number) => Some(SignalNumber(number)),
            Err(_) => None,
        },
        None => None,
    }
}

/// The value of a word.
fn value_of(word: &str) -> Option<Value> {
    match word {
        "true" => Some(Value::Bool(true)),
        "false" => Some(Value::Bool(false)),
        _ => match word.parse::<i32>() {
            Ok(number) => Some(Value::Int(number)),
            Err(_) => None,
        },
    }
}

/// The values of the words that are left, four at most.
fn values_of(words: &mut SplitWhitespace<'_>) -> Option<ArrayVec<Value, 4>> {
    let mut values: ArrayVec<Value, 4> = ArrayVec::new();
    for word in words {
        let value = value_of(word)?;
        if values.is_full() {
            return None;
        }
        values.push(value);
    }
    Some(values)
}

/// The offer of these words.
fn offer_of(words: &mut SplitWhitespace<'_>) -> Option<Offer> {
    let actor = actor_of(words)?;
    let signal = signal_of(words)?;
    let values = values_of(words)?;
    Some(Offer {
        actor,
        signal,
        values,
    })
}

/// The event of a word and those after it.
fn event_of(word: &str, words: &mut SplitWhitespace<'_>) -> Option<Event> {
    match word {
        "offer" => Some(Event::Offer(offer_of(words)?)),
        "begin" => Some(Event::Begin(actor_of(words)?)),
        "skip" => Some(Event::Skip(actor_of(words)?)),
        "finish" => Some(Event::Finish(actor_of(words)?)),
        "tick" => Some(Event::Advance(u64::from(number(words)?))),
        "env" => Some(Event::TakeEnv),
        _ => None,
    }
}

/// The step of a word and those after it.
fn step_of(word: &str, words: &mut SplitWhitespace<'_>) -> Option<Scheduled> {
    match word {
        "rebase" => Some(Scheduled::Rebase),
        _ => Some(Scheduled::Event(event_of(word, words)?)),
    }
}

/// The number of times that the step of a line is made, and the step.
fn line_of(line: &str) -> Option<(u32, Scheduled)> {
    let mut words = line.split_whitespace();
    let word = words.next()?;
    match word.parse::<u32>() {
        Ok(times) => {
            let word = words.next()?;
            Some((times, step_of(word, &mut words)?))
        }
        Err(_) => Some((1, step_of(word, &mut words)?)),
    }
}

/// Adds a step this many times.
fn add(steps: &mut Vec<Scheduled>, times: u32, step: &Scheduled) -> Result<(), AllocError> {
    for _ in 0..times {
        steps.push(step.copy())?;
    }
    Ok(())
}

/// The steps of all lines.
pub fn steps_of(alloc: Global, lines: &str) -> Result<Vec<Scheduled>, Stopped> {
    let mut steps = Vec::new(alloc);
    for line in lines.lines() {
        match line_of(line) {
            Some((times, step)) => add(&mut steps, times, &step)?,
            None => return Err(Stopped::BadLine),
        }
    }
    Ok(steps)
}
