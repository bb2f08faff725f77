//! Turns that are ended elsewhere than they began: on another link, as another instance's, or after a rebase. Also
//! rebases of books with a turn out, and of large books.
use crate::links::{TWINS, UP, book_of, links};
use crate::of_books::numbers;
use crate::texts::COUNTER;
use actor_book::{Book, Event, Limits};
use std::alloc::{AllocError, Global};
use turn_code::{Value, VariableNumber};
use turn_machine::{Done, Job, run};

/// The variable in which the counter keeps its total.
const TOTAL: VariableNumber = VariableNumber(1);

/// Runs START of a counter's link, and offers it a number. Whether both succeeded.
fn is_offered(book: &mut Book, number: i32) -> bool {
    book.turn(0).is_ok() && book.offer(0, UP, &[Value::Int(number)]).is_ok()
}

/// The total of a counter's link after a turn ends there; `None` if it is refused.
fn total_behind(book: &mut Book, done: Done) -> Option<Value> {
    match book.finish(done) {
        Ok(_) => book.variable(0, TOTAL),
        Err(_) => None,
    }
}

/// The turn that a link returns because it doesn't have it out; `None` if it is accepted, or the link changed.
fn refused_by(book: &mut Book, done: Done) -> Option<Done> {
    let before = numbers(book);
    let back = book.finish(done).err()?;
    if numbers(book) == before {
        Some(back)
    } else {
        None
    }
}

/// Two links begin turns. Ends the first turn on the second link, then on the first, and then the second. Both totals.
fn ended_at_home(one: &mut Book, other: &mut Book) -> Option<[Option<Value>; 2]> {
    let job = one.begin(0).ok()?;
    let own = other.begin(0).ok()?;
    let back = refused_by(other, run(job))?;
    Some([total_behind(one, back), total_behind(other, run(own))])
}

/// As `ended_at_home`, with new links, of which one is offered 5 and the other 7.
fn exchanged(alloc: Global) -> Option<[Option<Value>; 2]> {
    let mut books = links(alloc, COUNTER, 2, 16)?;
    let [one, other] = books.as_mut_slice() else {
        return None;
    };
    if is_offered(one, 5) && is_offered(other, 7) {
        ended_at_home(one, other)
    } else {
        None
    }
}

/// A turn of the same process on another link, with another input, is refused and returned. Its own link accepts it.
#[test]
fn a_turn_ends_on_its_own_link(rt: HostRuntime) {
    assert_eq!(rt;
        exchanged(rt.alloc()),
        Some([Some(Value::Int(5)), Some(Value::Int(7))])
    );
}

/// The first instance begins on link `one`, the second on link `other`. Ends the first turn on `other`, which returns
/// it, then both turns on their own links. The numbers of both links.
fn ended_as_itself(one: &mut Book, other: &mut Book) -> Option<[[u64; 5]; 2]> {
    let job = one.begin(0).ok()?;
    let own = other.begin(1).ok()?;
    let back = refused_by(other, run(job))?;
    one.finish(back).ok()?;
    other.finish(run(own)).ok()?;
    Some([numbers(one), numbers(other)])
}

/// As `ended_as_itself`, with new links.
fn twins_exchanged(alloc: Global) -> Option<[[u64; 5]; 2]> {
    let mut books = links(alloc, TWINS, 2, 16)?;
    let [one, other] = books.as_mut_slice() else {
        return None;
    };
    ended_as_itself(one, other)
}

/// One instance's START isn't another's, though process, turn number, place and input are the same. Both are accepted
/// only where they are out. Each link has one turn, of one instruction, and two events.
#[test]
fn a_turn_ends_as_its_own_instance(rt: HostRuntime) {
    assert_eq!(rt;
        twins_exchanged(rt.alloc()),
        Some([[1, 1, 0, 2, 0], [1, 1, 0, 2, 0]])
    );
}

/// Rebases a link with a turn out, and ends the turn. Returns how many turns the base has out, the link's numbers after
/// that, and whether the turn's end is the only event of the journal.
fn ended_behind_rebase(book: &mut Book, job: Job) -> Option<(usize, [u64; 5], bool)> {
    book.rebase().ok()?;
    let outs = book.base().outs();
    book.finish(run(job)).ok()?;
    let is_first = match book.journal() {
        [Event::Finish(0)] => true,
        _ => false,
    };
    Some((outs, numbers(book), is_first))
}

/// As `ended_behind_rebase`, with a new link of the counter and its START.
fn start_behind_rebase(alloc: Global) -> Option<(usize, [u64; 5], bool)> {
    let mut book = book_of(alloc, COUNTER, Limits::new(1, 1, 16)?)?;
    let job = book.begin(0).ok()?;
    ended_behind_rebase(&mut book, job)
}

/// One turn of three instructions has ended. The journal begins at 1, the next event is 2. The base has no ended turn.
#[test]
fn a_turn_ends_behind_a_rebase(rt: HostRuntime) {
    assert_eq!(rt;
        start_behind_rebase(rt.alloc()),
        Some((1, [1, 3, 1, 2, 0], true))
    );
}

/// The number of consecutive rebases of a link with a turn out.
const REBASES: u32 = 20;

/// Lets a tick pass on a link with a turn out, and rebases it. Whether its journal is empty and the base has the turn
/// out; or if memory runs out, whether both are unchanged.
fn is_rebased_or_stays(book: &mut Book) -> bool {
    let ticked = book.advance(1).is_ok();
    let (first, next, outs) = (book.first(), book.next(), book.base().outs());
    let wanted = if book.rebase().is_ok() {
        (next, 1)
    } else {
        (first, outs)
    };
    ticked && (book.first(), book.base().outs()) == wanted && book.next() == next
}

/// Whether all rebases of a link with a turn out succeed or change nothing, and the turn can be ended after them.
fn is_out_throughout(book: &mut Book) -> bool {
    let Ok(job) = book.begin(0) else {
        return false;
    };
    for _ in 0..REBASES {
        if !is_rebased_or_stays(book) {
            return false;
        }
    }
    book.state().outs() == 1 && book.finish(run(job)).is_ok()
}

/// As `is_out_throughout`, with a new link; `None` if it can't be opened.
fn new_is_out_throughout(alloc: Global) -> Option<bool> {
    let mut book = book_of(alloc, COUNTER, Limits::new(1, 1, 16)?)?;
    Some(is_out_throughout(&mut book))
}

/// Holds whichever allocation fails: a rebase that fails changes nothing.
#[test]
fn want_of_memory_leaves_a_turn_out(rt: HostRuntime) {
    assert!(rt; new_is_out_throughout(rt.alloc()) != Some(false));
}

/// The number of processes of the large set: the limit of a set.
const PROCESSES: u16 = 16;

/// The text of a set of processes, each of which sends each Up of the environment back.
fn large_text(alloc: Global) -> Result<String, AllocError> {
    let mut text = String::new(alloc);
    text.push_str("BLOCK B; SIGNAL Up;")?;
    for number in 0..PROCESSES {
        writeln!(
            text,
            "SIGNALROUTE i{number} FROM ENV TO P{number} WITH Up; SIGNALROUTE o{number} FROM P{number} TO ENV WITH Up;"
        )?;
        writeln!(
            text,
            "PROCESS P{number}; START; NEXTSTATE S; STATE S; INPUT Up; OUTPUT Up; NEXTSTATE S; ENDPROCESS;"
        )?;
    }
    text.push_str("ENDBLOCK;")?;
    Ok(text)
}

/// Offers each process of the large set an Up and runs a turn, at first START. Returns the number of refusals.
fn round(book: &mut Book) -> u64 {
    let mut refused = 0u64;
    for actor in 0..PROCESSES {
        let offered = book.offer(actor, UP, &[]).is_ok();
        let turned = book.turn(actor).is_ok();
        refused = refused.saturating_add(u64::from(!offered) + u64::from(!turned));
    }
    refused
}

/// Fills a link of the large set: 100 rounds, and one more Up for the last process. Returns the number of refusals.
fn fill(book: &mut Book) -> u64 {
    let mut refused = 0u64;
    for _ in 0..100u32 {
        refused = refused.saturating_add(round(book));
    }
    let offered = book.offer(PROCESSES - 1, UP, &[]).is_ok();
    refused.saturating_add(u64::from(!offered))
}

/// The number of the process that sent the signal waiting for the environment at an index; 99 if there is none.
fn sender_at(book: &Book, place: usize) -> u64 {
    match book.waiting_at(place) {
        Some(emitted) => u64::from(emitted.sender.process.0),
        None => 99,
    }
}

/// Rebases a link while its last process is out. Returns the place where the journal begins, the number of turns out,
/// the number of signals that wait for the environment, the sender of the last of 1,024, and the number of ended turns.
fn rebased_out(book: &mut Book) -> Option<[u64; 5]> {
    let job = book.begin(PROCESSES - 1).ok()?;
    book.rebase().ok()?;
    let found = [
        book.first(),
        book.base().outs() as u64,
        book.base().waiting() as u64,
        sender_at(book, 1_023),
        book.base().finishes(),
    ];
    book.finish(run(job)).ok()?;
    book.rebase().ok()?;
    Some(found)
}

/// As `rebased_out`, with a new link of the large set after it is filled, and the number of refused offers and turns.
fn large_rebased(alloc: Global) -> Option<(u64, [u64; 5])> {
    let text = large_text(alloc).ok()?;
    let mut book = book_of(alloc, text.as_str(), Limits::new(2, 1_024, 65_536)?)?;
    let refused = fill(&mut book);
    let found = rebased_out(&mut book)?;
    Some((refused, found))
}

/// 100 rounds of 16 offers and turns are 4,800 events; an offer and a begin are two more. 1,024 of 1,584 outputs fit.
#[test]
fn a_book_that_holds_much_is_rebased(rt: HostRuntime) {
    assert_eq!(rt;
        large_rebased(rt.alloc()),
        Some((0, [4_802, 1, 1_024, 15, 1_600]))
    );
}
