//! Tests of what rooms refuse, and with which refusal.
use crate::links::{ECHOES, links};
use actor_book::Book;
use std::alloc::Global;
use turn_machine::Room;

/// An action on a room.
#[derive(Clone, Copy)]
enum Act {
    /// An actor of a link begins a turn into the room.
    Begin(usize, u16),
    /// An actor of a link begins a turn whose job is lost.
    Lose(usize, u16),
    /// The turn in the room runs.
    Run,
    /// The turn that ran in the room ends on a link.
    Finish(usize),
}

/// An action on a room, the reply, and how many events the journals of the two links have then.
#[derive(Clone, Copy)]
struct Step {
    act: Act,
    answer: &'static str,
    events: [u64; 2],
}

/// Two new links of one text with two actors each, and one room.
const STEPS: [Step; 19] = [
    // the room is empty
    Step {
        act: Act::Run,
        answer: "ok",
        events: [0, 0],
    },
    Step {
        act: Act::Finish(0),
        answer: "B6 Stranger",
        events: [0, 0],
    },
    // the room keeps its turn until it has ended on its own link, for its own actor
    Step {
        act: Act::Begin(0, 0),
        answer: "ok",
        events: [1, 0],
    },
    Step {
        act: Act::Begin(0, 1),
        answer: "B13 Taken",
        events: [1, 0],
    },
    Step {
        act: Act::Begin(1, 0),
        answer: "B13 Taken",
        events: [1, 0],
    },
    Step {
        act: Act::Finish(0),
        answer: "B6 Stranger",
        events: [1, 0],
    },
    Step {
        act: Act::Run,
        answer: "ok",
        events: [1, 0],
    },
    Step {
        act: Act::Run,
        answer: "ok",
        events: [1, 0],
    },
    Step {
        act: Act::Begin(0, 1),
        answer: "B13 Taken",
        events: [1, 0],
    },
    Step {
        act: Act::Finish(1),
        answer: "B6 Stranger",
        events: [1, 0],
    },
    Step {
        act: Act::Finish(0),
        answer: "ok",
        events: [2, 0],
    },
    // no turn ends twice
    Step {
        act: Act::Finish(0),
        answer: "B6 Stranger",
        events: [2, 0],
    },
    // a turn that the book refuses leaves the room free
    Step {
        act: Act::Begin(0, 0),
        answer: "B5 Nothing",
        events: [2, 0],
    },
    Step {
        act: Act::Begin(0, 9),
        answer: "B10 NoActor",
        events: [2, 0],
    },
    // the second turn of one link isn't a turn of the other link, where it would be the first
    Step {
        act: Act::Begin(0, 1),
        answer: "ok",
        events: [3, 0],
    },
    Step {
        act: Act::Run,
        answer: "ok",
        events: [3, 0],
    },
    Step {
        act: Act::Finish(1),
        answer: "B6 Stranger",
        events: [3, 0],
    },
    Step {
        act: Act::Finish(0),
        answer: "ok",
        events: [4, 0],
    },
    Step {
        act: Act::Begin(1, 1),
        answer: "ok",
        events: [4, 1],
    },
];

/// Two new links. Both have their first turn out, of the same actor on the same input, so the two can't be told apart.
const EQUAL: [Step; 7] = [
    Step {
        act: Act::Begin(0, 0),
        answer: "ok",
        events: [1, 0],
    },
    Step {
        act: Act::Lose(1, 0),
        answer: "ok",
        events: [1, 1],
    },
    Step {
        act: Act::Run,
        answer: "ok",
        events: [1, 1],
    },
    Step {
        act: Act::Finish(1),
        answer: "ok",
        events: [1, 2],
    },
    // the turn ended, so the room is empty, and the turn of the other link's actor is still out
    Step {
        act: Act::Finish(0),
        answer: "B6 Stranger",
        events: [1, 2],
    },
    Step {
        act: Act::Begin(0, 0),
        answer: "B4 Busy",
        events: [1, 2],
    },
    Step {
        act: Act::Begin(0, 1),
        answer: "ok",
        events: [2, 2],
    },
];

/// The reply when an actor of a book begins a turn whose job is lost.
fn lost(book: &mut Book, actor: u16) -> &'static str {
    match book.begin(actor) {
        Ok(_) => "ok",
        Err(refusal) => refusal.name(),
    }
}

/// The reply when an actor of a book begins a turn into a room.
fn begun(book: &mut Book, room: &mut Room, actor: u16) -> &'static str {
    match book.begin_in(room, actor) {
        Ok(_) => "ok",
        Err(refusal) => refusal.name(),
    }
}

/// The reply when the turn that ran in a room ends on a book.
fn finished(book: &mut Book, room: &mut Room) -> &'static str {
    match book.finish_in(room) {
        Ok(_) => "ok",
        Err(refusal) => refusal.name(),
    }
}

/// The reply to an action.
fn answer(books: &mut [Book], room: &mut Room, act: Act) -> &'static str {
    match act {
        Act::Begin(link, actor) => match books.get_mut(link) {
            Some(book) => begun(book, room, actor),
            None => "no link",
        },
        Act::Lose(link, actor) => match books.get_mut(link) {
            Some(book) => lost(book, actor),
            None => "no link",
        },
        Act::Run => {
            room.run();
            "ok"
        }
        Act::Finish(link) => match books.get_mut(link) {
            Some(book) => finished(book, room),
            None => "no link",
        },
    }
}

/// Whether the journals of two links have these numbers of events.
fn have(books: &[Book], events: [u64; 2]) -> bool {
    match books {
        [one, other] => one.next() == events[0] && other.next() == events[1],
        _ => false,
    }
}

/// The number of the first step with another result.
fn first_other(books: &mut [Book], steps: &[Step]) -> Option<usize> {
    let mut room = Room::new();
    for (number, step) in steps.iter().enumerate() {
        let is_right = answer(books, &mut room, step.act) == step.answer;
        if !is_right || !have(books, step.events) {
            return Some(number);
        }
    }
    None
}

/// As `first_other`, on new links; a number that no step has if memory runs out.
fn first_other_of(alloc: Global, steps: &[Step]) -> Option<usize> {
    match links(alloc, ECHOES, 2, 64) {
        Some(mut books) => first_other(books.as_mut_slice(), steps),
        None => Some(usize::MAX),
    }
}

#[test]
fn a_room_is_refused_by_name_and_stays(rt: HostRuntime) {
    assert_eq!(rt; first_other_of(rt.alloc(), &STEPS), None);
}

#[test]
fn an_equal_turn_ends_on_either_link(rt: HostRuntime) {
    assert_eq!(rt; first_other_of(rt.alloc(), &EQUAL), None);
}
