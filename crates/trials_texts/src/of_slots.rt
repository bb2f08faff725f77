//! A link's slot that is stepped by hand: turns by value and in a room, and the calls of a client.
ghost use Rattle.std.specs.Prelude.{◌≡◌};

use crate::links::{ECHO, UP, book_of};
use actor_book::{Book, Limits, Refusal};
use std::alloc::Global;
use std::marker::Brand;
use std::sync::ledger::{Blank, Ledger};
use turn_machine::{Room, run};
use turn_pool::{Move, Moved, Seat, Slot, Totals, leave_seat, take_seat, work};

/// START by value: its job runs here and ends. A copy of what ran is a stranger after that, and comes back.
fn starts<L: Ledger>(slot: &mut Slot<L>, seat: &mut Seat<L>, totals: &Totals<L>) -> [bool; 3] {
    let Ok(job) = slot.begin(seat, totals, 0) else {
        return [false; 3];
    };
    let done = run(job);
    let copy = done.copy();
    let has_ended = slot.finish(seat, totals, done).is_ok();
    match slot.finish(seat, totals, copy) {
        Ok(_) => [false; 3],
        Err(back) => [has_ended, back.job().turn() == 0, seat.events() == 2],
    }
}

/// Whether a step of a worker was answered so: a turn began (1), the room holds no turn that ran (2), there was nothing
/// to discard (3), no turn was taken (4); 0 otherwise.
fn said(moved: Moved) -> u8 {
    match moved {
        Moved::Begun(Ok(())) => 1,
        Moved::Finished(Err(Refusal::Stranger)) => 2,
        Moved::Skipped(Err(Refusal::Nothing)) => 3,
        Moved::Turned(0) => 4,
        _ => 0,
    }
}

/// A turn begins in a room, where it doesn't run; it ends by value. Returns the answers of the worker's steps.
fn turns<L: Ledger>(slot: &mut Slot<L>, seat: &mut Seat<L>, totals: &Totals<L>) -> ([u8; 4], bool) {
    let mut room = Room::new();
    let begun = said(work(slot, seat, totals, &mut room, Move::Begin(0)));
    let finished = said(work(slot, seat, totals, &mut room, Move::Finish));
    let has_ended = match slot.book().job(0) {
        Some(job) => slot.finish(seat, totals, run(job)).is_ok(),
        None => false,
    };
    let skipped = said(work(slot, seat, totals, &mut room, Move::Skip(0)));
    let turned = said(work(slot, seat, totals, &mut room, Move::Turns(3)));
    ([begun, finished, skipped, turned], has_ended)
}

/// The place of the receipt for a signal that is offered, of the receipt for its echo, and after that of the next event.
fn places<L: Ledger>(
    slot: &mut Slot<L>,
    seat: &mut Seat<L>,
    totals: &Totals<L>,
) -> [Option<u64>; 3] {
    let offered = match slot.offer(seat, totals, 0, UP, &[]) {
        Ok(receipt) => Some(receipt.place),
        Err(_) => None,
    };
    let (steps, has_ended) = turns(slot, seat, totals);
    if steps != [1, 2, 3, 4] || !has_ended {
        return [None; 3];
    }
    let taken = match slot.take_env(seat, totals) {
        Ok((_, receipt)) => Some(receipt.place),
        Err(_) => None,
    };
    [offered, taken, slot.rebase().ok()]
}

/// Whether START was taken by value, the places of receipts, and the counts of the seat and of the journal.
fn stepped<L: Ledger>(blank: Blank, book: Book) -> ([bool; 3], [Option<u64>; 3], [u64; 2])
    requires name { blank.name ≡ L.name }
    requires parts { blank.parts ≡ L.parts }
    requires three { blank.parts ≡ 3 }
{
    let (totals, mut rest) = Totals::<L>::open(blank);
    let mut seat = take_seat(&mut rest);
    let mut slot = Slot::new(&mut rest, book, 0);
    let started = starts(&mut slot, &mut seat, &totals);
    let places = places(&mut slot, &mut seat, &totals);
    let counted = leave_seat(&mut rest, seat);
    let book = slot.into_book(&mut rest);
    (started, places, [counted, book.next()])
}

/// As `stepped`, for a new link.
fn by_hand(alloc: Global) -> Option<([bool; 3], [Option<u64>; 3], [u64; 2])> {
    let book = book_of(alloc, ECHO, Limits::new(1, 4, 64)?)?;
    Some(stepped::<Brand>(Blank::new(3), book))
}

#[test]
fn a_slot_is_stepped_by_hand(rt: HostRuntime) {
    let (started, places, counts) = by_hand(rt.alloc()).unwrap_or(([false; 3], [None; 3], [0; 2]));
    assert_eq!(rt; started, [true; 3]);
    assert_eq!(rt; places, [Some(2), Some(5), Some(6)]);
    assert_eq!(rt; counts, [6, 6]);
}
