//! Putting books under locks and taking them out. Each gets a share of the account for all that its journal can hold.

ghost use Rattle.std.specs.Prelude.{◌≡◌, ◌≤◌, ◌<◌, ◌+◌, ◌*◌, ◌^◌, [], All, sum_by, vec_len, vec_capacity};
ghost use Rattle.actor_machine.specs.Ledger.{next};
ghost use Rattle.turn_pool.specs.Serves.{CountsFinishes};

use crate::slot::Slot;
use actor_book::Book;
use std::sync::Mutex;
use std::sync::ledger::{Ledger, Share};

/// Puts each book under a lock.
pub(crate) fn put_all_away<L: Ledger>(
    books: Vec<Book>,
    mut slots: Vec<Mutex<Slot<L>>>,
    rest: &mut Share<L>,
) -> Vec<Mutex<Slot<L>>>
    requires empty { vec_len slots ≡ 0 }
    requires room { vec_len books ≤ vec_capacity slots }
    requires parts { vec_len books < rest.old.parts }
    requires amount { vec_len books * 2 ^ 57 ≤ rest.old.amount }
    ensures len { vec_len result ≡ vec_len books }
    ensures parts { rest.new.parts + vec_len books ≡ rest.old.parts }
    ensures amount { rest.new.amount + vec_len books * 2 ^ 57 ≡ rest.old.amount + sum_by next books.items }
{
    let mut link = 0;
    for book in books {
        slots.push_reserved(Mutex::new(Slot::new(rest, book, link)));
        link += 1;
    }
    slots
}

/// Takes each book out from under its lock.
pub(crate) fn take_all_out<L: Ledger>(
    slots: Vec<Mutex<Slot<L>>>,
    mut books: Vec<Book>,
    rest: &mut Share<L>,
) -> Vec<Book>
    requires empty { books.items ≡ [] }
    requires room { vec_len slots ≤ vec_capacity books }
    ensures len { vec_len result ≡ vec_len slots }
    ensures parts { rest.new.parts ≡ rest.old.parts + vec_len slots }
    ensures amount { rest.new.amount + sum_by next result.items ≡ rest.old.amount + vec_len slots * 2 ^ 57 }
    ensures finishes { All CountsFinishes result.items }
{
    for slot in slots {
        books.push_reserved(slot.into_inner().into_book(rest));
    }
    books
}
