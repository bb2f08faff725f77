//! The results of a pool, and the check of receipts against its journals.

ghost use Rattle.std.specs.Prelude.{◌≡◌, ◌↔◌, IsTrue, Some, IfErr, OnOk, slice_get};
ghost use Rattle.actor_machine.specs.Ledger.{event_at};
ghost use Rattle.turn_pool.specs.Receipts.{StandsIn, AllStand, FailsAt};

use crate::receipt::Receipt;
use actor_book::Book;
use actor_machine::Event;
use std::fmt;
use thiserror::Error;

/// The results of a pool.
#[derive(Drop)]
pub struct Closed {
    /// The books of the links, in order.
    pub books: Vec<Book>,
    /// The number of journal events that the client made.
    pub client: u64,
    /// The number of journal events that each worker made.
    pub workers: Vec<u64>,
}

/// A receipt whose event isn't at its place.
#[derive(Clone, Copy, PartialEq, Eq, Debug, Error)]
pub struct Mismatch {
    /// Its position in the list, from 0.
    pub position: usize,
}

impl fmt::Display for Mismatch {
    ghost use Rattle.std.specs.Prelude.{Some};
    ghost use Rattle.turn_pool.specs.Printed.{mismatch_text};

    ghost output = { λ e. Some (mismatch_text e) };

    fn fmt<W: fmt::Write>(&self, f: &mut fmt::Formatter<W>) -> fmt::Result {
        write!(f, "G3 Mismatch {}", self.position)
    }
}

/// Whether the event is at this place of a book's journal.
fn has(book: &Book, place: u64, event: &Event) -> bool
    ensures { IsTrue result ↔ (event_at book.now place ≡ Some event.now) }
{
    if place < book.first() {
        return false;
    }
    match book.journal().get((place - book.first()) as usize) {
        Some(there) => there.same(event),
        None => false,
    }
}

/// Whether the event of a receipt is at its place.
fn stands(books: &[Book], receipt: &Receipt) -> bool
    ensures { IsTrue result ↔ StandsIn books.now receipt.now }
{
    match books.get(receipt.link) {
        Some(book) => has(book, receipt.place, &receipt.event),
        None => false,
    }
}

/// Compares receipts with the journals.
fn audited(books: &[Book], receipts: &[Receipt]) -> Result<(), Mismatch>
    ensures ok { OnOk result (AllStand books.now receipts.now) }
    ensures err { IfErr result (λ e. FailsAt books.now receipts.now e.position) }
{
    for position in 0..receipts.len() {
        if !stands(books, &receipts[position]) {
            return Err(Mismatch { position });
        }
    }
    Ok(())
}

impl Closed {
    /// Compares receipts with the journals.
    ///
    /// # Errors
    ///
    /// `G3 Mismatch` with the position of a receipt whose event isn't at its place in the journal of its link.
    /// Events before the base are at no place.
    pub fn audit(&self, receipts: &[Receipt]) -> Result<(), Mismatch>
        ensures ok { OnOk result (AllStand self.now.books.items receipts.now) }
        ensures err { IfErr result (λ e. FailsAt self.now.books.items receipts.now e.position) }
    {
        audited(self.books.as_slice(), receipts)
    }
}
