//! Compares the counts of the seats with the journals.

ghost use Rattle.std.specs.Prelude.{◌≡◌, ◌↔◌, ◌+◌, IsTrue, sum, sum_by};
ghost use Rattle.actor_machine.specs.Ledger.{next};

use actor_book::Book;
use turn_pool::Closed;

/// The sum of the counts of all seats. There are fewer than 2^64 seats, so it is below 2^128.
fn counted(client: u64, workers: &[u64]) -> u128
    ensures { result ≡ client + sum workers.now }
{
    let _many = workers.len();
    let mut all = u128::from(client);
    for worker in workers {
        all += u128::from(*worker);
    }
    all
}

/// The sum of the numbers of events in all journals.
fn places(books: &[Book]) -> u128
    ensures { result ≡ sum_by next books.now }
{
    let _many = books.len();
    let mut all = 0u128;
    for book in books {
        all += u128::from(book.next());
    }
    all
}

/// Returns whether the seats' counts add up to the events in the journals. The journals must have begun at event 0.
pub fn agree(closed: &Closed) -> bool
    ensures { IsTrue result ↔ (closed.now.client + sum closed.now.workers.items ≡ sum_by next closed.now.books.items) }
{
    counted(closed.client, &closed.workers) == places(&closed.books)
}
