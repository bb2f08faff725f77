//! Links of small sets, with their texts.
use actor_book::{Book, Limits};
use mtp2_text::load;
use std::alloc::{AllocError, Global};
use turn_check::Verified;
use turn_code::SignalNumber;

/// The one signal, without parameters.
pub const UP: SignalNumber = SignalNumber(0);

/// A process that sends each Up of the environment back to it.
pub const ECHO: &str =
    "BLOCK B; SIGNAL Up; SIGNALROUTE i FROM ENV TO P WITH Up; SIGNALROUTE o FROM P TO ENV WITH Up; PROCESS P (1,1); START; NEXTSTATE Run; STATE Run; INPUT Up; OUTPUT Up; NEXTSTATE Run; ENDSTATE Run; ENDPROCESS P; ENDBLOCK B;";

/// Two instances of the process of [`ECHO`].
pub const TWINS: &str =
    "BLOCK B; SIGNAL Up; SIGNALROUTE i FROM ENV TO P WITH Up; SIGNALROUTE o FROM P TO ENV WITH Up; PROCESS P (2,2); START; NEXTSTATE Run; STATE Run; INPUT Up; OUTPUT Up; NEXTSTATE Run; ENDSTATE Run; ENDPROCESS P; ENDBLOCK B;";

/// Two processes as in [`ECHO`].
pub const ECHOES: &str =
    "BLOCK B; SIGNAL Up; SIGNALROUTE i FROM ENV TO P WITH Up; SIGNALROUTE o FROM P TO ENV WITH Up; SIGNALROUTE j FROM ENV TO Q WITH Up; SIGNALROUTE q FROM Q TO ENV WITH Up; PROCESS P (1,1); START; NEXTSTATE Run; STATE Run; INPUT Up; OUTPUT Up; NEXTSTATE Run; ENDSTATE Run; ENDPROCESS P; PROCESS Q (1,1); START; NEXTSTATE Run; STATE Run; INPUT Up; OUTPUT Up; NEXTSTATE Run; ENDSTATE Run; ENDPROCESS Q; ENDBLOCK B;";

/// A process that sends itself an Up in every turn.
pub const ENDLESS: &str =
    "BLOCK B; SIGNAL Up; SIGNALROUTE r FROM P TO P WITH Up; PROCESS P (1,1); START; OUTPUT Up; NEXTSTATE Run; STATE Run; INPUT Up; OUTPUT Up; NEXTSTATE Run; ENDSTATE Run; ENDPROCESS P; ENDBLOCK B;";

/// A process that sends itself two signals in every turn. Its state consumes only the first.
pub const WASTEFUL: &str =
    "BLOCK B; SIGNAL Up, Down; SIGNALROUTE r FROM P TO P WITH Up, Down; PROCESS P (1,1); START; OUTPUT Up, Down; NEXTSTATE Run; STATE Run; INPUT Up; OUTPUT Up, Down; NEXTSTATE Run; ENDSTATE Run; ENDPROCESS P; ENDBLOCK B;";

/// A process that sends each Up of the environment back, and doesn't consume Down, the second signal.
pub const PICKY: &str =
    "BLOCK B; SIGNAL Up, Down; SIGNALROUTE i FROM ENV TO P WITH Up, Down; SIGNALROUTE o FROM P TO ENV WITH Up; PROCESS P (1,1); START; NEXTSTATE Run; STATE Run; INPUT Up; OUTPUT Up; NEXTSTATE Run; ENDSTATE Run; ENDPROCESS P; ENDBLOCK B;";

/// A process that saves A until it has consumed a C.
pub const SAVER: &str =
    "BLOCK B; SIGNAL A, C; SIGNALROUTE i FROM ENV TO P WITH A, C; PROCESS P (1,1); START; NEXTSTATE S1; STATE S1; SAVE A; INPUT C; NEXTSTATE S2; ENDSTATE S1; STATE S2; INPUT A; NEXTSTATE S2; INPUT C; NEXTSTATE S2; ENDSTATE S2; ENDPROCESS P; ENDBLOCK B;";

/// Opens `count` links of a set.
pub fn opened(
    alloc: Global,
    set: &Verified,
    count: usize,
    limits: Limits,
) -> Result<Vec<Book>, AllocError> {
    let mut books = Vec::new(alloc);
    for _ in 0..count {
        books.push(Book::open(alloc, set, limits)?)?;
    }
    Ok(books)
}

/// Opens `count` links of a text.
pub fn links_of(alloc: Global, text: &str, count: usize, limits: Limits) -> Option<Vec<Book>> {
    match load(alloc, text) {
        Ok(set) => opened(alloc, &set, count, limits).ok(),
        Err(_) => None,
    }
}

/// Opens `count` links of a text, with ports for one signal and rings of four.
pub fn links(alloc: Global, text: &str, count: usize, journal: usize) -> Option<Vec<Book>> {
    links_of(alloc, text, count, Limits::new(1, 4, journal)?)
}

/// Opens one link of a text.
pub fn book_of(alloc: Global, text: &str, limits: Limits) -> Option<Book> {
    match load(alloc, text) {
        Ok(set) => Book::open(alloc, &set, limits).ok(),
        Err(_) => None,
    }
}
