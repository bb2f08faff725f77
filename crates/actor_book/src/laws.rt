//! Laws of turns, rests and schedules. Calling one costs nothing.
ghost use Rattle.actor_book.specs.Laws.{StaysLaw, TurnLaw, RestLaw};
ghost use Rattle.actor_book.specs.Schedules.{ByTextLaw, KeptLaw, RoomLaw};

use actor_machine::laws::{finish_law, keeps_law, out_law, set_law, text_law};
use turn_code::laws::{run_law, safe_law};

/// A try that isn't `Made` leaves the book as it is.
pub fn failed_tries_change_nothing()
    ensures { StaysLaw }
{}

/// One turn is that of the least actor that can have one.
pub fn turns_are_of_the_least()
    ensures { TurnLaw }
{}

/// A rest of at most so many turns is a run of such turns. It ends early only if no actor can have a turn, or if the
/// journal has no room for the least that could.
pub fn rests_are_runs()
    ensures { RestLaw }
{}

/// Any schedule, of events and rebases, has the same answers and leaves the same book in the same state, by the code of
/// the set and by any meaning of the set.
pub fn schedules_are_by_text()
    ensures { ByTextLaw }
{
    text_law();
    keeps_law();
    set_law();
}

/// Any schedule, of events and rebases, keeps the invariant of every book (`Book::keeps`), its set and its limit.
pub fn schedules_keep_books()
    ensures { KeptLaw }
{
    keeps_law();
    set_law();
}

/// Along any schedule an event is refused as `B8 JournalFull` exactly if the link would accept it otherwise, and the
/// events accepted since the last rebase and the turns that are out leave fewer places than it needs, or the place 2^56
/// is reached.
pub fn lack_of_room_is_exact()
    ensures { RoomLaw }
{
    keeps_law();
    set_law();
    out_law();
    finish_law();
    safe_law();
    run_law();
}
