//! Laws that follow from the machine. A call does nothing at run time.

ghost use Rattle.actor_machine.specs.Full.{FullLaw};
ghost use Rattle.actor_machine.specs.Laws.{KeepsLaw, SetLaw, StateLaw, FitsLaw, TimerLaw, ItemLaw, TextLaw, FinishLaw, WithinLaw, NeverStuckLaw, OutLaw, OverLaw, PlaceLaw};

use tick_wheel::laws::due_law;
use turn_code::laws::{effects_law, run_law, safe_law, start_law};

/// An opened book has the invariant, and each event, each list of events and each rebase keeps it. All fits in each
/// state from its base to the present one, and its numbers stay within their bounds. Turns that are out have different
/// numbers. No timer that has a deadline has a signal in the port.
pub fn keeps_law()
    ensures { KeepsLaw }
{
    safe_law();
    run_law();
    effects_law();
    start_law();
    due_law();
}

/// No event and no rebase changes the set of processes or the limit of the journal.
pub fn set_law()
    ensures { SetLaw }
{}

/// The state after an accepted event is the machine's next one.
pub fn state_law()
    ensures { StateLaw }
{}

/// All fits in the present state of a book.
pub fn fits_law()
    ensures { FitsLaw }
{}

/// No timer that has a deadline (one that `Wheel::is_active` names) has a signal in its actor's port, in any state of a
/// book. The deadline goes as the signal comes, and SET, RESET and STOP remove the signal.
pub fn timer_law()
    ensures { TimerLaw }
{}

/// An item that may wait for a process fits each input that waits for it, in every state of the process.
pub fn item_law()
    ensures { ItemLaw }
{}

/// Any list of events has the same answers and leaves the same book in the same state, by the code of the set and by
/// any meaning of the set.
pub fn text_law()
    ensures { TextLaw }
{
    run_law();
    effects_law();
    start_law();
    due_law();
}

/// A turn that is out ends by the run of its own code on its own input, within the budget of its certificate. Each of
/// its outputs has a receiver: the environment, or an actor of the process that it goes to.
pub fn finish_law()
    ensures { FinishLaw }
{
    safe_law();
    run_law();
    effects_law();
}

/// Along any list of events each turn that ends does so within the budget of its certificate.
pub fn within_law()
    ensures { WithinLaw }
{
    safe_law();
    run_law();
    effects_law();
    start_law();
    due_law();
}

/// A finish is refused exactly if the actor has no turn out.
pub fn out_law()
    ensures { OutLaw }
{}

/// A turn that has ended never comes back: from then on no actor has a turn with its number out.
pub fn over_law()
    ensures { OverLaw }
{
    safe_law();
    run_law();
}

/// An accepted event gets the next place of the journal, and stays there until a rebase.
pub fn place_law()
    ensures { PlaceLaw }
{}

/// No turn ever gets stuck.
pub fn never_stuck_law()
    ensures { NeverStuckLaw }
{
    safe_law();
    run_law();
}

/// Refusals and losses as Full, EnvFull and Stopped are exact. An offer is B1 Full exactly if a route brings it to a
/// full port. A turn's report lists exactly the outputs to a full port or a full environment and, of those that have a
/// receiver, those to an actor that has stopped. The losses are in the order of their places, without duplicates.
pub fn full_law()
    ensures { FullLaw }
{}
