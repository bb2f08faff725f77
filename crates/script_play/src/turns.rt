//! The turns of a book's script are as the text of its set says.
ghost use Rattle.script_play.specs.Turns.{HasTurns};

use actor_machine::laws::set_law;
use link_whole::events_run_as_read;
use turn_check::Verified;

/// Whatever a book's script does on this set, each event is as the text of the set says. Calling this costs nothing.
pub(crate) fn turns_are_as_read(set: &Verified)
    ensures { HasTurns set.now }
{
    events_run_as_read();
    set_law();
    let _valid = set.draft();
}
