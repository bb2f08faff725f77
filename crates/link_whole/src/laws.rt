//! Laws of schedules on a link of a text. Calling one costs nothing.
ghost use Rattle.link_whole.specs.Laws.{EventsLaw, ReadLaw};

use actor_book::schedules_are_by_text;
use actor_machine::laws::{
    finish_law, fits_law, full_law, keeps_law, never_stuck_law, out_law, set_law, state_law,
};
use sdl_compile::set_law as block_law;
use turn_code::laws::{run_law, safe_law};

/// Any schedule on a link that was opened with a text's set does what the text says, event by event. Turns begin with
/// the items that the text's INPUTs and SAVEs say, and end as the text means. Refusals for fullness and outputs that are
/// lost are exact.
pub fn schedules_run_as_read()
    ensures { ReadLaw }
{
    schedules_are_by_text();
    keeps_law();
    set_law();
    state_law();
    fits_law();
    finish_law();
    full_law();
    out_law();
    safe_law();
    run_law();
}

/// So does any list of events on a link that was opened with the set of a sound block.
pub fn events_run_as_read()
    ensures { EventsLaw }
{
    schedules_run_as_read();
    block_law();
    keeps_law();
    set_law();
    never_stuck_law();
}
