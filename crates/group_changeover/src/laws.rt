//! The law of where messages are. The function has no code.
ghost use Rattle.group_changeover.specs.Laws.{StepsKeepPlaces};

/// Whatever is added to a link, leaves it, is retrieved or diverted, and whatever link a selection without messages
/// gets: each accepted message is in one place or has left, in order for each selection.
pub fn steps_keep_places()
    ensures { StepsKeepPlaces }
{}
