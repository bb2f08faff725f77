//! Laws of the table and of a life. Each is the contract of a function without code.
ghost use Rattle.m3ua_gateway.specs.Laws.{ActiveTogether, AllReached, NoErrorForAnError, TakenWhileActive, MessagesMoved, ToldOfChanges, NeverToldOfDown, Accounted, Followed};

/// The ASP is active exactly while the AS is.
pub fn active_together()
    ensures { ActiveTogether }
{}

/// Each state is reached.
pub fn all_reached()
    ensures { AllReached }
{}

/// An ERR gets no answer, and changes nothing.
pub fn no_error_for_an_error()
    ensures { NoErrorForAnError }
{}

/// DATA is taken only while the AS is active.
pub fn taken_while_active()
    ensures { TakenWhileActive }
{}

/// Which cells of the table send what was kept, lose it, take DATA, and count DATA as refused.
pub fn messages_moved()
    ensures { MessagesMoved }
{}

/// An ASP that isn't down is told of each change of its AS (RFC 4666, 4.3.4.5).
pub fn told_of_changes()
    ensures { ToldOfChanges }
{}

/// An ASP is never told that its AS is down.
pub fn never_told_of_down()
    ensures { NeverToldOfDown }
{}

/// Over a life each message that the set delivered was sent, is kept or was lost, and each DATA was taken by the set,
/// waits or was refused.
pub fn accounted()
    ensures { Accounted }
{}

/// What a gateway knows, its queues and its two counts, follows its life.
pub fn followed()
    ensures { Followed }
{}
