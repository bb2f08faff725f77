//! Laws for all that a set that manages itself did: the contracts of functions that do nothing.
ghost use Rattle.std.specs.Prelude.{◌≡◌, List, ◌++◌};
ghost use Rattle.resend_store.specs.declared.messages.Msu.{Msu};
ghost use Rattle.line_tending.specs.Calling.{ByCalls};
ghost use Rattle.line_tending.specs.Lives.{Lives};
ghost use Rattle.line_tending.specs.Rounds.{Handed, reports_told};
ghost use Rattle.line_tending.specs.Standing.{TakenStand};
ghost use Rattle.line_tending.specs.Tended.{Tended};
ghost use Rattle.line_tending.specs.declared.told.Told.{Told};

use link_group::{each_message_stands_in_one_place, unsure_messages_are_counted};

/// The set changes only by its calls, in which `send` took these messages and links delivered these reports.
pub fn a_life_is_by_calls()
    ensures { (t u : Tended) (sent : List Msu) (handed : List Handed) (told : List Told) → Lives t sent handed told u → ByCalls t.set sent handed u.set }
{}

/// The reports made, followed by those pending, are those that were pending at first, followed by the reports that
/// links delivered: messages for level 3, and changes of links.
pub fn each_report_is_told_once()
    ensures { (t u : Tended) (sent : List Msu) (handed : List Handed) (told : List Told) → Lives t sent handed told u
        → told ++ u.reports ≡ t.reports ++ reports_told t.plan handed }
{}

/// The messages that a set took before a history and in it, and no others, are each in one place, or have left,
/// acknowledged or unsure, in order for each selection. The set counts the unsure ones.
pub fn messages_taken_in_a_life_stand()
    ensures { TakenStand }
{
    each_message_stands_in_one_place();
    unsure_messages_are_counted();
}
