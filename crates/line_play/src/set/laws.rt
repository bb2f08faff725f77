//! Laws for every run of a link set on lines: the contracts of functions that do nothing.
ghost use Rattle.std.specs.Prelude.{◌≡◌, ℕ, Bool, List, [], map, Option, Some};
ghost use Rattle.line_filter.specs.Orders.{Timed};
ghost use Rattle.line_filter.specs.Reporting.{Stand, ToldLine};
ghost use Rattle.line_tending.specs.Lives.{Lived};
ghost use Rattle.line_tending.specs.Tended.{Tended};
ghost use Rattle.line_play.specs.LineTraffic.{Traffic};
ghost use Rattle.line_play.specs.SetAnswers.{AreAnswered, AreRead, read_along};
ghost use Rattle.line_play.specs.SetDesks.{RanFrom};
ghost use Rattle.line_play.specs.SetDoing.{now_of};
ghost use Rattle.line_play.specs.SetLaws.{sent_along, told_along, came_along, InOrder, of_selection, octets_of};
ghost use Rattle.line_play.specs.SetMessages.{messages_in, TellMessages};
ghost use Rattle.line_play.specs.SetPromised.{IsPromised};
ghost use Rattle.line_play.specs.SetReported.{AreReported, NoneIsLeft};
ghost use Rattle.line_play.specs.SetRounds.{SetPlace, Rounds};
ghost use Rattle.line_play.specs.SetStanding.{RunsStand};

use line_tending::messages_taken_in_a_life_stand;

/// Every change of the link set in a run is made by its calls; `send` took the messages of the orders reported as ok,
/// in order. If no report is left, the messages reported are those that its links handed out for level 3, in order.
pub fn a_run_is_a_life_of_its_set()
    ensures { (ahead : ℕ) (p q : SetPlace) (bytes : List ToldLine) (traffic : List Traffic) (goes_on : Bool) → (run : Rounds ahead p bytes traffic goes_on q)
        → Lived p.stood.tender (sent_along run) (told_along run) q.stood.tender }
{}

/// If none waited before a run, the messages of each selection that the set took along it are among those of the orders
/// that came, and in the order of these orders. However many are waiting, none overtakes another of its selection.
pub fn messages_of_a_selection_keep_their_order()
    ensures { (ahead : ℕ) (p q : SetPlace) (bytes : List ToldLine) (traffic : List Traffic) (goes_on : Bool) → (run : Rounds ahead p bytes traffic goes_on q)
        → p.waiting ≡ [] → (s : ℕ) → InOrder (of_selection s (map octets_of (sent_along run))) (of_selection s (came_along run)) }
{}

/// Among the lines reported along a run, those of messages report the messages for level 3 that the set delivered: each
/// once, in order. If the reader of the reports may be away, they are lines that have to wait, of which none is lost
/// ([`line_filter::what_waits_is_never_lost`]).
pub fn each_message_is_told_once()
    ensures { (ahead : ℕ) (p q : SetPlace) (bytes : List ToldLine) (traffic : List Traffic) (goes_on : Bool) → (run : Rounds ahead p bytes traffic goes_on q)
        → TellMessages (told_along run) (messages_in bytes) }
{}

/// If the orders to come are known before a run, those read along it are the first of them, each once and in order.
pub fn orders_are_read_in_order()
    ensures { (ahead : ℕ) (p q : SetPlace) (bytes : List ToldLine) (traffic : List Traffic) (goes_on : Bool) → (run : Rounds ahead p bytes traffic goes_on q)
        → (orders : List Timed) → p.left ≡ Some orders → AreRead orders (read_along run) q.left }
{}

/// If no order waited before a run, each order that came along it is answered once, or it waits. Each line of its answer
/// bears its tag. It is answered within 5 s, and at once if it sends no message; one that waits came less than 5 s ago.
/// The set took the messages of those answered `ok`, in the order of the answers.
pub fn each_order_is_answered_once()
    ensures { (ahead : ℕ) (p q : SetPlace) (bytes : List ToldLine) (traffic : List Traffic) (goes_on : Bool) → (run : Rounds ahead p bytes traffic goes_on q)
        → p.waiting ≡ [] → AreAnswered (read_along run) (sent_along run) bytes (now_of q.stood) q.waiting }
{}

/// If no report was left before a run, the messages for level 3 that links delivered along it are reported by one line
/// each, in order. Each of these lines is written or still waits, also while the reader is away.
pub fn each_message_is_reported_or_waits()
    ensures { (ahead : ℕ) (p q : SetPlace) (bytes : List ToldLine) (traffic : List Traffic) (goes_on : Bool) → (run : Rounds ahead p bytes traffic goes_on q)
        → NoneIsLeft p.stood.tender → AreReported p.stood.tender q.stood.tender (sent_along run) p.reports q.reports bytes }
{}

/// The messages that the set took before a run, then those of the orders answered `ok` along it, and no others, are each
/// in one place at its end, or have left, acknowledged or unsure: in order for each selection. The set counts the unsure
/// ones.
pub fn messages_of_a_run_stand()
    ensures { RunsStand }
{
    messages_taken_in_a_life_stand();
}

/// All of this of a run from its first round on: how its orders were read and answered, which messages were taken and in
/// which order and where they are, and how the messages that links delivered were reported. Before the run no report was
/// left.
pub fn a_run_keeps_its_promises()
    ensures { (ahead : ℕ) (tender : Tended) (left left_after : Option (List Timed)) (before after : Stand) (given_before given : Option (List Traffic))
        → RanFrom ahead tender left left_after before after given_before given → tender.reports ≡ [] → IsPromised tender left left_after before after }
{
    messages_taken_in_a_life_stand();
}
