//! Obeys orders to a link set, and reports the outcome.
ghost use Rattle.std.specs.Prelude.{◌≡◌, ◌++◌, List, ℕ, [], true, false, IfOk, IfSome, IsSome, IsNone, None, OnOk, Some, codes, option_map, string_bytes};
ghost use Rattle.line_filter.specs.Desks.{Told as TellsSuch};
ghost use Rattle.line_filter.specs.Reporting.{TellsLines};
ghost use Rattle.link_group.specs.Commanding.{command_error_text};
ghost use Rattle.line_tending.specs.Rounds.{AddsOrders};
ghost use Rattle.script_ends.specs.TermAnswers.{command_of};
ghost use Rattle.line_play.specs.SetDoing.{stood, answered, first_of, IsNoLink, Commands, Looks, Rebalances, leaves_from, leaving, lacks_links, NoFocus, NoRebalance, NoCommand, state_at, value_at, IsShowable, MayShow, Changes, Refuses};
ghost use Rattle.line_play.specs.SetGiven.{plain_said};
ghost use Rattle.line_play.specs.SetObeying.{Obeys, ObeysThere, refusal_line};
ghost use Rattle.line_play.specs.SetOrders.{plain_set_order, is_send};
ghost use Rattle.line_play.specs.SetShowing.{answer_lines};

use crate::link::texts::{refusal_in, text_of};
use crate::set::commanding::obey_links;
use crate::set::given::Said;
use crate::set::orders::{Focus, SetOrder};
use crate::set::state::{Ending, SetState};
use line_filter::Reports;
use link_group::CommandError;
use std::alloc::{AllocError, Global};
use std::io;

/// The seconds for which messages are sent after `leave`, if it names no other number.
const LEAVES_FOR: u32 = 10;

/// The reported reason why an order isn't obeyed.
type Refused = String;

/// A refusal as a text.
fn refusal<D: std::fmt::Display>(alloc: Global, why: &D) -> Result<Option<Refused>, AllocError>
    ensures some { IfOk result (λ r. IsSome r) }
    ensures text { IfOk result (λ r. IfSome r (λ told. IfSome (D.output why.now) (λ text. string_bytes told ≡ text))) }
{
    Ok(Some(format!(in alloc; "{why}")?))
}

/// Why a question was refused, if the line that a script prints for it says so.
fn why_refused(alloc: Global, line: &[u8]) -> io::Result<Option<Refused>>
    ensures some { IfOk result (λ r. IfSome r (λ why. line.now ≡ codes "refused " ++ string_bytes why)) }
    ensures none { IfOk result (λ r. IsNone r → (why : List ℕ) → line.now ≡ codes "refused " ++ why → ⊥) }
{
    match refusal_in(line) {
        Some(why) => Ok(Some(text_of(alloc, why)?)),
        None => Ok(None),
    }
}

/// Why a command was refused; none if it was obeyed.
fn refused_for(alloc: Global, error: Option<CommandError>) -> Result<Option<Refused>, AllocError>
    ensures none { IfOk result (λ r. IsNone r → error ≡ None) }
    ensures some { IfOk result (λ r. IfSome r (λ why. option_map command_error_text error ≡ Some (string_bytes why))) }
{
    match error {
        Some(error) => refusal(alloc, &error),
        None => Ok(None),
    }
}

/// Opens the file of reports again. Returns why not, if that fails.
fn reopen<P: Reports>(alloc: Global, reports: &mut P) -> io::Result<Option<Refused>>
    ensures some { IfOk result (λ r. IfSome r (λ why. string_bytes why ≡ codes "F2 NoFile")) }
    ensures same { OnOk result (P.stand reports.new ≡ P.stand reports.old) }
{
    if reports.reopen()? {
        return Ok(None);
    }
    Ok(refusal(alloc, &"F2 NoFile")?)
}

/// Whether a text has no octets.
pub(crate) fn is_blank(text: &str) -> bool
    ensures none { result ≡ true → text.now ≡ [] }
    ensures some { result ≡ false → text.now ≡ [] → ⊥ }
{
    text.is_empty()
}

/// The first of some links, or 0.
fn first_of(links: &[usize]) -> usize
    ensures { result ≡ first_of links.now }
{
    match links {
        [first, ..] => *first,
        [] => 0,
    }
}

/// How a run ends after `leave`, with this last millisecond.
fn leaves_from(ending: Ending, until: u64) -> Ending
    ensures { result ≡ leaves_from ending until }
{
    match ending {
        Ending::Stays | Ending::Leaves(_) => Ending::Leaves(until),
        Ending::Stops(since) => Ending::Stops(since),
        Ending::Over => Ending::Over,
    }
}

impl SetState {
    /// Returns why the state of an actor can't be reported. All links have the same actors.
    fn why_no_state(
        &self,
        alloc: Global,
        links: &[usize],
        process: &str,
    ) -> io::Result<Option<Refused>>
        ensures some { IfOk result (λ r. IfSome r (λ why. state_at process.now self.now.tender (first_of links.now) ≡ Some (codes "refused " ++ string_bytes why))) }
        ensures none { IfOk result (λ r. IsNone r → IsShowable (state_at process.now self.now.tender (first_of links.now))) }
    {
        let first = first_of(links);
        match self.state_line(alloc, first, process)? {
            Some(line) => why_refused(alloc, line.as_slice()),
            None => Ok(None),
        }
    }

    /// Returns why the value of a variable can't be reported.
    fn why_no_value(
        &self,
        alloc: Global,
        links: &[usize],
        process: &str,
        variable: &str,
    ) -> io::Result<Option<Refused>>
        ensures some { IfOk result (λ r. IfSome r (λ why. value_at process.now variable.now self.now.tender (first_of links.now) ≡ Some (codes "refused " ++ string_bytes why))) }
        ensures none { IfOk result (λ r. IsNone r → IsShowable (value_at process.now variable.now self.now.tender (first_of links.now))) }
    {
        let first = first_of(links);
        match self.value_line(alloc, first, process, variable)? {
            Some(line) => why_refused(alloc, line.as_slice()),
            None => Ok(None),
        }
    }

    /// Returns why a question about an actor isn't answered, by the line that a script prints for it.
    fn why_unanswered(
        &self,
        alloc: Global,
        links: &[usize],
        order: &SetOrder,
    ) -> io::Result<Option<Refused>>
        ensures some { IfOk result (λ r. IfSome r (λ why. Refuses (plain_set_order order.now) links.now (stood self.now) (string_bytes why) (stood self.now))) }
        ensures none { IfOk result (λ r. IsNone r → MayShow (plain_set_order order.now) links.now self.now.tender) }
    {
        match order {
            SetOrder::State(process) => self.why_no_state(alloc, links, process.as_str()),
            SetOrder::Value(process, variable) => {
                self.why_no_value(alloc, links, process.as_str(), variable.as_str())
            }
            _ => Ok(None),
        }
    }

    /// Gives an order to links. Returns why not, if one of them refuses it.
    fn order_links(
        &mut self,
        alloc: Global,
        links: &[usize],
        order: script_links::Order,
    ) -> Result<Option<Refused>, AllocError>
        ensures adds { OnOk result (AddsOrders self.old.tender self.new.tender) }
        ensures same { stood self.new ≡ record (stood self.old) { tender = self.new.tender } }
        ensures obeys { IfOk result (λ r. IsNone r → Commands (command_of order) links.now (stood self.old) (stood self.new)) }
        ensures fault { IfOk result (λ r. IfSome r (λ why. NoCommand (command_of order) links.now (stood self.old) (string_bytes why) (stood self.new))) }
    {
        let first = obey_links(&mut self.tender, links, order)?;
        refused_for(alloc, first)
    }

    /// Whether these links exist.
    fn is_there(&self, focus: Focus) -> bool
        ensures there { result ≡ true → IsNoLink focus self.now.tender → ⊥ }
        ensures none { result ≡ false → IsNoLink focus self.now.tender }
    {
        match focus {
            Focus::Nothing => false,
            Focus::Link(link) => link < self.tender.len(),
            Focus::All => true,
        }
    }

    /// `on L` and `on all`: from now on, orders address these links; or none if there is no such link.
    fn look_at(&mut self, alloc: Global, focus: Focus) -> Result<Option<Refused>, AllocError>
        ensures same { self.new.tender ≡ self.old.tender }
        ensures looks { IfOk result (λ r. IsNone r → Looks focus (stood self.old) (stood self.new)) }
        ensures none { IfOk result (λ r. IfSome r (λ why. NoFocus focus (stood self.old) (string_bytes why) (stood self.new))) }
    {
        if !self.is_there(focus) {
            self.focus = Focus::Nothing;
            return refusal(alloc, &"K1 NoLink");
        }
        self.focus = focus;
        Ok(None)
    }

    /// `rebalance`.
    fn rebalance(&mut self, alloc: Global) -> Result<Option<Refused>, AllocError>
        ensures adds { AddsOrders self.old.tender self.new.tender }
        ensures done { IfOk result (λ r. IsNone r → Rebalances (stood self.old) (stood self.new)) }
        ensures none { IfOk result (λ r. IfSome r (λ why. NoRebalance (stood self.old) (string_bytes why) (stood self.new))) }
    {
        match self.tender.rebalance() {
            Ok(()) => Ok(None),
            Err(error) => refusal(alloc, &error),
        }
    }

    /// `leave`: from now on no message is taken, and links are stopped in so many seconds at most, 10 unless stated. If
    /// they are stopped already, it changes nothing.
    fn leave(&mut self, seconds: Option<u32>)
        ensures { stood self.new ≡ leaving seconds (stood self.old) }
    {
        let milliseconds = u64::from(seconds.unwrap_or(LEAVES_FOR)) * 1_000;
        let until = self.tender.now().saturating_add(milliseconds);
        self.ending = leaves_from(self.ending, until);
    }

    /// Obeys an order that sends no message and whose only answer is `ok`. Returns why not, if it isn't obeyed.
    fn obey_plain(
        &mut self,
        alloc: Global,
        links: &[usize],
        order: &SetOrder,
    ) -> Result<Option<Refused>, AllocError>
        requires { is_send (plain_set_order order.now) ≡ false }
        ensures adds { OnOk result (AddsOrders self.old.tender self.new.tender) }
        ensures changes { IfOk result (λ r. IsNone r → Changes (plain_set_order order.now) links.now (stood self.old) (stood self.new)) }
        ensures refuses { IfOk result (λ r. IfSome r (λ why. Refuses (plain_set_order order.now) links.now (stood self.old) (string_bytes why) (stood self.new))) }
    {
        match order {
            SetOrder::On(focus) => self.look_at(alloc, *focus),
            SetOrder::Link(order) => self.order_links(alloc, links, *order),
            SetOrder::Reset => {
                self.reset_links(links);
                Ok(None)
            }
            SetOrder::Rebalance => self.rebalance(alloc),
            SetOrder::Quit => {
                self.ending = Ending::Over;
                Ok(None)
            }
            SetOrder::Leave(seconds) => {
                self.leave(*seconds);
                Ok(None)
            }
            _ => Ok(None),
        }
    }

    /// Whether the current order has no tag, but words.
    fn is_bare(&self, text: &str) -> bool
        ensures mark { result ≡ true → string_bytes self.now.mark ≡ [] }
        ensures some { result ≡ true → text.now ≡ [] → ⊥ }
        ensures none { result ≡ false → string_bytes self.now.mark ≡ [] → text.now ≡ [] }
    {
        if is_blank(text) {
            return false;
        }
        is_blank(self.mark.as_str())
    }

    /// Reports why an order isn't obeyed. Its words follow if it has no tag.
    pub(crate) fn refuse<P: Reports>(
        &self,
        alloc: Global,
        text: &str,
        why: &str,
        reports: &mut P,
    ) -> io::Result<()>
        ensures { OnOk result (TellsLines (P.stand reports.old) (P.stand reports.new) (refusal_line (stood self.now) text.now why.now)) }
    {
        if self.is_bare(text) {
            return self.say_text(alloc, format!(in alloc; "refused {why} {text}")?, reports);
        }
        self.say_text(alloc, format!(in alloc; "refused {why}")?, reports)
    }

    /// Reports that an order was obeyed.
    pub(crate) fn agree<P: Reports>(
        &self,
        alloc: Global,
        text: &str,
        reports: &mut P,
    ) -> io::Result<()>
        ensures { OnOk result (TellsLines (P.stand reports.old) (P.stand reports.new) (answered (stood self.now) (codes "ok " ++ text.now))) }
    {
        self.say_text(alloc, format!(in alloc; "ok {text}")?, reports)
    }

    /// Reports that an order was obeyed, followed by its answer.
    fn answer<P: Reports>(
        &self,
        alloc: Global,
        links: &[usize],
        text: &str,
        order: &SetOrder,
        reports: &mut P,
    ) -> io::Result<()>
        ensures { OnOk result (TellsLines (P.stand reports.old) (P.stand reports.new) (answer_lines (plain_set_order order.now) links.now (stood self.now) text.now)) }
    {
        self.agree(alloc, text, reports)?;
        self.tell_asked(alloc, links, order, reports)
    }

    /// Carries out `reopen`, if the order is that. Returns why not, if it fails.
    fn why_not_reopened<P: Reports>(
        &self,
        alloc: Global,
        order: &SetOrder,
        reports: &mut P,
    ) -> io::Result<Option<Refused>>
        ensures some { (whom : List ℕ) → IfOk result (λ r. IfSome r (λ why. Refuses (plain_set_order order.now) whom (stood self.now) (string_bytes why) (stood self.now))) }
        ensures same { OnOk result (P.stand reports.new ≡ P.stand reports.old) }
    {
        match order {
            SetOrder::Reopen => reopen(alloc, reports),
            _ => Ok(None),
        }
    }

    /// Obeys an order to links that exist, or another order that sends no message, and reports it.
    fn obey_there<P: Reports>(
        &mut self,
        alloc: Global,
        links: &[usize],
        text: &str,
        order: &SetOrder,
        reports: &mut P,
    ) -> io::Result<()>
        requires { is_send (plain_set_order order.now) ≡ false }
        ensures { OnOk result (TellsSuch (λ bytes. ObeysThere text.now (plain_set_order order.now) links.now (stood self.old) bytes (stood self.new)) (P.stand reports.old) (P.stand reports.new)) }
    {
        if let Some(why) = self.why_unanswered(alloc, links, order)? {
            return self.refuse(alloc, text, why.as_str(), reports);
        }
        if let Some(why) = self.why_not_reopened(alloc, order, reports)? {
            return self.refuse(alloc, text, why.as_str(), reports);
        }
        match self.obey_plain(alloc, links, order)? {
            Some(why) => self.refuse(alloc, text, why.as_str(), reports),
            None => self.answer(alloc, links, text, order, reports),
        }
    }

    /// Whether an order addresses links of which none is selected or one doesn't exist.
    fn lacks_links(&self, said: &Said) -> bool
        ensures { result ≡ lacks_links (plain_said said.now) (stood self.now) }
    {
        said.order.needs_links() && said.whom.lacks(self.focus, self.tender.len())
    }

    /// Obeys an order that sends no message, and reports the outcome.
    pub(crate) fn obey_other<P: Reports>(
        &mut self,
        alloc: Global,
        text: &str,
        said: &Said,
        reports: &mut P,
    ) -> io::Result<()>
        requires { is_send (plain_set_order said.now.order) ≡ false }
        ensures { OnOk result (TellsSuch (λ bytes. Obeys text.now (Some (plain_said said.now)) (stood self.old) bytes (stood self.new)) (P.stand reports.old) (P.stand reports.new)) }
    {
        if self.lacks_links(said) {
            return self.refuse(alloc, text, "K1 NoLink", reports);
        }
        let links = said.whom.links(alloc, self.focus, self.tender.len())?;
        self.obey_there(alloc, links.as_slice(), text, &said.order, reports)
    }
}
