//! A terminal on a line, with its orders and its reports.
ghost use Rattle.std.specs.Prelude.{◌≡◌, ◌↔◌, ℕ, ◌+◌, ◌/◌, ◌++◌, ◌∷◌, [], IfOk, IfSome, OnOk, IsTrue, codes};
ghost use Rattle.std.specs.List.{flat_map};
ghost use Rattle.line_filter.specs.Orders.{QUIT, LooksAnew, anew_told, TellsAll, Obeys, told, listed, answered};
ghost use Rattle.line_filter.specs.Runs.{OCTETS, Exchanges, ObeysAll, Minds, Behind, Steps};
ghost use Rattle.line_filter.specs.Desks.{state_of, Told};
ghost use Rattle.line_filter.specs.Reporting.{TellsLine, TellsLines, kept};

use crate::orders::Orders;
use crate::reports::{Reports, Wait};
use crate::terminal::{Answer, LineTerminal};
use crate::voice::Voice;
use std::alloc::Global;
use std::fmt::Display;
use std::io::{self, ErrorKind};

/// How many octets are a millisecond, on a line of 64 kbit/s.
const OCTETS: u64 = 8;

/// A terminal on a line, with its orders, its reports and the count of octets.
#[derive(Drop)]
pub struct Desk<T, O, P> {
    /// The terminal.
    pub terminal: T,
    /// The octets that the terminal sends.
    pub voice: Voice,
    /// The source of orders.
    pub orders: O,
    /// The destination of reports.
    pub reports: P,
    /// How many octets were received.
    pub count: u64,
}

/// Reports a line.
fn tell_line<P: Reports, L: Display>(
    alloc: Global,
    wait: Wait,
    reports: &mut P,
    line: &L,
) -> io::Result<()>
    ensures { OnOk result (IfSome (L.output line.now) (λ text. TellsLine (P.stand reports.old) (P.stand reports.new) (record { wait = wait; octets = text ++ 10 ∷ [] }))) }
{
    let text = format!(in alloc; "{line}\n")?;
    reports.tell(wait, text.as_bytes())
}

/// Reports a line that begins with the millisecond. Whether it waits while its reader is away depends on its kind.
///
/// # Errors
///
/// If memory runs out or the report can't be written.
#[tactic(auto, using(crate::proofs::Reporting::tells_one))]
pub fn tell_kept<P: Reports>(
    alloc: Global,
    wait: Wait,
    now: u64,
    text: &str,
    reports: &mut P,
) -> io::Result<()>
    ensures { OnOk result (TellsLines (P.stand reports.old) (P.stand reports.new) (kept wait now text.now)) }
{
    tell_line(alloc, wait, reports, &format_args!("{now} {text}"))
}

/// Reports a line that begins with the millisecond. It doesn't wait while its reader is away.
///
/// # Errors
///
/// If memory runs out or the report can't be written.
#[tactic(auto, using(crate::proofs::Reporting::tells_one))]
pub fn tell<P: Reports>(alloc: Global, now: u64, text: &str, reports: &mut P) -> io::Result<()>
    ensures { OnOk result (TellsLines (P.stand reports.old) (P.stand reports.new) (told now text.now)) }
{
    tell_line(alloc, Wait::Never, reports, &format_args!("{now} {text}"))
}

/// Reports that orders begin anew, if they do.
#[tactic(auto, using(crate::proofs::Reporting::tells_none))]
fn tell_anew<P: Reports>(alloc: Global, now: u64, begins: bool, reports: &mut P) -> io::Result<()>
    ensures { OnOk result (TellsLines (P.stand reports.old) (P.stand reports.new) (anew_told now begins)) }
{
    if begins {
        tell(alloc, now, "orders truncated", reports)
    } else {
        Ok(())
    }
}

/// Checks whether orders begin anew, and reports it if they do.
///
/// # Errors
///
/// If reading the orders fails, memory runs out or the report can't be written.
pub fn look_anew<O: Orders, P: Reports>(
    alloc: Global,
    now: u64,
    orders: &mut O,
    reports: &mut P,
) -> io::Result<()>
    ensures { OnOk result (Told (λ bytes. LooksAnew now (O.left orders.old) bytes (O.left orders.new)) (P.stand reports.old) (P.stand reports.new)) }
{
    let begins = orders.begins_anew(alloc)?;
    tell_anew(alloc, now, begins, reports)
}

/// Writes all pending reports of the terminal.
fn tell_all<T: LineTerminal, P: Reports>(
    alloc: Global,
    terminal: &mut T,
    now: u64,
    reports: &mut P,
) -> io::Result<()>
    ensures { OnOk result (Told (λ bytes. TellsAll T.acts now terminal.old bytes terminal.new) (P.stand reports.old) (P.stand reports.new)) }
{
    for _told in 0..u64::MAX {
        match terminal.report(alloc)? {
            Some(text) => tell(alloc, now, text.as_str(), reports)?,
            None => return Ok(()),
        }
    }
    Err(io::Error::from(ErrorKind::Other))
}

/// Reports the lines that an order requested.
fn tell_lines<P: Reports>(
    alloc: Global,
    now: u64,
    order: &str,
    lines: &[String],
    reports: &mut P,
) -> io::Result<()>
    ensures { OnOk result (TellsLines (P.stand reports.old) (P.stand reports.new) (flat_map (listed now order.now) lines.now)) }
{
    for line in lines {
        tell_line(
            alloc,
            Wait::Never,
            reports,
            &format_args!("{now} {order} {line}"),
        )?;
    }
    Ok(())
}

/// Reports that an order was obeyed.
#[tactic(auto, using(crate::proofs::Reporting::tells_one))]
fn tell_done<P: Reports>(alloc: Global, now: u64, order: &str, reports: &mut P) -> io::Result<()>
    ensures { OnOk result (TellsLines (P.stand reports.old) (P.stand reports.new) (told now (codes "ok " ++ order.now))) }
{
    tell_line(
        alloc,
        Wait::Never,
        reports,
        &format_args!("{now} ok {order}"),
    )
}

/// Reports why an order was refused.
#[tactic(auto, using(crate::proofs::Reporting::tells_one))]
fn tell_refused<P: Reports>(alloc: Global, now: u64, why: &str, reports: &mut P) -> io::Result<()>
    ensures { OnOk result (TellsLines (P.stand reports.old) (P.stand reports.new) (told now (codes "refused " ++ why.now))) }
{
    tell_line(
        alloc,
        Wait::Never,
        reports,
        &format_args!("{now} refused {why}"),
    )
}

/// Reports the answer to an order.
#[tactic(auto, using(crate::proofs::Reporting::tells_trans))]
fn tell_answer<P: Reports>(
    alloc: Global,
    now: u64,
    order: &str,
    answer: &Answer,
    reports: &mut P,
) -> io::Result<()>
    ensures { OnOk result (TellsLines (P.stand reports.old) (P.stand reports.new) (answered now order.now answer.now)) }
{
    match answer {
        Answer::Done => tell_done(alloc, now, order, reports),
        Answer::Said(text) => {
            tell_done(alloc, now, order, reports)?;
            tell(alloc, now, text.as_str(), reports)
        }
        Answer::Listed(lines) => {
            tell_done(alloc, now, order, reports)?;
            tell_lines(alloc, now, order, lines, reports)
        }
        Answer::Refused(text) => tell_refused(alloc, now, text.as_str(), reports),
    }
}

/// Obeys an order, and writes the reports that follow from it.
fn obey<T: LineTerminal, P: Reports>(
    alloc: Global,
    terminal: &mut T,
    now: u64,
    order: &str,
    reports: &mut P,
) -> io::Result<()>
    ensures { OnOk result (Told (λ bytes. Obeys T.acts now terminal.old order.now bytes terminal.new) (P.stand reports.old) (P.stand reports.new)) }
{
    let answer = terminal.obey(alloc, order)?;
    tell_answer(alloc, now, order, &answer, reports)?;
    tell_all(alloc, terminal, now, reports)?;
    Ok(())
}

/// Whether an order ends the run.
fn is_quit(order: &str) -> bool
    ensures { IsTrue result ↔ (order.now ≡ QUIT) }
{
    order == "quit"
}

impl<T, O, P> Desk<T, O, P> {
    /// The current millisecond of its line: received octets divided by 8.
    pub fn millisecond(&self) -> u64
        ensures { result ≡ self.now.count / OCTETS }
    {
        self.count / OCTETS
    }
}

impl<T: LineTerminal, O: Orders, P: Reports> Desk<T, O, P> {
    /// Sends one octet and receives one.
    fn exchange(&mut self, alloc: Global, octet: u8) -> io::Result<u8>
        ensures made { IfOk result (λ gives. Told (λ bytes. Exchanges T.acts (self.old.count / OCTETS) (state_of O.left self.old) octet gives bytes
            (state_of O.left self.new)) (P.stand self.old.reports) (P.stand self.new.reports)) }
        ensures count { self.new.count ≡ self.old.count }
    {
        let out = self.voice.next(&mut self.terminal)?;
        self.terminal.line_in(octet)?;
        tell_all(
            alloc,
            &mut self.terminal,
            self.count / OCTETS,
            &mut self.reports,
        )?;
        Ok(out)
    }

    /// Obeys the orders that are due. Returns whether the run goes on.
    fn obey_due(&mut self, alloc: Global, now: u64) -> io::Result<bool>
        ensures made { IfOk result (λ goes_on. Told (λ bytes. ObeysAll T.acts now (state_of O.left self.old) bytes goes_on (state_of O.left self.new))
            (P.stand self.old.reports) (P.stand self.new.reports)) }
        ensures count { self.new.count ≡ self.old.count }
    {
        look_anew(alloc, now, &mut self.orders, &mut self.reports)?;
        for _obeyed in 0..u64::MAX {
            let Some(order) = self.orders.next(alloc, now)? else {
                return Ok(true);
            };
            let text = order.as_str();
            if is_quit(text) {
                tell(alloc, now, "ok quit", &mut self.reports)?;
                return Ok(false);
            }
            obey(alloc, &mut self.terminal, now, text, &mut self.reports)?;
        }
        Err(io::Error::from(ErrorKind::Other))
    }

    /// Lets a millisecond pass. Returns whether the run goes on.
    fn mind(&mut self, alloc: Global, now: u64) -> io::Result<bool>
        ensures made { IfOk result (λ goes_on. Told (λ bytes. Minds T.acts now (state_of O.left self.old) bytes goes_on (state_of O.left self.new))
            (P.stand self.old.reports) (P.stand self.new.reports)) }
        ensures count { self.new.count ≡ self.old.count }
    {
        self.terminal.tick()?;
        tell_all(alloc, &mut self.terminal, now, &mut self.reports)?;
        let goes_on = self.obey_due(alloc, now)?;
        Ok(goes_on)
    }

    /// Handles `count` received octets: at each eighth, a millisecond passes. Returns whether the run goes on.
    fn go_behind(&mut self, alloc: Global, count: u64) -> io::Result<bool>
        ensures made { IfOk result (λ goes_on. Told (λ bytes. Behind T.acts count (state_of O.left self.old) bytes goes_on (state_of O.left self.new))
            (P.stand self.old.reports) (P.stand self.new.reports)) }
        ensures count { self.new.count ≡ self.old.count }
    {
        if count % OCTETS != 0 {
            return Ok(true);
        }
        let goes_on = self.mind(alloc, count / OCTETS)?;
        Ok(goes_on)
    }

    /// Receives one octet and appends the octet sent to `out`. Returns whether the run goes on.
    pub(crate) fn step(&mut self, alloc: Global, octet: u8, out: &mut Vec<u8>) -> io::Result<bool>
        ensures made { IfOk result (λ goes_on. (gives : ℕ) × (out.new.items ≡ out.old.items ++ gives ∷ [])
            × Told (λ bytes. Steps T.acts self.old.count (state_of O.left self.old) octet gives bytes goes_on (state_of O.left self.new))
            (P.stand self.old.reports) (P.stand self.new.reports)) }
        ensures count { OnOk result (self.new.count ≡ self.old.count + 1) }
    {
        let count = self.count;
        if count == u64::MAX {
            return Err(io::Error::from(ErrorKind::Other));
        }
        let gives = self.exchange(alloc, octet)?;
        out.push(gives)?;
        self.count = count + 1;
        let goes_on = self.go_behind(alloc, count + 1)?;
        Ok(goes_on)
    }
}
