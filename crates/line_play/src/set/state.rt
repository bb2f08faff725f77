//! A set, the state of its orders, and its reports.
ghost use Rattle.std.specs.Prelude.{◌≡◌, OnOk, string_bytes};
ghost use Rattle.line_filter.specs.Desks.{Told as TellsSuch};
ghost use Rattle.line_filter.specs.Orders.{told};
ghost use Rattle.line_filter.specs.Reporting.{TellsLines, kept};
ghost use Rattle.line_tending.specs.Texts.{told_text};
ghost use Rattle.line_play.specs.SetDoing.{stood, marked, answered};
ghost use Rattle.line_play.specs.SetRounds.{TellsAll};
ghost use Rattle.line_play.specs.SetSaying.{wait_of};

use crate::set::measures::Since;
use crate::set::orders::Focus;
use line_filter::{Reports, Wait, tell, tell_kept};
use line_tending::{TendError, TendedSet, Told};
use std::alloc::{AllocError, Global};
use std::io::{self, ErrorKind};

/// Whether a run goes on.
#[derive(Clone, Copy, Debug, PartialEq, Eq)]
pub enum Ending {
    /// It does, and no end was ordered.
    Stays,
    /// No message is taken any more, and links are stopped once they hold none, or at this millisecond.
    Leaves(u64),
    /// Its links are stopped, and it ends at this millisecond.
    Stops(u64),
    /// It is over.
    Over,
}

/// A set, and the state of its orders.
#[derive(Drop)]
pub struct SetState {
    /// The link set.
    pub tender: TendedSet,
    /// The measurements of its links when their counts were last reset.
    pub(crate) since: Vec<Since>,
    /// The links addressed by orders that name none.
    pub(crate) focus: Focus,
    /// Whether the run goes on.
    pub(crate) ending: Ending,
    /// The beginning of each line of the answer to the current order: its tag and a space, or nothing.
    pub(crate) mark: String,
}

/// The I/O error for a failure to tend the link set.
pub(crate) fn failed(error: TendError) -> io::Error {
    match error {
        TendError::NoMemory => io::Error::from(ErrorKind::OutOfMemory),
        TendError::NoTick => io::Error::from(ErrorKind::Other),
        TendError::NoLink => io::Error::from(ErrorKind::NotFound),
    }
}

impl SetState {
    /// Begins an order, whose answer begins with this mark.
    pub(crate) fn mark_with(&mut self, mark: &str) -> Result<(), AllocError>
        ensures { OnOk result (stood self.new ≡ marked mark.now (stood self.old)) }
    {
        self.mark.clear();
        self.mark.push_str(mark)?;
        Ok(())
    }

    /// Reports a line of the answer to the current order, after the millisecond and the order's tag. It waits for its
    /// reader.
    pub(crate) fn say<P: Reports>(
        &self,
        alloc: Global,
        text: &str,
        reports: &mut P,
    ) -> io::Result<()>
        ensures { OnOk result (TellsLines (P.stand reports.old) (P.stand reports.new) (answered (stood self.now) text.now)) }
    {
        let mark = self.mark.as_str();
        let line = format!(in alloc; "{mark}{text}")?;
        tell_kept(
            alloc,
            Wait::Answer,
            self.tender.now(),
            line.as_str(),
            reports,
        )
    }

    /// Reports a line given as a `String`, with the millisecond first.
    pub(crate) fn say_text<P: Reports>(
        &self,
        alloc: Global,
        text: String,
        reports: &mut P,
    ) -> io::Result<()>
        ensures { OnOk result (TellsLines (P.stand reports.old) (P.stand reports.new) (answered (stood self.now) (string_bytes text))) }
    {
        self.say(alloc, text.as_str(), reports)
    }
}

/// Reports a line at millisecond `now`, with the millisecond first.
pub(crate) fn say_of<P: Reports>(
    alloc: Global,
    tender: &TendedSet,
    text: String,
    reports: &mut P,
) -> io::Result<()>
    ensures { OnOk result (TellsLines (P.stand reports.old) (P.stand reports.new) (told tender.now.ticks (string_bytes text))) }
{
    tell(alloc, tender.now(), text.as_str(), reports)
}

/// Whether a report of the set waits for its reader: messages for level 3, losses of messages that it had accepted, and
/// that the reader is away.
fn wait_of(item: &Told) -> Wait
    ensures { result ≡ wait_of item.now }
{
    match item {
        Told::Message(..) => Wait::Message,
        Told::Unsure(..) | Told::Down(..) | Told::ReaderAway | Told::ReaderBack => Wait::Other,
        Told::InService(_)
        | Told::FarOut(_)
        | Told::FarBack(_)
        | Told::Started(_)
        | Told::Changeover(_)
        | Told::Says(..)
        | Told::Hears(..)
        | Told::Diverted(..)
        | Told::Tested(_)
        | Told::Looped(_)
        | Told::Shared(_) => Wait::Never,
    }
}

/// Reports an item that the link set hands out.
fn tell_told<P: Reports>(alloc: Global, now: u64, item: &Told, reports: &mut P) -> io::Result<()>
    ensures { OnOk result (TellsLines (P.stand reports.old) (P.stand reports.new) (kept (wait_of item.now) now (told_text item.now))) }
{
    let text = format!(in alloc; "{item}")?;
    tell_kept(alloc, wait_of(item), now, text.as_str(), reports)
}

/// Makes all reports of a link set.
pub(crate) fn tell_all<P: Reports>(
    alloc: Global,
    tender: &mut TendedSet,
    reports: &mut P,
) -> io::Result<()>
    ensures { OnOk result (TellsSuch (λ bytes. TellsAll tender.old bytes tender.new) (P.stand reports.old) (P.stand reports.new)) }
{
    for _told in 0..u64::MAX {
        match tender.take_told() {
            Some(item) => tell_told(alloc, tender.now(), &item, reports)?,
            None => return Ok(()),
        }
    }
    Err(io::Error::from(ErrorKind::Other))
}
