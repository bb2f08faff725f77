//! The acts of a set while messages for level 3 wait for their reader.
ghost use Rattle.std.specs.Prelude.{◌≡◌, ◌∷◌, ◌++◌, [], true, false, OnOk};
ghost use Rattle.link_group.specs.Lines.{ByCommand, IsCommandError};
ghost use Rattle.line_tending.specs.Giving.{WasGiven};
ghost use Rattle.line_tending.specs.Orders.{is_ordered, ordered_of};
ghost use Rattle.line_tending.specs.Readers.{reader_next, is_busy, is_out, is_put_off, starts_out, commands_at, Holds, Minds, news_of, Pressed, PressesEach};
ghost use Rattle.line_tending.specs.Rounds.{Adds};
ghost use Rattle.line_tending.specs.Telling.{report_in, news_by};

use crate::tended_set::{TendError, TendedSet};
use crate::told::Told;
use link_processes::Command;

/// With so many waiting messages all links become busy.
const MANY: usize = 256;

/// With fewer waiting messages they are free again.
const FEW: usize = 64;

/// Ticks after which this side's processor is declared out, counted from when links became busy. The other end gives up
/// a congested link later (Q.703's T6, 3 to 6 s).
const PATIENT: u64 = 2_000;

/// The state of the reader of messages for level 3.
#[derive(Clone, Copy, Debug, PartialEq, Eq)]
pub enum Reader {
    /// It keeps up.
    Here,
    /// It is away. All links have been busy since this tick.
    Away(u64),
    /// It has been away for long: this side's processor is declared out.
    Gone,
}

impl Reader {
    /// The next state, with so many waiting messages at this tick.
    #[tactic(auto, unfolding(crate::specs::Readers::reader_next))]
    pub fn next(self, messages: usize, now: u64) -> Reader
        ensures { result ≡ reader_next messages now self }
    {
        match self {
            Reader::Here if messages < MANY => Reader::Here,
            Reader::Here => Reader::Away(now),
            Reader::Away(_) | Reader::Gone if messages < FEW => Reader::Here,
            Reader::Away(since) if now < since.saturating_add(PATIENT) => self,
            Reader::Away(_) | Reader::Gone => Reader::Gone,
        }
    }

    /// Whether links are busy because of it.
    pub fn is_busy(self) -> bool
        ensures { result ≡ is_busy self }
    {
        match self {
            Reader::Here => false,
            Reader::Away(_) | Reader::Gone => true,
        }
    }

    /// Whether this side's processor is out because of it.
    pub fn is_out(self) -> bool
        ensures { result ≡ is_out self }
    {
        match self {
            Reader::Here | Reader::Away(_) => false,
            Reader::Gone => true,
        }
    }

    /// Whether an order would end what holds because of the reader. It is obeyed once that ends.
    pub fn puts_off(self, command: Command) -> bool
        ensures { result ≡ is_put_off self command }
    {
        match command {
            Command::Back => self.is_out(),
            Command::Free => self.is_busy(),
            Command::PowerOn
            | Command::Start
            | Command::Stop
            | Command::Emergency
            | Command::Calm
            | Command::Outage
            | Command::Busy
            | Command::Flush
            | Command::Continue
            | Command::Overload => false,
        }
    }
}

impl TendedSet {
    /// The state of the reader of messages for level 3.
    pub fn reader(&self) -> Reader
        ensures { result ≡ self.now.reader }
    {
        self.reader
    }

    /// Queues a report about the reader.
    fn tell_news(&mut self, told: Told) -> Result<(), TendError>
        requires { report_in told ≡ [] }
        ensures { OnOk result (self.new ≡ record self.old { news = self.old.news ++ news_by told }) }
    {
        match self.told.push_back(told) {
            Ok(()) => Ok(()),
            Err(_) => Err(TendError::NoMemory),
        }
    }

    /// Reports that the reader is away, or back.
    fn tell_reader(&mut self, was_busy: bool, busy: bool) -> Result<(), TendError>
        ensures { OnOk result (self.new ≡ record self.old { news = self.old.news ++ news_of was_busy busy }) }
    {
        if was_busy {
            if busy {
                return Ok(());
            }
            return self.tell_news(Told::ReaderBack);
        }
        if busy {
            return self.tell_news(Told::ReaderAway);
        }
        Ok(())
    }

    /// Whether level 3 ordered of a link what a command begins or ends.
    fn is_left(&self, link: usize, command: Command) -> bool
        ensures { result ≡ is_ordered (ordered_of link self.now.ordered) command }
    {
        self.ordered(link).names(command)
    }

    /// Gives a link a command, which the link may refuse.
    pub(crate) fn offer(&mut self, link: usize, command: Command) -> Result<(), TendError>
        ensures adds { OnOk result (Adds self.old self.new) }
        ensures given { OnOk result (WasGiven (ByCommand command link self.old.set self.new.set) (IsCommandError command link self.old.set self.new.set)) }
    {
        let _took = self.command(link, command)?;
        Ok(())
    }

    /// Gives a link a command because of the reader, unless level 3 ordered what it begins or ends.
    fn press_by(&mut self, link: usize, command: Command) -> Result<(), TendError>
        ensures adds { OnOk result (Adds self.old self.new) }
        ensures pressed { OnOk result (Pressed link (ordered_of link self.old.ordered) self.old.set (command ∷ []) self.new.set) }
    {
        if self.is_left(link, command) {
            return Ok(());
        }
        self.offer(link, command)
    }

    /// Gives a link two commands, as `press_by` does.
    fn press_by_two(
        &mut self,
        link: usize,
        first: Command,
        second: Command,
    ) -> Result<(), TendError>
        ensures adds { OnOk result (Adds self.old self.new) }
        ensures pressed { OnOk result (Pressed link (ordered_of link self.old.ordered) self.old.set (first ∷ second ∷ []) self.new.set) }
    {
        self.press_by(link, first)?;
        self.press_by(link, second)
    }

    /// Gives a link the commands of a change of the reader's state.
    fn press(&mut self, link: usize, was: Reader, is: Reader) -> Result<(), TendError>
        ensures adds { OnOk result (Adds self.old self.new) }
        ensures pressed { OnOk result (Pressed link (ordered_of link self.old.ordered) self.old.set (commands_at was is) self.new.set) }
    {
        match (was, is) {
            (Reader::Here, Reader::Here)
            | (Reader::Away(_), Reader::Away(_))
            | (Reader::Gone, Reader::Gone) => Ok(()),
            (Reader::Here, Reader::Away(_)) => self.press_by(link, Command::Busy),
            (Reader::Here, Reader::Gone) => {
                self.press_by_two(link, Command::Outage, Command::Busy)
            }
            (Reader::Away(_), Reader::Here) => self.press_by(link, Command::Free),
            (Reader::Away(_), Reader::Gone) => self.press_by(link, Command::Outage),
            (Reader::Gone, Reader::Here) => self.press_by_two(link, Command::Back, Command::Free),
            (Reader::Gone, Reader::Away(_)) => self.press_by(link, Command::Back),
        }
    }

    /// Gives each link the commands of a change of the reader's state.
    fn press_all(&mut self, was: Reader, is: Reader) -> Result<(), TendError>
        ensures adds { OnOk result (Adds self.old self.new) }
        ensures pressed { OnOk result (PressesEach (commands_at was is) self.old.ordered self.old.set self.old.plan.links self.new.set) }
    {
        for link in 0..self.len() {
            self.press(link, was, is)?;
        }
        Ok(())
    }

    /// Whether a link starts with its processor out: that was ordered, or the reader is gone.
    fn starts_out(&self, link: usize) -> bool
        ensures { result ≡ starts_out self.now.reader (ordered_of link self.now.ordered) }
    {
        self.ordered(link).outage || self.reader().is_out()
    }

    /// Gives a link that was started the outage that holds.
    fn press_out(&mut self, link: usize) -> Result<(), TendError>
        ensures adds { OnOk result (Adds self.old self.new) }
        ensures outage { OnOk result (starts_out self.old.reader (ordered_of link self.old.ordered) ≡ true → WasGiven (ByCommand Command.Outage link self.old.set self.new.set) (IsCommandError Command.Outage link self.old.set self.new.set)) }
        ensures none { OnOk result (starts_out self.old.reader (ordered_of link self.old.ordered) ≡ false → self.new ≡ self.old) }
    {
        if !self.starts_out(link) {
            return Ok(());
        }
        self.offer(link, Command::Outage)
    }

    /// Gives a link that was started Busy while the reader is away.
    fn press_busy(&mut self, link: usize) -> Result<(), TendError>
        ensures adds { OnOk result (Adds self.old self.new) }
        ensures busy { OnOk result (is_busy self.old.reader ≡ true → Pressed link (ordered_of link self.old.ordered) self.old.set (Command.Busy ∷ []) self.new.set) }
        ensures free { OnOk result (is_busy self.old.reader ≡ false → self.new ≡ self.old) }
    {
        if !self.reader().is_busy() {
            return Ok(());
        }
        self.press_by(link, Command::Busy)
    }

    /// Gives a link that was started what holds because of the reader, and the outage that was ordered.
    pub(crate) fn press_started(&mut self, link: usize) -> Result<(), TendError>
        ensures adds { OnOk result (Adds self.old self.new) }
        ensures holds { OnOk result (Holds link self.old.reader (ordered_of link self.old.ordered) self.old.set self.new.set) }
    {
        self.press_out(link)?;
        self.press_busy(link)
    }

    /// Acts on the number of messages for level 3 that wait for their reader: links become busy, this side's processor is
    /// declared out, or all that ends. What level 3 ordered of a link stays in force.
    ///
    /// # Errors
    ///
    /// If memory runs out.
    pub fn mind(&mut self, messages: usize) -> Result<(), TendError>
        ensures { OnOk result (Minds messages self.old self.new) }
    {
        let was = self.reader;
        let is = was.next(messages, self.ticks);
        self.reader = is;
        self.tell_reader(was.is_busy(), is.is_busy())?;
        self.press_all(was, is)
    }
}
