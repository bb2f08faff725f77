//! What each step of a terminal adds to its measurements (ITU-T Q.752).
ghost use Rattle.std.specs.Prelude.{◌≡◌};
ghost use Rattle.link_transceiver.specs.Measuring.{more_if, begun_if, lasted_if, no_measures, measured_from, reset, passed, cause_of, cause_by, down_by, calmed, directed_to, withheld_from, far_out_from, down_from, signal_counted, error_counted, octets_counted, nacks_counted, received_counted, is_congested, acknowledges, came_counted, is_first, sent_traffic, some_left, begins_round, rounds_counted, went_counted};
ghost use Rattle.link_transceiver.specs.Effects.{counted};

use crate::effects::kind_named;
use crate::glances::{Glance, Seen};
use crate::measures::{Errors, Failures, Measures, Rounds, Spells, Traffic};
use crate::signals::{EnvSignal, LineKind};

/// Why a link went down.
#[derive(Clone, Copy)]
pub enum Cause {
    Stopped,
    Alignment,
    Errors,
    FarEnd,
    T1,
    Numbers,
    T7,
    T6,
    Other,
}

/// Adds `more` to a count if the condition holds.
fn more_if(so: bool, more: u64, before: u64) -> u64
    ensures { result ≡ more_if so more before }
{
    if so {
        before.saturating_add(more)
    } else {
        before
    }
}

/// Adds 1 to a count.
fn one_more(before: u64) -> u64
    ensures { result ≡ counted before 1 }
{
    before.saturating_add(1)
}

impl Spells {
    /// Counts one more beginning, if the condition holds.
    fn begin_if(&mut self, so: bool)
        ensures { self.new ≡ begun_if so self.old }
    {
        self.number = more_if(so, 1, self.number);
    }

    /// Adds the ticks to the duration, if the condition holds.
    fn last_if(&mut self, so: bool, ticks: u64)
        ensures { self.new ≡ lasted_if so ticks self.old }
    {
        self.time = more_if(so, ticks, self.time);
    }
}

/// Why a link went down, by the number of the reason.
#[tactic(auto, unfolding(crate::specs::Measuring::cause_of))]
fn cause_of(reason: i32) -> Cause
    ensures { result ≡ cause_of reason }
{
    match u8::try_from(reason) {
        Ok(number) => cause_by(number),
        Err(_) => Cause::Other,
    }
}

/// As `cause_of`, for a number that isn't negative.
fn cause_by(number: u8) -> Cause
    ensures { result ≡ cause_by number }
{
    match number {
        0 => Cause::Stopped,
        1 => Cause::Alignment,
        2 => Cause::Errors,
        3 => Cause::FarEnd,
        4 => Cause::T1,
        5 => Cause::Numbers,
        6 => Cause::T7,
        7 => Cause::T6,
        _ => Cause::Other,
    }
}

impl Failures {
    /// Counts that a link went down.
    #[tactic(auto, unfolding(crate::specs::Measuring::down_by))]
    fn go_down(&mut self, cause: Cause)
        ensures { self.new ≡ down_by cause self.old }
    {
        match cause {
            Cause::Stopped => self.stops = one_more(self.stops),
            Cause::Alignment => {
                self.all = one_more(self.all);
                self.alignment = one_more(self.alignment);
            }
            Cause::Errors => {
                self.all = one_more(self.all);
                self.errors = one_more(self.errors);
            }
            Cause::FarEnd => {
                self.all = one_more(self.all);
                self.far_end = one_more(self.far_end);
            }
            Cause::T1 => {
                self.all = one_more(self.all);
                self.t1 = one_more(self.t1);
            }
            Cause::Numbers => {
                self.all = one_more(self.all);
                self.numbers = one_more(self.numbers);
            }
            Cause::T7 => {
                self.all = one_more(self.all);
                self.t7 = one_more(self.t7);
            }
            Cause::T6 => {
                self.all = one_more(self.all);
                self.t6 = one_more(self.t6);
            }
            Cause::Other => self.all = one_more(self.all),
        }
    }
}

impl Errors {
    /// Counts a received unit that requested retransmission or caused a negative acknowledgement.
    fn take(&mut self, before: &Glance, after: &Glance)
        ensures { self.new ≡ nacks_counted before.now after.now self.old }
    {
        self.nacks_received = more_if(before.fib != after.fib, 1, self.nacks_received);
        self.nacks_sent = more_if(before.bib != after.bib, 1, self.nacks_sent);
    }
}

impl Traffic {
    /// Counts a received unit.
    fn take(&mut self, before: &Glance, seen: Seen, after: &Glance)
        ensures { self.new ≡ received_counted before.now seen after.now self.old }
    {
        let accepted = before.waiting < after.waiting;
        self.octets_received = more_if(accepted, seen.octets(), self.octets_received);
        self.messages_received = more_if(accepted, 1, self.messages_received);
    }

    /// Counts a sent unit.
    fn give(&mut self, before: &Glance, seen: Seen, after: &Glance)
        ensures { self.new ≡ sent_traffic before.now seen after.now self.old }
    {
        let first = is_first(before, after);
        self.octets_sent = more_if(first, seen.octets(), self.octets_sent);
        self.octets_repeated = more_if(!first, seen.octets(), self.octets_repeated);
        self.messages_sent = more_if(first, 1, self.messages_sent);
    }
}

impl Rounds {
    /// Counts a sent unit that begins a round.
    fn give(&mut self, before: &Glance, seen: Seen, after: &Glance)
        ensures { self.new ≡ rounds_counted before.now seen after.now self.old }
    {
        let begins = begins_round(before, seen, after);
        self.by_number = more_if(begins && after.many, 1, self.by_number);
        self.by_octets = more_if(begins && !after.many, 1, self.by_octets);
    }
}

/// Whether a message went out for the first time.
fn is_first(before: &Glance, after: &Glance) -> bool
    ensures { result ≡ is_first before.now after.now }
{
    before.sent < after.sent
}

/// Whether messages of a round are still to be sent.
fn some_left(round: Option<u8>) -> bool
    ensures { result ≡ some_left round }
{
    match round {
        Some(left) => left > 0,
        None => false,
    }
}

/// Whether a round of forced retransmission begins with a unit.
fn begins_round(before: &Glance, seen: Seen, after: &Glance) -> bool
    ensures { result ≡ begins_round before.now seen after.now }
{
    seen.is_message() && (after.round.is_some() && !some_left(before.round))
}

/// Whether a busy status is received while messages are unacknowledged and messages may be sent.
fn is_congested(before: &Glance, seen: Seen) -> bool
    ensures { result ≡ is_congested before.now seen }
{
    seen.is_sib() && (before.sending && before.sent > 0)
}

/// Whether a unit acknowledged a message.
fn acknowledges(before: &Glance, after: &Glance) -> bool
    ensures { result ≡ acknowledges before.now after.now }
{
    before.acknowledged != after.acknowledged
}

/// Measurements with all counts at 0.
fn measured_from(is_far_busy: bool) -> Measures
    ensures { result ≡ measured_from is_far_busy }
{
    let none = Spells { number: 0, time: 0 };
    Measures {
        service_time: 0,
        failures: Failures {
            all: 0,
            stops: 0,
            alignment: 0,
            errors: 0,
            far_end: 0,
            t1: 0,
            numbers: 0,
            t7: 0,
            t6: 0,
        },
        errors: Errors {
            units: 0,
            octets: 0,
            nacks_received: 0,
            nacks_sent: 0,
        },
        traffic: Traffic {
            octets_sent: 0,
            octets_repeated: 0,
            octets_received: 0,
            messages_sent: 0,
            messages_received: 0,
        },
        far_outages: none,
        outages: none,
        busy: none,
        far_busy: none,
        rounds: Rounds {
            by_number: 0,
            by_octets: 0,
        },
        is_far_busy,
    }
}

impl Measures {
    /// The measurements of a new terminal: all counts are 0.
    pub fn new() -> Measures
        ensures { result ≡ no_measures }
    {
        measured_from(false)
    }

    /// Sets all counts to 0.
    #[tactic(auto, unfolding(crate::specs::Measuring::reset))]
    pub fn reset(&mut self)
        ensures { self.new ≡ reset self.old }
    {
        *self = measured_from(self.is_far_busy);
    }

    /// Counts so many ticks, through which the terminal stays in the state `before`.
    #[tactic(auto, unfolding(crate::specs::Measuring::passed))]
    pub fn pass(&mut self, ticks: u64, before: &Glance)
        ensures { self.new ≡ passed ticks before.now self.old }
    {
        self.service_time = more_if(before.in_service, ticks, self.service_time);
        self.far_outages.last_if(before.far_out, ticks);
        self.outages.last_if(before.outage, ticks);
        self.busy.last_if(before.busy, ticks);
        self.far_busy.last_if(self.is_far_busy, ticks);
    }

    /// The far side's congestion is over.
    pub fn calm(&mut self)
        ensures { self.new ≡ calmed self.old }
    {
        self.is_far_busy = false;
    }

    /// Counts a change of the kind of units sent. None stands for an unknown kind.
    fn direct(&mut self, kind: Option<LineKind>, before: &Glance)
        ensures { self.new ≡ directed_to kind before.now self.old }
    {
        match kind {
            Some(LineKind::Status(code)) => {
                self.outages.begin_if(code == 4 && !before.outage);
                self.is_far_busy = false;
            }
            Some(LineKind::FillIn) => self.is_far_busy = false,
            Some(LineKind::Messages) => {}
            None => {}
        }
    }

    /// Counts that the link went down.
    fn go_down(&mut self, reason: i32)
        ensures { self.new ≡ down_from reason self.old }
    {
        self.failures.go_down(cause_of(reason));
        self.is_far_busy = false;
    }

    /// Counts a signal to the environment; `before` is the transceiver before it.
    #[tactic(auto, unfolding(crate::specs::Measuring::signal_counted))]
    pub fn on_signal(&mut self, signal: EnvSignal, before: &Glance)
        ensures { self.new ≡ signal_counted signal before.now self.old }
    {
        match signal {
            EnvSignal::Fresh => self.calm(),
            EnvSignal::Line(number) => self.direct(kind_named(number), before),
            EnvSignal::Withhold(on) => self.busy.begin_if(on && !before.busy),
            EnvSignal::Down(reason) => self.go_down(reason),
            EnvSignal::RemoteOut => self.far_outages.begin_if(!before.far_out),
            EnvSignal::Take(_)
            | EnvSignal::Deliver(_)
            | EnvSignal::InServiceNow
            | EnvSignal::RemoteBack
            | EnvSignal::Clear
            | EnvSignal::Cleared => {}
        }
    }

    /// Counts a received unit with errors.
    #[tactic(auto, unfolding(crate::specs::Measuring::error_counted))]
    pub fn on_error(&mut self)
        ensures { self.new ≡ error_counted self.old }
    {
        self.errors.units = one_more(self.errors.units);
    }

    /// Counts sixteen octets received without a unit.
    #[tactic(auto, unfolding(crate::specs::Measuring::octets_counted))]
    pub fn on_octets(&mut self)
        ensures { self.new ≡ octets_counted self.old }
    {
        self.errors.octets = one_more(self.errors.octets);
    }

    /// Counts a received unit without errors, by the transceiver before and after it (before the actors react).
    #[tactic(auto, unfolding(crate::specs::Measuring::came_counted))]
    pub fn on_unit(&mut self, before: &Glance, seen: Seen, after: &Glance)
        ensures { self.new ≡ came_counted before.now seen after.now self.old }
    {
        let congested = is_congested(before, seen);
        let was = self.is_far_busy;
        self.errors.take(before, after);
        self.traffic.take(before, seen, after);
        self.far_busy.begin_if(congested && !was);
        self.is_far_busy = (congested || was) && !acknowledges(before, after);
    }

    /// Counts a sent unit, by the transceiver before and after it (before the actors react).
    #[tactic(auto, unfolding(crate::specs::Measuring::went_counted))]
    pub fn on_sent(&mut self, before: &Glance, seen: Seen, after: &Glance)
        ensures { self.new ≡ went_counted before.now seen after.now self.old }
    {
        self.traffic.give(before, seen, after);
        self.rounds.give(before, seen, after);
    }
}
