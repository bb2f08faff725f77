//! The measurements of a signalling link terminal (ITU-T Q.752).
ghost use Rattle.std.specs.Prelude.{◌≡◌};
ghost use Rattle.link_transceiver.specs.Measuring.{count_of};

use resend_store::Measure;

/// How often a condition began, and how many ticks it lasted in all.
#[derive(Clone, Copy)]
pub struct Spells {
    pub number: u64,
    pub time: u64,
}

/// How often a link went down, by the reason in `EnvSignal::Down`.
#[derive(Clone, Copy)]
pub struct Failures {
    /// For any reason except a stop.
    pub all: u64,
    pub stops: u64,
    pub alignment: u64,
    pub errors: u64,
    pub far_end: u64,
    pub t1: u64,
    pub numbers: u64,
    pub t7: u64,
    pub t6: u64,
}

/// Units in error, and negative acknowledgements.
#[derive(Clone, Copy)]
pub struct Errors {
    pub units: u64,
    pub octets: u64,
    pub nacks_received: u64,
    pub nacks_sent: u64,
}

/// Messages, and their octets (SIO and SIF).
#[derive(Clone, Copy)]
pub struct Traffic {
    pub octets_sent: u64,
    pub octets_repeated: u64,
    pub octets_received: u64,
    pub messages_sent: u64,
    pub messages_received: u64,
}

/// Rounds of forced retransmission, by what forced them.
#[derive(Clone, Copy)]
pub struct Rounds {
    pub by_number: u64,
    pub by_octets: u64,
}

/// What a terminal measures. Times are in ticks. A count stops at 2^64 - 1.
#[derive(Clone, Copy)]
pub struct Measures {
    pub service_time: u64,
    pub failures: Failures,
    pub errors: Errors,
    pub traffic: Traffic,
    pub far_outages: Spells,
    pub outages: Spells,
    pub busy: Spells,
    pub far_busy: Spells,
    pub rounds: Rounds,
    /// Whether the far side is congested. It isn't a count, so `reset` leaves it.
    pub is_far_busy: bool,
}

impl Measures {
    /// The value of a measurement.
    pub fn count(&self, measure: Measure) -> u64
        ensures { result ≡ count_of measure self.now }
    {
        match measure {
            Measure::ServiceTime => self.service_time,
            Measure::Failures => self.failures.all,
            Measure::Stops => self.failures.stops,
            Measure::AlignmentFailures => self.failures.alignment,
            Measure::ErrorFailures => self.failures.errors,
            Measure::FarFailures => self.failures.far_end,
            Measure::T1Failures => self.failures.t1,
            Measure::NumberFailures => self.failures.numbers,
            Measure::T7Failures => self.failures.t7,
            Measure::T6Failures => self.failures.t6,
            Measure::ErroredUnits => self.errors.units,
            Measure::ErroredOctets => self.errors.octets,
            Measure::NacksReceived => self.errors.nacks_received,
            Measure::NacksSent => self.errors.nacks_sent,
            Measure::OctetsSent => self.traffic.octets_sent,
            Measure::OctetsRepeated => self.traffic.octets_repeated,
            Measure::OctetsReceived => self.traffic.octets_received,
            Measure::MessagesSent => self.traffic.messages_sent,
            Measure::MessagesReceived => self.traffic.messages_received,
            Measure::FarOutages => self.far_outages.number,
            Measure::FarOutageTime => self.far_outages.time,
            Measure::Outages => self.outages.number,
            Measure::OutageTime => self.outages.time,
            Measure::Busy => self.busy.number,
            Measure::BusyTime => self.busy.time,
            Measure::FarBusy => self.far_busy.number,
            Measure::FarBusyTime => self.far_busy.time,
            Measure::RoundsByNumber => self.rounds.by_number,
            Measure::RoundsByOctets => self.rounds.by_octets,
        }
    }
}
