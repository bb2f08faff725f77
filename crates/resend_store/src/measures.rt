//! Measurements of a signalling link (ITU-T Q.752), by name.
ghost use Rattle.std.specs.Prelude.{◌≡◌, option_and_then, slice_get, position};
ghost use Rattle.std.specs.Str.{bytes_eq};
ghost use Rattle.resend_store.specs.declared.measures.Measure.{Measure as PlainMeasure};
ghost use Rattle.resend_store.specs.MeasureNames.{measure_word, all_measures, measure_named};

/// A measurement.
#[derive(Clone, Copy)]
pub enum Measure {
    /// `service_time`: Ticks in service (Q.752, 1.1).
    ServiceTime,
    /// `failures`: How often the link went down for a reason other than a stop (1.2).
    Failures,
    /// `stops`: How often the link was stopped: reason 0.
    Stops,
    /// `alignment_failures`: How often alignment or proving failed: reason 1 (1.7).
    AlignmentFailures,
    /// `error_failures`: How often too many units were in error: reason 2 (1.5).
    ErrorFailures,
    /// `far_failures`: How often the far side went out of service: reason 3.
    FarFailures,
    /// `t1_failures`: How often the far side wasn't ready in time: T1, reason 4.
    T1Failures,
    /// `number_failures`: How often backward numbers or forward indicators were abnormal: reason 5 (1.3).
    NumberFailures,
    /// `t7_failures`: How often an acknowledgement wasn't received in time: T7, reason 6 (1.4).
    T7Failures,
    /// `t6_failures`: How often the far side was congested too long: T6, reason 7 (1.6).
    T6Failures,
    /// `errored_units`: Units in error (1.8).
    ErroredUnits,
    /// `errored_octets`: How often sixteen octets were counted without a unit.
    ErroredOctets,
    /// `nacks_received`: Negative acknowledgements received (1.9).
    NacksReceived,
    /// `nacks_sent`: Negative acknowledgements sent.
    NacksSent,
    /// `octets_sent`: Octets of SIO and SIF sent for the first time (3.1).
    OctetsSent,
    /// `octets_repeated`: Octets of SIO and SIF sent again (3.2).
    OctetsRepeated,
    /// `octets_received`: Octets of SIO and SIF of accepted messages (3.4).
    OctetsReceived,
    /// `messages_sent`: Messages sent for the first time (3.3).
    MessagesSent,
    /// `messages_received`: Accepted messages (3.5).
    MessagesReceived,
    /// `far_outages`: Outages of the far side's processor.
    FarOutages,
    /// `far_outage_time`: Ticks of outages of the far side's processor.
    FarOutageTime,
    /// `outages`: Outages of this side's processor.
    Outages,
    /// `outage_time`: Ticks of outages of this side's processor.
    OutageTime,
    /// `busy`: Congestions of this side.
    Busy,
    /// `busy_time`: Ticks of congestions of this side.
    BusyTime,
    /// `far_busy`: Congestions of the far side.
    FarBusy,
    /// `far_busy_time`: Ticks of congestions of the far side.
    FarBusyTime,
    /// `rounds_n1`: Rounds of forced retransmission by N1.
    RoundsByNumber,
    /// `rounds_n2`: Rounds of forced retransmission by N2.
    RoundsByOctets,
}

impl Measure {
    /// The name.
    pub fn word(self) -> &'static str
        ensures { result.now ≡ measure_word self }
    {
        match self {
            Measure::ServiceTime => "service_time",
            Measure::Failures => "failures",
            Measure::Stops => "stops",
            Measure::AlignmentFailures => "alignment_failures",
            Measure::ErrorFailures => "error_failures",
            Measure::FarFailures => "far_failures",
            Measure::T1Failures => "t1_failures",
            Measure::NumberFailures => "number_failures",
            Measure::T7Failures => "t7_failures",
            Measure::T6Failures => "t6_failures",
            Measure::ErroredUnits => "errored_units",
            Measure::ErroredOctets => "errored_octets",
            Measure::NacksReceived => "nacks_received",
            Measure::NacksSent => "nacks_sent",
            Measure::OctetsSent => "octets_sent",
            Measure::OctetsRepeated => "octets_repeated",
            Measure::OctetsReceived => "octets_received",
            Measure::MessagesSent => "messages_sent",
            Measure::MessagesReceived => "messages_received",
            Measure::FarOutages => "far_outages",
            Measure::FarOutageTime => "far_outage_time",
            Measure::Outages => "outages",
            Measure::OutageTime => "outage_time",
            Measure::Busy => "busy",
            Measure::BusyTime => "busy_time",
            Measure::FarBusy => "far_busy",
            Measure::FarBusyTime => "far_busy_time",
            Measure::RoundsByNumber => "rounds_n1",
            Measure::RoundsByOctets => "rounds_n2",
        }
    }
}

/// All measurements, in the order in which they are printed.
pub fn all_measures() -> [Measure; 29]
    ensures { result ≡ all_measures }
{
    [
        Measure::ServiceTime,
        Measure::Failures,
        Measure::Stops,
        Measure::AlignmentFailures,
        Measure::ErrorFailures,
        Measure::FarFailures,
        Measure::T1Failures,
        Measure::NumberFailures,
        Measure::T7Failures,
        Measure::T6Failures,
        Measure::ErroredUnits,
        Measure::ErroredOctets,
        Measure::NacksReceived,
        Measure::NacksSent,
        Measure::OctetsSent,
        Measure::OctetsRepeated,
        Measure::OctetsReceived,
        Measure::MessagesSent,
        Measure::MessagesReceived,
        Measure::FarOutages,
        Measure::FarOutageTime,
        Measure::Outages,
        Measure::OutageTime,
        Measure::Busy,
        Measure::BusyTime,
        Measure::FarBusy,
        Measure::FarBusyTime,
        Measure::RoundsByNumber,
        Measure::RoundsByOctets,
    ]
}

/// Whether a measurement has this name.
fn is_named(measure: Measure, word: &str) -> bool
    ensures { result ≡ bytes_eq (measure_word measure) word.now }
{
    measure.word() == word
}

/// The index of the measurement with this name.
fn place_named(all: &[Measure], word: &str) -> Option<usize>
    ensures { result ≡ position (λ (m : PlainMeasure). bytes_eq (measure_word m) word.now) all.now }
{
    all.iter().position(|measure| is_named(*measure, word))
}

/// The measurement at an index.
fn measure_at(all: &[Measure], place: usize) -> Option<Measure>
    ensures { result ≡ slice_get all.now place }
{
    all.get(place).copied()
}

/// The measurement with exactly this name. Upper and lower case differ.
pub fn measure_named(word: &str) -> Option<Measure>
    ensures { result ≡ measure_named word.now }
{
    let all = all_measures();
    match place_named(&all, word) {
        Some(place) => measure_at(&all, place),
        None => None,
    }
}
