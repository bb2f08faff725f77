//! The series of measurements of links, with their descriptions.
ghost use Rattle.std.specs.Prelude.{◌≡◌, None, Some, map};
ghost use Rattle.line_play.specs.SetSeries.{plain_series, failures, services, held, traffic, errors, repetitions, outages};

use script_ends::Measure;

/// The value of a series of measurements of links.
#[derive(Clone, Copy)]
pub enum Value {
    /// A count.
    Count(Measure),
    /// A time, in seconds.
    Seconds(Measure),
    /// The number of failures without a cause that is counted separately.
    OtherFailures,
    /// The number of aborted proving periods.
    Aborted,
    /// 1 in service, 0 out of it.
    InService,
    /// The number of messages that the link holds.
    Held,
    /// The number of them that were sent and aren't acknowledged.
    Sent,
}

/// A series of measurements of links. Those of one name stand together, and the first has the description.
#[derive(Clone, Copy)]
pub struct Series {
    pub name: &'static str,
    /// Its labels after the link's, each after a comma.
    pub labels: &'static str,
    /// The type and the description, in the first series of a name.
    pub head: Option<(&'static str, &'static str)>,
    pub value: Value,
}

/// The first series of a name.
fn first(
    name: &'static str,
    kind: &'static str,
    help: &'static str,
    labels: &'static str,
    value: Value,
) -> Series
    ensures { plain_series result ≡ record { name = name.now; labels = labels.now; head = Some (kind.now, help.now); value = value } }
{
    Series {
        name,
        labels,
        head: Some((kind, help)),
        value,
    }
}

/// A further series of a name.
fn more(name: &'static str, labels: &'static str, value: Value) -> Series
    ensures { plain_series result ≡ record { name = name.now; labels = labels.now; head = None; value = value } }
{
    Series {
        name,
        labels,
        head: None,
        value,
    }
}

/// The causes of failures of links, each with its count.
pub fn failures() -> [Series; 8]
    ensures { map plain_series result ≡ failures }
{
    let name = "mtp2_link_failures_total";
    [
        first(
            name,
            "counter",
            "How often the link went down for another reason than a stop (Q.752, 1.2).",
            ",cause=\"alignment\"",
            Value::Count(Measure::AlignmentFailures),
        ),
        more(
            name,
            ",cause=\"errors\"",
            Value::Count(Measure::ErrorFailures),
        ),
        more(
            name,
            ",cause=\"far_end\"",
            Value::Count(Measure::FarFailures),
        ),
        more(name, ",cause=\"t1\"", Value::Count(Measure::T1Failures)),
        more(
            name,
            ",cause=\"numbers\"",
            Value::Count(Measure::NumberFailures),
        ),
        more(name, ",cause=\"t7\"", Value::Count(Measure::T7Failures)),
        more(name, ",cause=\"t6\"", Value::Count(Measure::T6Failures)),
        more(name, ",cause=\"other\"", Value::OtherFailures),
    ]
}

/// The service of links.
pub fn services() -> [Series; 4]
    ensures { map plain_series result ≡ services }
{
    [
        first(
            "mtp2_link_in_service",
            "gauge",
            "1 where the link is in service.",
            "",
            Value::InService,
        ),
        first(
            "mtp2_link_service_seconds_total",
            "counter",
            "Seconds in service (Q.752, 1.1).",
            "",
            Value::Seconds(Measure::ServiceTime),
        ),
        first(
            "mtp2_link_stops_total",
            "counter",
            "How often the link went down by an order to stop.",
            "",
            Value::Count(Measure::Stops),
        ),
        first(
            "mtp2_link_aborted_proving_periods_total",
            "counter",
            "Proving periods that were aborted (Q.703, 10.3).",
            "",
            Value::Aborted,
        ),
    ]
}

/// The messages that links hold.
pub fn held() -> [Series; 2]
    ensures { map plain_series result ≡ held }
{
    [
        first(
            "mtp2_link_held_messages",
            "gauge",
            "Messages that the link holds to send.",
            "",
            Value::Held,
        ),
        first(
            "mtp2_link_unacknowledged_messages",
            "gauge",
            "Messages that were sent and aren't acknowledged.",
            "",
            Value::Sent,
        ),
    ]
}

/// Messages sent and received.
pub fn traffic() -> [Series; 5]
    ensures { map plain_series result ≡ traffic }
{
    [
        first(
            "mtp2_link_sent_messages_total",
            "counter",
            "Messages sent for the first time (Q.752, 3.3).",
            "",
            Value::Count(Measure::MessagesSent),
        ),
        first(
            "mtp2_link_received_messages_total",
            "counter",
            "Messages accepted (Q.752, 3.5).",
            "",
            Value::Count(Measure::MessagesReceived),
        ),
        first(
            "mtp2_link_sent_octets_total",
            "counter",
            "Octets of SIO and SIF sent for the first time (Q.752, 3.1).",
            "",
            Value::Count(Measure::OctetsSent),
        ),
        first(
            "mtp2_link_repeated_octets_total",
            "counter",
            "Octets of SIO and SIF sent again (Q.752, 3.2).",
            "",
            Value::Count(Measure::OctetsRepeated),
        ),
        first(
            "mtp2_link_received_octets_total",
            "counter",
            "Octets of SIO and SIF of accepted messages (Q.752, 3.4).",
            "",
            Value::Count(Measure::OctetsReceived),
        ),
    ]
}

/// What came and was no signal unit.
pub fn errors() -> [Series; 2]
    ensures { map plain_series result ≡ errors }
{
    [
        first(
            "mtp2_link_errored_units_total",
            "counter",
            "Signal units in error (Q.752, 1.8).",
            "",
            Value::Count(Measure::ErroredUnits),
        ),
        first(
            "mtp2_link_octet_counts_total",
            "counter",
            "How often sixteen octets came without a signal unit.",
            "",
            Value::Count(Measure::ErroredOctets),
        ),
    ]
}

/// Requests for retransmission, and rounds of forced retransmission.
pub fn repetitions() -> [Series; 4]
    ensures { map plain_series result ≡ repetitions }
{
    let nacks = "mtp2_link_negative_acknowledgements_total";
    let rounds = "mtp2_link_forced_retransmissions_total";
    [
        first(
            nacks,
            "counter",
            "Negative acknowledgements, each a request for retransmission (Q.752, 1.9).",
            ",direction=\"received\"",
            Value::Count(Measure::NacksReceived),
        ),
        more(
            nacks,
            ",direction=\"sent\"",
            Value::Count(Measure::NacksSent),
        ),
        first(
            rounds,
            "counter",
            "Rounds of forced retransmission (preventive cyclic).",
            ",limit=\"n1\"",
            Value::Count(Measure::RoundsByNumber),
        ),
        more(
            rounds,
            ",limit=\"n2\"",
            Value::Count(Measure::RoundsByOctets),
        ),
    ]
}

/// Processor outages and congestion, at both ends.
pub fn outages() -> [Series; 8]
    ensures { map plain_series result ≡ outages }
{
    let outages = "mtp2_link_processor_outages_total";
    let out = "mtp2_link_processor_outage_seconds_total";
    let busies = "mtp2_link_congestions_total";
    let busy = "mtp2_link_congestion_seconds_total";
    [
        first(
            outages,
            "counter",
            "Outages of a processor, of this end or the far one.",
            ",end=\"here\"",
            Value::Count(Measure::Outages),
        ),
        more(outages, ",end=\"far\"", Value::Count(Measure::FarOutages)),
        first(
            out,
            "counter",
            "Seconds of these.",
            ",end=\"here\"",
            Value::Seconds(Measure::OutageTime),
        ),
        more(out, ",end=\"far\"", Value::Seconds(Measure::FarOutageTime)),
        first(
            busies,
            "counter",
            "How often congestion began, of this end or the far one.",
            ",end=\"here\"",
            Value::Count(Measure::Busy),
        ),
        more(busies, ",end=\"far\"", Value::Count(Measure::FarBusy)),
        first(
            busy,
            "counter",
            "Seconds of congestion.",
            ",end=\"here\"",
            Value::Seconds(Measure::BusyTime),
        ),
        more(busy, ",end=\"far\"", Value::Seconds(Measure::FarBusyTime)),
    ]
}
