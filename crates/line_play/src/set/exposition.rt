//! The measurements of a set, in Prometheus' text format.
ghost use Rattle.std.specs.Prelude.{◌≡◌, ◌++◌, IfOk, OnOk, map, string_bytes};
ghost use Rattle.std.specs.Fmt.{decimal};
ghost use Rattle.std.specs.List.{flat_map};
ghost use Rattle.line_filter.specs.Reporting.{waiting_count};
ghost use Rattle.line_play.specs.SetSeries.{all_series, plain_series};
ghost use Rattle.line_play.specs.SetExposing.{count_at, other_failures, number_at, in_seconds, shown, head_lines, head_of, sample_of, sample_at, series_lines, set_lines, unsure_lines, waiting_lines, away_lines, exposition};

use crate::set::desk::SetDesk;
use crate::set::series::{
    Series, Value, errors, failures, held, outages, repetitions, services, traffic,
};
use crate::set::state::SetState;
use line_filter::{Reports, Wait};
use script_ends::{Measure, Terminal};
use std::alloc::{AllocError, Global};

/// The number of failures without a cause that is counted separately.
fn other_failures(terminal: &Terminal) -> u64
    ensures { result ≡ other_failures terminal.now }
{
    let measures = terminal.measures();
    measures
        .count(Measure::Failures)
        .saturating_sub(measures.count(Measure::AlignmentFailures))
        .saturating_sub(measures.count(Measure::ErrorFailures))
        .saturating_sub(measures.count(Measure::FarFailures))
        .saturating_sub(measures.count(Measure::T1Failures))
        .saturating_sub(measures.count(Measure::NumberFailures))
        .saturating_sub(measures.count(Measure::T7Failures))
        .saturating_sub(measures.count(Measure::T6Failures))
}

/// A count of a terminal.
fn count_at(terminal: &Terminal, measure: Measure) -> u64
    ensures { result ≡ count_at measure terminal.now }
{
    terminal.measures().count(measure)
}

/// Milliseconds as seconds.
fn in_seconds(alloc: Global, milliseconds: u64) -> Result<String, AllocError>
    ensures { IfOk result (λ text. string_bytes text ≡ in_seconds milliseconds) }
{
    let seconds = milliseconds / 1_000;
    let rest = milliseconds % 1_000;
    format!(in alloc; "{seconds}.{rest:03}")
}

/// A number as a text.
fn in_digits(alloc: Global, number: u64) -> Result<String, AllocError>
    ensures { IfOk result (λ text. string_bytes text ≡ decimal number) }
{
    format!(in alloc; "{number}")
}

/// A number of a series as a text.
fn shown_as(alloc: Global, value: Value, number: u64) -> Result<String, AllocError>
    ensures { IfOk result (λ text. string_bytes text ≡ shown value number) }
{
    match value {
        Value::Seconds(_) => in_seconds(alloc, number),
        Value::Count(_)
        | Value::OtherFailures
        | Value::Aborted
        | Value::InService
        | Value::Held
        | Value::Sent => in_digits(alloc, number),
    }
}

/// Appends the description of a name.
fn put_head(
    alloc: Global,
    name: &str,
    kind: &str,
    help: &str,
    text: &mut String,
) -> Result<(), AllocError>
    ensures { OnOk result (string_bytes text.new ≡ string_bytes text.old ++ head_lines name.now kind.now help.now) }
{
    let lines = format!(in alloc; "# HELP {name} {help}\n# TYPE {name} {kind}\n")?;
    text.push_str(lines.as_str())
}

/// Appends the description of a series' name, if it is the first of this name.
fn put_head_of(alloc: Global, series: Series, text: &mut String) -> Result<(), AllocError>
    ensures { OnOk result (string_bytes text.new ≡ string_bytes text.old ++ head_of series.name.now (plain_series series).head) }
{
    match series.head {
        Some((kind, help)) => put_head(alloc, series.name, kind, help, text),
        None => Ok(()),
    }
}

impl SetState {
    /// A number of a link.
    fn number(&self, link: usize, terminal: &Terminal, value: Value) -> u64
        ensures { result ≡ number_at value self.now.tender link terminal.now }
    {
        match value {
            Value::Count(measure) => count_at(terminal, measure),
            Value::Seconds(measure) => count_at(terminal, measure),
            Value::OtherFailures => other_failures(terminal),
            Value::Aborted => terminal.aborted(),
            Value::InService => u64::from(terminal.in_service()),
            Value::Held => self.tender.set().held(link).unwrap_or(0) as u64,
            Value::Sent => self.tender.set().sent(link).unwrap_or(0) as u64,
        }
    }

    /// Appends the sample of a link.
    fn put_value(
        &self,
        alloc: Global,
        series: Series,
        link: usize,
        terminal: &Terminal,
        text: &mut String,
    ) -> Result<(), AllocError>
        ensures { OnOk result (string_bytes text.new ≡ string_bytes text.old ++ sample_of (plain_series series) self.now.tender link terminal.now) }
    {
        let number = self.number(link, terminal, series.value);
        let shown = shown_as(alloc, series.value, number)?;
        let name = series.name;
        let labels = series.labels;
        let line = format!(in alloc; "{name}{{link=\"{link}\"{labels}}} {shown}\n")?;
        text.push_str(line.as_str())
    }

    /// Appends the sample of a link, if the link exists.
    fn put_sample(
        &self,
        alloc: Global,
        series: Series,
        link: usize,
        text: &mut String,
    ) -> Result<(), AllocError>
        ensures { OnOk result (string_bytes text.new ≡ string_bytes text.old ++ sample_at (plain_series series) self.now.tender link) }
    {
        match self.terminal(link) {
            Some(terminal) => self.put_value(alloc, series, link, terminal, text),
            None => Ok(()),
        }
    }

    /// Appends the lines of a series.
    fn put_series(&self, alloc: Global, series: Series, text: &mut String) -> Result<(), AllocError>
        ensures { OnOk result (string_bytes text.new ≡ string_bytes text.old ++ series_lines self.now.tender (plain_series series)) }
    {
        put_head_of(alloc, series, text)?;
        for link in 0..self.tender.len() {
            self.put_sample(alloc, series, link, text)?;
        }
        Ok(())
    }

    /// Appends the lines of several series.
    fn put_all(&self, alloc: Global, all: &[Series], text: &mut String) -> Result<(), AllocError>
        ensures { OnOk result (string_bytes text.new ≡ string_bytes text.old ++ flat_map (series_lines self.now.tender) (map plain_series all.now)) }
    {
        for series in all {
            self.put_series(alloc, *series, text)?;
        }
        Ok(())
    }

    /// Appends the lines of all series.
    fn put_links(&self, alloc: Global, text: &mut String) -> Result<(), AllocError>
        ensures { OnOk result (string_bytes text.new ≡ string_bytes text.old ++ flat_map (series_lines self.now.tender) all_series) }
    {
        self.put_all(alloc, &services(), text)?;
        self.put_all(alloc, &held(), text)?;
        self.put_all(alloc, &failures(), text)?;
        self.put_all(alloc, &traffic(), text)?;
        self.put_all(alloc, &errors(), text)?;
        self.put_all(alloc, &repetitions(), text)?;
        self.put_all(alloc, &outages(), text)
    }
}

/// Appends a number of the whole set.
fn put_one(
    alloc: Global,
    name: &str,
    kind: &str,
    help: &str,
    number: u64,
    text: &mut String,
) -> Result<(), AllocError>
    ensures { OnOk result (string_bytes text.new ≡ string_bytes text.old ++ set_lines name.now kind.now help.now number) }
{
    put_head(alloc, name, kind, help, text)?;
    let line = format!(in alloc; "{name} {number}\n")?;
    text.push_str(line.as_str())
}

/// Appends the number of messages of which it isn't known whether they arrived.
fn put_unsure(alloc: Global, unsure: u64, text: &mut String) -> Result<(), AllocError>
    ensures { OnOk result (string_bytes text.new ≡ string_bytes text.old ++ unsure_lines unsure) }
{
    put_one(
        alloc,
        "mtp2_set_unsure_messages_total",
        "counter",
        "Messages of which it isn't known whether they arrived.",
        unsure,
        text,
    )
}

/// Appends the number of messages that wait for the reader of the reports.
fn put_waiting(alloc: Global, waiting: usize, text: &mut String) -> Result<(), AllocError>
    ensures { OnOk result (string_bytes text.new ≡ string_bytes text.old ++ waiting_lines waiting) }
{
    put_one(
        alloc,
        "mtp2_set_waiting_messages",
        "gauge",
        "Messages for level 3 that wait for the reader of the reports.",
        waiting as u64,
        text,
    )
}

/// Appends whether all links are busy because of the reader of the reports.
fn put_away(alloc: Global, away: bool, text: &mut String) -> Result<(), AllocError>
    ensures { OnOk result (string_bytes text.new ≡ string_bytes text.old ++ away_lines away) }
{
    put_one(
        alloc,
        "mtp2_set_reader_away",
        "gauge",
        "1 where all links are busy, since messages wait for the reader of the reports.",
        u64::from(away),
        text,
    )
}

impl<O, P: Reports> SetDesk<O, P> {
    /// The measurements of the set since it was made, in Prometheus' text format.
    ///
    /// # Errors
    ///
    /// If memory runs out.
    pub fn exposition(&self, alloc: Global) -> Result<String, AllocError>
        ensures { IfOk result (λ text. string_bytes text ≡ exposition self.now.state.tender (waiting_count Wait.Message (P.stand self.now.reports))) }
    {
        let unsure = self.state.tender.set().unsure();
        let waiting = self.reports.messages();
        let away = self.state.tender.reader().is_busy();
        let mut text = String::new(alloc);
        self.state.put_links(alloc, &mut text)?;
        put_unsure(alloc, unsure, &mut text)?;
        put_waiting(alloc, waiting, &mut text)?;
        put_away(alloc, away, &mut text)?;
        Ok(text)
    }
}
