//! One end of a link on its line, from its first octet to its last.
ghost use Rattle.std.specs.Prelude.{◌≡◌, ◌⊎◌, ℕ, List, Option, None, IfOk, min};
ghost use Rattle.line_filter.specs.Filters.{MOST_AHEAD};
ghost use Rattle.line_filter.specs.Speaking.{IsSilent};
ghost use Rattle.script_check.specs.Checked.{given, IsGiven};
ghost use Rattle.line_play.specs.InTurn.{HoldsNone};
ghost use Rattle.line_play.specs.Opening.{IsNoSet};
ghost use Rattle.line_streams.specs.Known.{known_of, left_of};
ghost use Rattle.mtp2_play.specs.TracedEnds.{terminal_of};
ghost use Rattle.mtp2_play.specs.Sets.{word_text};
ghost use Rattle.mtp2_play.specs.Spoken.{chosen_by, AreGiven, ordered_by, SpokeBy, Spoke, SpokeOver, Begun, BegunOver, IsUntouched};

use crate::line::measuring::write_measures;
use crate::line::traced::{end_trace, open_traced, serve_traced, traced_desk};
use crate::line::traces::TracedEnd;
use crate::text::sets::set_word;
use line_filter::{Desk, MOST_AHEAD, Orders, Reports};
use line_play::{ChosenLimits, LinkEnd, link_desk, new_terminal, run_link};
use line_streams::{
    Begin, OrderStream, RecordStream, ReportStream, keep_apart, open_orders, open_reports,
};
use link_term::Terminal;
use mtp2_words::{LineEnd, Named};
use plain_text::{Errors, FAILED, Teller};
use script_check::SetWord;
use std::alloc::Global;
use std::fs::{self, File};
use std::io::{self, Read, Write};
use std::rt::Files;
use std::thread::Threads;
use std::time::Clock;

/// The source of orders, and the sink of reports.
#[derive(Drop)]
struct Streams<'a, H: Eprint> {
    orders: OrderStream,
    reports: ReportStream<'a, H, Errors<'a, H>>,
    /// The file for measurements, if there is one.
    measures: Option<File>,
}

/// Reports by its name that a file couldn't be opened.
fn told<H: Eprint>(teller: &Teller<'_, H>, path: Option<&str>, error: io::Error) -> io::Error {
    if let Some(path) = path {
        teller.tell(path, &error);
    }
    error
}

/// Creates a file anew, if one is named. If that fails, it is reported by its name.
fn create<H: Files<File = File> + Eprint>(
    host: &H,
    teller: &Teller<'_, H>,
    path: Option<&str>,
) -> io::Result<Option<File>> {
    match path {
        Some(path) => match fs::create(host, path) {
            Ok(file) => Ok(Some(file)),
            Err(error) => Err(told(teller, Some(path), error)),
        },
        None => Ok(None),
    }
}

/// Writes the measurements, if there is a file for them.
fn end_measures(alloc: Global, file: Option<File>, terminal: &Terminal) -> io::Result<()> {
    match file {
        Some(mut file) => write_measures(alloc, &mut file, terminal),
        None => Ok(()),
    }
}

/// The status of a run; 4 if the measurements couldn't be written.
fn status_of(status: u8, measured: io::Result<()>) -> u8
    requires { (status ≡ 0) ⊎ (status ≡ 4) }
    ensures zero { result ≡ 0 → status ≡ 0 }
    ensures status { (result ≡ 0) ⊎ (result ≡ 4) }
{
    match measured {
        Ok(()) => status,
        Err(_) => FAILED,
    }
}

/// Opens the source of orders, the sink of reports and the file for measurements. A failure is reported by the name.
fn open_streams<'a, H: Files<File = File> + Threads + Eprint + AllocGlobal>(
    host: &'a H,
    teller: &Teller<'_, H>,
    end: &LineEnd<'_>,
) -> io::Result<Streams<'a, H>>
    ensures given { IfOk result (λ s. AreGiven end.now.orders (known_of s.orders)) }
    ensures orders { IfOk result (λ s. left_of s.orders ≡ ordered_by (known_of s.orders)) }
{
    let alloc = host.alloc();
    let orders = match open_orders(host, alloc, end.orders) {
        Ok(orders) => orders,
        Err(error) => return Err(told(teller, end.orders, error)),
    };
    if let Err(error) = keep_apart(host, end.orders, end.reports) {
        return Err(told(teller, Some(end.reports.unwrap_or("standard error")), error));
    }
    let errors = Errors { rt: host };
    let reports = match open_reports(host, alloc, end.reports, Begin::Anew, errors) {
        Ok(reports) => reports,
        Err(error) => return Err(told(teller, end.reports, error)),
    };
    let measures = create(host, teller, end.measures)?;
    Ok(Streams {
        orders,
        reports,
        measures,
    })
}

/// Ends a run: writes the measurements and waits for pending reports. Returns the exit status: `status`, or 4.
fn end_streams<H: Files + Eprint + Clock + AllocGlobal>(
    host: &H,
    measures: Option<File>,
    terminal: &Terminal,
    reports: &mut ReportStream<'_, H, Errors<'_, H>>,
    now: u64,
    status: u8,
) -> u8
    requires { (status ≡ 0) ⊎ (status ≡ 4) }
    ensures zero { result ≡ 0 → status ≡ 0 }
    ensures status { (result ≡ 0) ⊎ (result ≡ 4) }
{
    let measured = end_measures(host.alloc(), measures, terminal);
    match reports.end(host, now) {
        Ok(()) => status_of(status, measured),
        Err(_) => FAILED,
    }
}

/// Runs a terminal on its line, after the octets sent ahead.
fn serve<O: Orders, P: Reports, R: Read, W: Write>(
    alloc: Global,
    end: &LineEnd<'_>,
    desk: &mut Desk<LinkEnd, O, P>,
    reader: &mut R,
    writer: &mut W,
) -> u8
    requires none_held { desk.old.terminal.held ≡ None }
    requires silent { IsSilent desk.old.voice }
    requires new { desk.old.count ≡ 0 }
    ensures spoke { (octets : Option (List ℕ)) → O.left desk.old.orders ≡ ordered_by octets → result ≡ 0
        → SpokeBy octets desk.old.terminal.terminal end.now.bits (min end.now.ahead MOST_AHEAD)
        (record { read = R.remaining reader.old; written = W.contents writer.old; told = P.stand desk.old.reports })
        (record { read = R.remaining reader.new; written = W.contents writer.new; told = P.stand desk.new.reports }) }
    ensures begun { (octets : Option (List ℕ)) → AreGiven end.now.orders octets → O.left desk.old.orders ≡ ordered_by octets
        → Begun end.now.orders desk.old.terminal.terminal end.now.bits (min end.now.ahead MOST_AHEAD)
        (record { read = R.remaining reader.old; written = W.contents writer.old })
        (record { read = R.remaining reader.new; written = W.contents writer.new }) }
    ensures status { (result ≡ 0) ⊎ (result ≡ 4) }
{
    let ahead = end.ahead.min(MOST_AHEAD);
    run_link(alloc, desk, end.bits, ahead, reader, writer)
}

/// Runs a terminal at its desk on its line, and ends its run.
fn speak_plain<H: Files<File = File> + Threads + Eprint + Clock + AllocGlobal, R: Read, W: Write>(
    host: &H,
    end: &LineEnd<'_>,
    desk: &mut Desk<LinkEnd, OrderStream, ReportStream<'_, H, Errors<'_, H>>>,
    measures: Option<File>,
    reader: &mut R,
    writer: &mut W,
) -> u8
    requires none_held { desk.old.terminal.held ≡ None }
    requires silent { IsSilent desk.old.voice }
    requires new { desk.old.count ≡ 0 }
    requires given { AreGiven end.now.orders (known_of desk.old.orders) }
    requires ordered { left_of desk.old.orders ≡ ordered_by (known_of desk.old.orders) }
    ensures spoke { result ≡ 0 → Spoke end.now.orders desk.old.terminal.terminal end.now.bits (min end.now.ahead MOST_AHEAD)
        (record { read = R.remaining reader.old; written = W.contents writer.old })
        (record { read = R.remaining reader.new; written = W.contents writer.new }) }
    ensures begun { Begun end.now.orders desk.old.terminal.terminal end.now.bits (min end.now.ahead MOST_AHEAD)
        (record { read = R.remaining reader.old; written = W.contents writer.old })
        (record { read = R.remaining reader.new; written = W.contents writer.new }) }
    ensures status { (result ≡ 0) ⊎ (result ≡ 4) }
{
    let status = serve(host.alloc(), end, desk, reader, writer);
    let now = desk.millisecond();
    end_streams(
        host,
        measures,
        &desk.terminal.terminal,
        &mut desk.reports,
        now,
        status,
    )
}

/// Runs a terminal with a trace at its desk on its line, and ends its run.
fn speak_traced<H: Files<File = File> + Threads + Eprint + Clock + AllocGlobal, R: Read, W: Write>(
    host: &H,
    teller: &Teller<'_, H>,
    end: &LineEnd<'_>,
    desk: &mut Desk<TracedEnd<RecordStream>, OrderStream, ReportStream<'_, H, Errors<'_, H>>>,
    measures: Option<File>,
    reader: &mut R,
    writer: &mut W,
) -> u8
    requires none_held { HoldsNone desk.old.terminal.end }
    requires silent { IsSilent desk.old.voice }
    requires new { desk.old.count ≡ 0 }
    requires given { AreGiven end.now.orders (known_of desk.old.orders) }
    requires ordered { left_of desk.old.orders ≡ ordered_by (known_of desk.old.orders) }
    ensures spoke { result ≡ 0 → Spoke end.now.orders (terminal_of desk.old.terminal) end.now.bits (min end.now.ahead MOST_AHEAD)
        (record { read = R.remaining reader.old; written = W.contents writer.old })
        (record { read = R.remaining reader.new; written = W.contents writer.new }) }
    ensures begun { Begun end.now.orders (terminal_of desk.old.terminal) end.now.bits (min end.now.ahead MOST_AHEAD)
        (record { read = R.remaining reader.old; written = W.contents writer.old })
        (record { read = R.remaining reader.new; written = W.contents writer.new }) }
    ensures status { (result ≡ 0) ⊎ (result ≡ 4) }
{
    let status = serve_traced(host.alloc(), end, desk, reader, writer);
    let now = desk.millisecond();
    let path = end.trace.unwrap_or("trace");
    let ended = end_trace(host, teller, path, status, now, &mut desk.terminal.trace);
    end_streams(
        host,
        measures,
        &desk.terminal.end.terminal,
        &mut desk.reports,
        now,
        ended,
    )
}

/// Runs a terminal on its line, with a trace if one is requested.
fn speak<H: Files<File = File> + Threads + Eprint + Clock + AllocGlobal, R: Read, W: Write>(
    host: &H,
    teller: &Teller<'_, H>,
    end: &LineEnd<'_>,
    terminal: Terminal,
    reader: &mut R,
    writer: &mut W,
) -> u8
    ensures spoke { result ≡ 0 → Spoke end.now.orders terminal end.now.bits (min end.now.ahead MOST_AHEAD)
        (record { read = R.remaining reader.old; written = W.contents writer.old })
        (record { read = R.remaining reader.new; written = W.contents writer.new }) }
    ensures begun { IsUntouched (record { read = R.remaining reader.old; written = W.contents writer.old })
        (record { read = R.remaining reader.new; written = W.contents writer.new })
        ⊎ Begun end.now.orders terminal end.now.bits (min end.now.ahead MOST_AHEAD)
        (record { read = R.remaining reader.old; written = W.contents writer.old })
        (record { read = R.remaining reader.new; written = W.contents writer.new }) }
    ensures status { (result ≡ 0) ⊎ (result ≡ 4) }
{
    let Ok(
        Streams {
            orders,
            reports,
            measures,
        },
    ) = open_streams(host, teller, end)
    else {
        return FAILED;
    };
    let Some(path) = end.trace else {
        let mut desk = link_desk(terminal, orders, reports);
        return speak_plain(host, end, &mut desk, measures, reader, writer);
    };
    let Ok(traced) = open_traced(host, teller, path, end.every, terminal) else {
        return FAILED;
    };
    let mut desk = traced_desk(traced, orders, reports);
    speak_traced(host, teller, end, &mut desk, measures, reader, writer)
}

/// Puts one end of a link on a line: it reads line octets from a reader, and writes one for each, after those sent
/// ahead (at most 8,000). Chosen limits force cyclic retransmission, or else those of the named set. A trace of its
/// processes goes to a file, if named. Orders, reports and a trace that can't be opened are reported by name.
///
/// Returns the exit status. 0: the input ended, or at the order `quit`. 2: the text is refused or lacks a name that a
/// terminal needs. 4: memory, a file, a read or a write failed, also of reports and of a trace. With any status the
/// output on the line is a beginning of what the terminal sends for the octets read. (Only tests show that standard
/// error gets a refusal, and that the text is read first; then orders and reports are opened, then the trace, then the
/// line.)
pub fn run_line<
    H: Files<File = File> + Threads + Eprint + Clock + AllocGlobal,
    S: Read + Drop,
    R: Read,
    W: Write,
>(
    host: &H,
    teller: &Teller<'_, H>,
    named: &Named<'_>,
    end: &LineEnd<'_>,
    set: SetWord<S>,
    reader: &mut R,
    writer: &mut W,
) -> u8
    ensures spoke { result ≡ 0 → IsGiven (given S.remaining set) (SpokeOver end.now
        (record { read = R.remaining reader.old; written = W.contents writer.old })
        (record { read = R.remaining reader.new; written = W.contents writer.new })) }
    ensures begun { IsUntouched (record { read = R.remaining reader.old; written = W.contents writer.old })
        (record { read = R.remaining reader.new; written = W.contents writer.new })
        ⊎ IsGiven (given S.remaining set) (BegunOver end.now
        (record { read = R.remaining reader.old; written = W.contents writer.old })
        (record { read = R.remaining reader.new; written = W.contents writer.new })) }
    ensures refused { result ≡ 2 → IsGiven (given S.remaining set) (IsNoSet (word_text named.now) (chosen_by end.now) end.now.mode None None) }
    ensures untouched { result ≡ 2 → IsUntouched (record { read = R.remaining reader.old; written = W.contents writer.old })
        (record { read = R.remaining reader.new; written = W.contents writer.new }) }
    ensures status { (result ≡ 0) ⊎ (result ≡ 2) ⊎ (result ≡ 4) }
{
    let chosen = ChosenLimits {
        messages: end.messages,
        octets: end.octets,
    };
    match new_terminal(
        host.alloc(),
        chosen,
        end.mode,
        set_word(named),
        set,
        &mut Errors { rt: host },
    ) {
        Ok(terminal) => speak(host, teller, end, terminal, reader, writer),
        Err(status) => status,
    }
}
