//! Opening the files of orders and reports.
ghost use Rattle.std.specs.Prelude.{IfOk, OnOk};
ghost use Rattle.line_filter.specs.Reporting.{MovesOn, TellsLine};
ghost use Rattle.line_streams.specs.Known.{left_of, stand_of, AreStuck, ComeFrom, GoTo, IsReported, EndsTold};

use crate::ahead::Source;
use crate::arrivals::Arrivals;
use crate::departures::Departures;
use crate::live::LiveOrders;
use line_filter::{Orders, Reports, Wait};
use std::alloc::Global;
use std::fs::{self, File, OpenOptions};
use std::io::{self, Write};
use std::rt::Files;
use std::thread::Threads;
use std::time::Clock;

/// The source of orders.
#[derive(Drop)]
pub enum OrderStream {
    /// There are none.
    Nothing,
    /// A file or a FIFO.
    Live(LiveOrders),
}

impl Orders for OrderStream {
    ghost left = { left_of };

    fn next(&mut self, alloc: Global, now: u64) -> io::Result<Option<String>> {
        match self {
            OrderStream::Nothing => Ok(None),
            OrderStream::Live(orders) => match orders.next(alloc, now)? {
                Some(order) => Ok(Some(order)),
                None => Ok(None),
            },
        }
    }

    fn next_end(&mut self, _alloc: Global, now: u64) -> io::Result<Option<String>> {
        match self {
            OrderStream::Nothing => Ok(None),
            OrderStream::Live(orders) => match orders.next_end(now)? {
                Some(order) => Ok(Some(order)),
                None => Ok(None),
            },
        }
    }

    fn begins_anew(&mut self, alloc: Global) -> io::Result<bool> {
        match self {
            OrderStream::Nothing => Ok(false),
            OrderStream::Live(orders) => {
                if orders.rewind(alloc)? {
                    Ok(true)
                } else {
                    Ok(false)
                }
            }
        }
    }
}

/// Opens a file for reading and writing: a FIFO then neither waits for its other side nor ends when that closes.
pub fn open_both<R: Files<File = File>>(rt: &R, path: &str) -> io::Result<File> {
    let mut how = OpenOptions::new();
    how.read(true).write(true);
    how.open(rt, path)
}

/// Opens a file or a FIFO as a source of orders.
fn open_source<R: Files<File = File> + Threads>(
    rt: &R,
    alloc: Global,
    path: &str,
) -> io::Result<Source> {
    if rt.metadata(path)?.is_file() {
        return Ok(Source::File(fs::open(rt, path)?));
    }
    let file = open_both(rt, path)?;
    Ok(Source::Fifo(Arrivals::start(rt, alloc, file)?))
}

/// Opens the source of orders; there are none without a path.
///
/// # Errors
///
/// If the path can't be opened, or there is no memory, no pipe or no thread.
pub fn open_orders<R: Files<File = File> + Threads>(
    rt: &R,
    alloc: Global,
    path: Option<&str>,
) -> io::Result<OrderStream>
    ensures { IfOk result (ComeFrom path.entry) }
{
    let Some(path) = path else {
        return Ok(OrderStream::Nothing);
    };
    let source = open_source(rt, alloc, path)?;
    Ok(OrderStream::Live(LiveOrders::new(alloc, source)))
}

/// How a regular file of reports is opened.
#[derive(Clone, Copy, Debug, PartialEq, Eq)]
pub enum Begin {
    /// It is created, or emptied.
    Anew,
    /// It is created, or appended to.
    After,
}

/// A regular file of reports, with its name.
#[derive(Drop)]
pub struct ReportFile<'a, H> {
    host: &'a H,
    path: String,
    file: File,
}

/// The destination of reports.
#[derive(Drop)]
pub enum ReportStream<'a, H, E> {
    /// Standard error, or a writer in its place.
    Errors(E),
    /// A regular file.
    File(ReportFile<'a, H>),
    /// A file that may keep a writer waiting, for example a FIFO.
    Fifo(Departures),
}

/// Opens a file of reports to append to it. It is created if it doesn't exist.
fn append_to<R: Files<File = File>>(rt: &R, path: &str) -> io::Result<File> {
    let mut how = OpenOptions::new();
    how.append(true).create(true);
    how.open(rt, path)
}

impl<H: Files<File = File>> ReportFile<'_, H> {
    /// Opens it again by its name. Returns whether that succeeded.
    fn reopen(&mut self) -> bool {
        match append_to(self.host, self.path.as_str()) {
            Ok(file) => {
                self.file = file;
                true
            }
            Err(_) => false,
        }
    }
}

impl<H: Files<File = File>, E: Write> Reports for ReportStream<'_, H, E> {
    ghost stand = { stand_of E.contents };

    fn tell(&mut self, wait: Wait, line: &[u8]) -> io::Result<()>
        ensures line { OnOk result (TellsLine (stand_of E.contents self.old) (stand_of E.contents self.new) (record { wait = wait; octets = line.now })) }
        ensures lost { OnOk result (IsReported E.contents (record { wait = wait; octets = line.now }) self.old self.new) }
    {
        match self {
            ReportStream::Errors(errors) => errors.write_all(line),
            ReportStream::File(file) => file.file.write_all(line),
            ReportStream::Fifo(departures) => departures.report(wait, line),
        }
    }

    fn move_on(&mut self) -> io::Result<()>
        ensures moves { OnOk result (MovesOn (stand_of E.contents self.old) (stand_of E.contents self.new)) }
        ensures room { OnOk result (AreStuck self.new) }
    {
        match self {
            ReportStream::Errors(_) | ReportStream::File(_) => Ok(()),
            ReportStream::Fifo(departures) => departures.move_on(),
        }
    }

    fn reopen(&mut self) -> io::Result<bool> {
        match self {
            ReportStream::Errors(_) | ReportStream::Fifo(_) => Ok(true),
            ReportStream::File(file) => Ok(file.reopen()),
        }
    }

    fn messages(&self) -> usize {
        match self {
            ReportStream::Errors(_) | ReportStream::File(_) => 0,
            ReportStream::Fifo(departures) => departures.messages(),
        }
    }

    fn answers(&self) -> usize {
        match self {
            ReportStream::Errors(_) | ReportStream::File(_) => 0,
            ReportStream::Fifo(departures) => departures.answers(),
        }
    }
}

impl<H, E> ReportStream<'_, H, E> {
    /// Waits at the end until pending reports are written, for a second at most. It reports with this millisecond how
    /// many were lost after the last one queued, once there is room for that.
    ///
    /// # Errors
    ///
    /// If memory runs out, or a write of a report failed.
    pub fn end<R: Clock>(&mut self, rt: &R, now: u64) -> io::Result<()>
        ensures { OnOk result (EndsTold now self.old self.new) }
    {
        match self {
            ReportStream::Errors(_) | ReportStream::File(_) => Ok(()),
            ReportStream::Fifo(departures) => departures.end(rt, now),
        }
    }
}

/// Opens a regular file of reports.
fn open_file<'a, R: Files<File = File>>(
    rt: &'a R,
    alloc: Global,
    path: &str,
    how: Begin,
) -> io::Result<ReportFile<'a, R>> {
    let mut name = String::new(alloc);
    name.push_str(path)?;
    let file = match how {
        Begin::Anew => fs::create(rt, path)?,
        Begin::After => append_to(rt, path)?,
    };
    Ok(ReportFile {
        host: rt,
        path: name,
        file,
    })
}

/// Opens the destination of reports: `errors` without a path. A regular file is created; an existing one is emptied, or
/// appended to.
///
/// # Errors
///
/// If the path can't be opened, or there is no memory, no pipe or no thread.
pub fn open_reports<'a, R: Files<File = File> + Threads, E: Drop>(
    rt: &'a R,
    alloc: Global,
    path: Option<&str>,
    how: Begin,
    errors: E,
) -> io::Result<ReportStream<'a, R, E>>
    ensures { IfOk result (GoTo path.entry errors) }
{
    let Some(path) = path else {
        return Ok(ReportStream::Errors(errors));
    };
    match rt.metadata(path) {
        Ok(data) if !data.is_file() => {
            let file = open_both(rt, path)?;
            Ok(ReportStream::Fifo(Departures::start(rt, alloc, file)?))
        }
        _ => Ok(ReportStream::File(open_file(rt, alloc, path, how)?)),
    }
}
