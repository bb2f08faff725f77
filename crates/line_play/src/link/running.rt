//! A terminal on a line, from its first octet to its last.
ghost use Rattle.std.specs.Prelude.{◌≡◌, ◌≤◌, ◌⊎◌};
ghost use Rattle.line_filter.specs.Desks.{state_of};
ghost use Rattle.line_filter.specs.Filters.{MOST_AHEAD, IsOver, IsBegun};
ghost use Rattle.line_play.specs.Lines.{IsNewDesk, end_acts};

use crate::link::end::LinkEnd;
use line_filter::{Bits, Desk, Orders, Reports, Voice, run_line};
use plain_text::{DONE, FAILED};
use script_ends::Terminal;
use std::alloc::Global;
use std::io::{Read, Write};

/// Returns a terminal on a line, before any octet was received or sent, with its source of orders and sink of reports.
pub fn link_desk<O, P>(terminal: Terminal, orders: O, reports: P) -> Desk<LinkEnd, O, P>
    ensures { IsNewDesk terminal orders reports result }
{
    Desk {
        terminal: LinkEnd {
            terminal,
            held: None,
        },
        voice: Voice::new(),
        orders,
        reports,
        count: 0,
    }
}

/// Runs a terminal on its line until the input ends or an order ends the run. First it sends `ahead` octets of 1s, at
/// most [`line_filter::MOST_AHEAD`]. Returns the exit status: 0, or 4 if memory runs out or a read or write fails. The
/// octets written are then a beginning of those to be sent for the octets that were read.
pub fn run_link<O: Orders, P: Reports, R: Read, W: Write>(
    alloc: Global,
    desk: &mut Desk<LinkEnd, O, P>,
    bits: Bits,
    ahead: usize,
    reader: &mut R,
    writer: &mut W,
) -> u8
    requires { ahead ≤ MOST_AHEAD }
    ensures over { result ≡ 0 → IsOver end_acts bits ahead desk.old.count (state_of O.left desk.old) desk.new.count (state_of O.left desk.new)
        (record { read = R.remaining reader.old; written = W.contents writer.old; told = P.stand desk.old.reports })
        (record { read = R.remaining reader.new; written = W.contents writer.new; told = P.stand desk.new.reports }) }
    ensures begun { IsBegun end_acts bits ahead desk.old.count (state_of O.left desk.old)
        (record { read = R.remaining reader.old; written = W.contents writer.old })
        (record { read = R.remaining reader.new; written = W.contents writer.new }) }
    ensures status { (result ≡ 0) ⊎ (result ≡ 4) }
{
    match run_line(alloc, desk, bits, ahead, reader, writer) {
        Ok(()) => DONE,
        Err(_) => FAILED,
    }
}
