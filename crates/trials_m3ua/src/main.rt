//! `trials_m3ua` shows M3UA streams and the lives of gateways, one for each line of standard input, then a line `--`. A
//! stream is pieces in hexadecimal, separated by spaces. Its items are a message (name, parameter values by tag),
//! `refused` with the error code, `too long`, or `broken`. DATA has a second line: its protocol data and the octets of
//! the MTP message. A line that begins with `gateway` is a life: words, each with one argument. It shows what the ASP
//! sends after `asp`, what the gateway sends after `gateway` with its octets, and what becomes of messages.
#![tactic(auto)]

mod desk;
mod life;
mod reading;
mod shown;

use crate::reading::{show_life, show_stream};
use std::alloc::{AllocError, Global};
use std::io::{self, BufReader, ErrorKind, Read};
use std::str;

/// Shows a line: a life, or a stream.
fn show_line(alloc: Global, text: &mut String, line: &str) -> Result<(), AllocError> {
    if line.as_bytes().starts_with(b"gateway") {
        show_life(alloc, text, line)
    } else {
        show_stream(alloc, text, line)
    }
}

fn main(rt: HostRuntime) -> io::Result<()> {
    let mut bytes = Vec::new(rt.alloc());
    BufReader::new(rt.alloc(), rt.reader())?.read_to_end(&mut bytes)?;
    let Ok(table) = str::from_utf8(&bytes) else {
        return Err(io::Error::from(ErrorKind::InvalidData));
    };
    for line in table.lines() {
        let mut text = String::new(rt.alloc());
        if show_line(rt.alloc(), &mut text, line).is_err() {
            return Err(io::Error::from(ErrorKind::OutOfMemory));
        }
        rt.print(text)?;
    }
    Ok(())
}
