//! The sets whose turns are measured.

use crate::calls::Stopped;
use crate::texts::accepted;
use link_whole::load;
use mtp2_text::standard;
use std::alloc::{AllocError, Global};
use turn_check::Verified;

/// The text of the counter.
const COUNTER: &str = "BLOCK B; SIGNAL Up(Integer); SIGNALROUTE r FROM ENV TO P WITH Up;
PROCESS P (1,1); DCL n, total Integer;
START; TASK total := 0; NEXTSTATE Run;
STATE Run; INPUT Up(n); TASK total := total + n; NEXTSTATE Run;
ENDSTATE Run; ENDPROCESS P; ENDBLOCK B;";

/// The number of tasks of the long piece, of five instructions each: with 7 more it has 512.
const TASKS: u32 = 101;

/// A set that is measured.
#[derive(Clone, Copy)]
pub enum Set {
    /// A process that adds up the numbers that it gets.
    Counter,
    /// A process whose one input has 512 instructions.
    Long,
    /// The processes of the profile.
    Standard,
}

impl Set {
    /// The set of this name; any other is that of the profile.
    pub fn named(name: &str) -> Set {
        match name {
            "counter" => Set::Counter,
            "long" => Set::Long,
            _ => Set::Standard,
        }
    }
}

/// The text of a process whose input takes 512 instructions.
fn long_text(alloc: Global) -> Result<String, AllocError> {
    let mut text = String::new(alloc);
    text.push_str(
        "BLOCK B; SIGNAL Up(Integer); SIGNALROUTE r FROM ENV TO P WITH Up;\nPROCESS P (1,1); DCL n, total Integer;\nSTART; TASK total := 0; NEXTSTATE Run;\nSTATE Run; INPUT Up(n); TASK total := total + n",
    )?;
    for _ in 0..TASKS {
        text.push_str(", total := (total + n) MOD 1000")?;
    }
    text.push_str(";\nNEXTSTATE Run; ENDSTATE Run; ENDPROCESS P; ENDBLOCK B;\n")?;
    Ok(text)
}

/// The set of the long piece.
fn load_long(alloc: Global) -> Result<Verified, Stopped> {
    let text = long_text(alloc)?;
    accepted(load(alloc, text.as_str()))
}

/// The set, if its text is accepted.
pub fn load_set(alloc: Global, set: Set) -> Result<Verified, Stopped> {
    match set {
        Set::Counter => accepted(load(alloc, COUNTER)),
        Set::Long => load_long(alloc),
        Set::Standard => accepted(standard(alloc)),
    }
}
