//! The output of a run.

use crate::figures::{Figures, Wrong};
use crate::run::Run;
use resend_store::Mode;
use std::alloc::AllocError;

/// The word of a mode.
fn word_of(mode: Mode) -> &'static str {
    match mode {
        Mode::Basic => "basic",
        Mode::Cyclic => "cyclic",
    }
}

/// Writes the run, and the number of damaged bits.
fn write_head(text: &mut String, run: &Run, damaged: u32) -> Result<(), AllocError> {
    let Run {
        mode,
        seed,
        rate,
        messages,
        given,
        units,
    } = *run;
    let mode = word_of(mode);
    writeln!(
        text,
        "{mode} seed {seed} rate {rate}: {messages} messages each way, {given} given and {units} units a round, {damaged} bits damaged"
    )
}

/// Writes whether the messages came in order.
fn write_order(text: &mut String, wrong: Option<Wrong>) -> Result<(), AllocError> {
    match wrong {
        None => text.push_str("  in order, none twice, none missing\n"),
        Some(
            Wrong {
                spell,
                came,
                wanted,
            },
        ) => writeln!(
            text,
            "  WRONG in spell {spell}: message {came} came for {wanted}"
        ),
    }
}

/// Writes the numbers of messages one way.
fn write_counts(text: &mut String, from: &Figures, to: &Figures) -> Result<(), AllocError> {
    writeln!(
        text,
        "sent {}, delivered {}, retransmitted {}, anew {}, delivered twice over spells {}, spells {}",
        from.sent, to.came, from.again, from.anew, to.doubled, to.spells
    )
}

/// Writes the results for one way.
fn write_way(text: &mut String, way: &str, from: &Figures, to: &Figures) -> Result<(), AllocError> {
    text.push_str(way)?;
    write_counts(text, from, to)?;
    write_order(text, to.wrong)
}

/// Writes the results of a run.
pub fn write_run(
    text: &mut String,
    run: &Run,
    damaged: u32,
    left: &Figures,
    right: &Figures,
) -> Result<(), AllocError> {
    write_head(text, run, damaged)?;
    write_way(text, "left to right: ", left, right)?;
    write_way(text, "right to left: ", right, left)
}
