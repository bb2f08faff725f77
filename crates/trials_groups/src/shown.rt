//! The output of a run.

use crate::counts::Counts;
use crate::run::Run;
use crate::schedule::Schedule;
use crate::set_end::SetEnd;
use resend_store::Mode;
use std::alloc::AllocError;

/// The word of a mode.
fn word_of(mode: Mode) -> &'static str {
    match mode {
        Mode::Basic => "basic",
        Mode::Cyclic => "cyclic",
    }
}

/// Writes the run, and the events of its links.
fn write_head(text: &mut String, run: Run, schedule: &Schedule) -> Result<(), AllocError> {
    let Run {
        mode,
        links,
        seed,
        messages,
        lost,
        ..
    } = run;
    let mode = word_of(mode);
    let Schedule {
        cuts,
        orders,
        losses,
        ..
    } = *schedule;
    writeln!(
        text,
        "{mode} links {links} seed {seed} lost {lost}: {messages} messages each way, {cuts} cuts, {orders} messages of changeover, {losses} lost"
    )
}

/// The verdict on one way. No more messages may be missing than count as unsure at the sender.
fn verdict(from: &Counts, to: &Counts, unsure: u64) -> &'static str {
    let missing = u64::from(from.sent.saturating_sub(to.came));
    if to.wrong() > 0 || to.came > from.sent {
        "WRONG: some came twice or out of order"
    } else if missing > unsure {
        "WRONG: more are missing than are unsure"
    } else if missing > 0 {
        "none twice, in order, none missing but unsure ones"
    } else {
        "each once, in order"
    }
}

/// Writes the messages of one way.
fn write_way(text: &mut String, way: &str, from: &SetEnd, to: &SetEnd) -> Result<(), AllocError> {
    let sent = from.counts.sent;
    let came = to.counts.came;
    let unsure = from.group.unsure();
    let verdict = verdict(&from.counts, &to.counts, unsure);
    writeln!(
        text,
        "  {way}: sent {sent}, arrived {came}, unsure {unsure}: {verdict}"
    )
}

/// Writes the result of a late run: each message was received once, or counts as unsure.
fn write_late(text: &mut String, run: Run, near: &SetEnd, far: &SetEnd) -> Result<(), AllocError> {
    let Run {
        mode,
        links,
        seed,
        messages,
        lost,
        ..
    } = run;
    let mode = word_of(mode);
    writeln!(
        text,
        "{mode} links {links} seed {seed} lost {lost} late: {messages} messages each way"
    )?;
    write_late_way(text, "near to far", near, far)?;
    write_late_way(text, "far to near", far, near)
}

/// Writes the messages of one way of a late run.
fn write_late_way(
    text: &mut String,
    way: &str,
    from: &SetEnd,
    to: &SetEnd,
) -> Result<(), AllocError> {
    let missing = u64::from(from.counts.sent.saturating_sub(to.counts.came));
    let verdict = if missing <= from.group.unsure() && to.counts.wrong() == 0 {
        "each once or unsure, in order"
    } else {
        verdict(&from.counts, &to.counts, from.group.unsure())
    };
    writeln!(text, "  {way}: {verdict}")
}

/// Writes the result of a run.
pub fn write_run(
    text: &mut String,
    run: Run,
    schedule: &Schedule,
    near: &SetEnd,
    far: &SetEnd,
) -> Result<(), AllocError> {
    if run.late {
        write_late(text, run, near, far)?;
    } else {
        write_head(text, run, schedule)?;
    }
    if !near.is_done(run.messages) || !far.is_done(run.messages) {
        text.push_str("  NOT DONE\n")?;
    }
    if run.late {
        return Ok(());
    }
    write_way(text, "near to far", near, far)?;
    write_way(text, "far to near", far, near)
}
