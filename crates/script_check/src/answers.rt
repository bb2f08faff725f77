//! Notes for values that no answer of a DECISION covers (S8).
use script_point::{Notes, PlacedPart, standing_at};
use sdl_scopes::is_truth;
use sdl_tables::ProcessTable;
use sdl_tree::{Decision, Literal, Range};
use std::alloc::AllocError;

/// How often these answer values include a truth value.
fn times_in(ranges: &[Range], value: bool) -> usize {
    let mut count: usize = 0;
    for range in ranges {
        if let Range::Value(constant) = range {
            if constant.value == Literal::Boolean(value) {
                count = count.saturating_add(1);
            }
        }
    }
    count
}

/// How often a DECISION's answers include a truth value.
fn times(decision: &Decision, value: bool) -> usize {
    let mut count: usize = 0;
    for answer in &decision.answers {
        count = count.saturating_add(times_in(&answer.ranges, value));
    }
    count
}

/// The note for a DECISION of Booleans, and the hint what to write.
fn of_truths(decision: &Decision) -> (&'static str, &'static str) {
    let truths = times(decision, true);
    let falsehoods = times(decision, false);
    if truths > 1 {
        return ("TRUE is answered twice", "");
    }
    if falsehoods > 1 {
        return ("FALSE is answered twice", "");
    }
    if decision.otherwise.is_some() {
        return (
            "TRUE and FALSE are answered, and nothing is left for ELSE",
            "",
        );
    }
    of_missing(truths, falsehoods)
}

/// The note for truth values without an answer, and the hint what to write.
fn of_missing(truths: usize, falsehoods: usize) -> (&'static str, &'static str) {
    if truths == 0 && falsehoods == 0 {
        return (
            "TRUE and FALSE aren't answered",
            "write ELSE: before ENDDECISION",
        );
    }
    if truths == 0 {
        return (
            "TRUE isn't answered",
            "write (TRUE): or ELSE: in front of ENDDECISION",
        );
    }
    (
        "FALSE isn't answered",
        "write (FALSE): or ELSE: in front of ENDDECISION",
    )
}

/// Adds the note for the DECISION at a place of a process.
pub(crate) fn no_answer(
    notes: &mut Notes,
    process: &ProcessTable,
    at: u32,
) -> Result<(), AllocError> {
    let Some(found) = standing_at(process.process(), at) else {
        return Ok(());
    };
    let PlacedPart::Question(decision) = found.standing else {
        return Ok(());
    };
    let (said, hint) = if is_truth(process, &decision.question) {
        of_truths(decision)
    } else {
        (
            "a DECISION of Integers needs an ELSE",
            "write ELSE: before ENDDECISION",
        )
    };
    notes.said.push_str(said)?;
    notes.hint.push_str(hint)
}
