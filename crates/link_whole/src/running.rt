//! Loading and running a text.
ghost use Rattle.std.specs.Prelude.{IfOk};
ghost use Rattle.sdl_ast.specs.Plain.{PlainBlock};
ghost use Rattle.turn_verify.specs.Meant.{IsSetOfBlock};
ghost use Rattle.link_whole.specs.Headline.{Headline, RunsAsRead};

use crate::laws::schedules_run_as_read;
use actor_book::{Book, Limits, Scheduled, run_schedule};
use actor_machine::Reply;
use std::alloc::{AllocError, Global};
use turn_verify::{LoadFault, Verified, load};

/// The result of running a text: the link's book after the last step, and the answer to each event.
#[derive(Drop)]
pub struct TextRun {
    pub book: Book,
    pub replies: Vec<Reply>,
}

/// Loads a text, opens a link with its set, and makes the steps of a schedule in order: events and rebases, as many as
/// there are. Only events have answers.
///
/// A text is run exactly if it has tokens, reads as a tree at most 32 high, and breaks no rule. Then, whatever the
/// events and their order, no transition reads an unset variable, meets a wrong operand, lacks an operand, an answer, a
/// next state or a receiver, or leaves its code. Each does what its text means (Z.100), within its certificate's
/// budget, the cost of the longest path through its text. Each output goes to the environment or to an existing actor
/// of the set. A refusal or loss for fullness is reported by name. An offer to a full port is refused as B1 Full, and
/// nothing else is. A turn's outputs to a full port, a full environment or a stopped actor are reported as lost, each
/// once, in order, with their places among the turn's effects. No others are. An event is refused as B8 JournalFull
/// exactly if no rebase came in time for it.
///
/// # Errors
///
/// A fault of the text, from the first layer that finds one, with its line if it has one; or [`LoadFault::NoMemory`],
/// which says nothing about the text.
pub fn run_text(
    alloc: Global,
    text: &str,
    limits: Limits,
    steps: &[Scheduled],
) -> Result<TextRun, LoadFault>
    ensures { Headline text.now limits steps.now result }
{
    let set = load(alloc, text)?;
    match run_set(alloc, &set, limits, steps) {
        Ok(run) => Ok(run),
        Err(_) => Err(LoadFault::NoMemory),
    }
}

/// Opens a link with a set, and makes the steps of a schedule.
fn run_set(
    alloc: Global,
    set: &Verified,
    limits: Limits,
    steps: &[Scheduled],
) -> Result<TextRun, AllocError>
    ensures { IfOk result (λ run. (b : PlainBlock) → IsSetOfBlock b set.now → RunsAsRead b set.now limits steps.now run.book run.replies.items) }
{
    schedules_run_as_read();
    let _valid = set.draft();
    let _few = limits.journal();
    let mut book = Book::open(alloc, set, limits)?;
    let replies = run_schedule(alloc, &mut book, steps)?;
    Ok(TextRun { book, replies })
}
