//! Two sets back to back, round by round.
ghost use Rattle.std.specs.Prelude.{◌≤◌};

use crate::calls::Stopped;
use crate::dice::Dice;
use crate::run::Run;
use crate::schedule::Schedule;
use crate::set_end::SetEnd;

/// The greatest number of rounds in a run.
const MOST_ROUNDS: u32 = 60_000;

/// How many messages each end is given in a round, and how many units each link sends one way.
const GIVEN: u32 = 8;

const UNITS: usize = 16;

/// How many milliseconds a round takes.
const TICKS: u64 = 300;

/// The octets that a cut link receives in a round: at most all of these, at least half.
const ONES: [u8; 400] = [0xFF; 400];

/// How many octets of 1s a cut link receives.
fn ones(dice: &mut Dice) -> usize
    ensures { result ≤ 400 }
{
    let more = (dice.draw() % 201) as usize;
    200 + more
}

/// Carries units one way on a link; a cut one carries 1s instead.
fn carry(
    from: &mut SetEnd,
    to: &mut SetEnd,
    link: usize,
    is_cut: bool,
    dice: &mut Dice,
) -> Result<(), Stopped> {
    let octets = from.speak(link, UNITS)?;
    if is_cut {
        let count = ones(dice);
        to.hear(link, &ONES[..count])
    } else {
        to.hear(link, octets.as_slice())
    }
}

/// Powers on and starts all links.
fn switch_on(end: &mut SetEnd, links: usize) -> Result<(), Stopped> {
    for link in 0..links {
        end.switch_on(link)?;
    }
    Ok(())
}

/// Gives an end messages, up to so many in all.
fn give(end: &mut SetEnd, messages: u32, dice: &mut Dice) {
    for _ in 0..GIVEN {
        let selection = dice.selection();
        if end.counts.sent < messages {
            end.give(selection);
        }
    }
}

/// One round of one link.
fn work(
    schedule: &mut Schedule,
    near: &mut SetEnd,
    far: &mut SetEnd,
    link: usize,
    dice: &mut Dice,
) -> Result<(), Stopped> {
    carry(near, far, link, schedule.is_cut(link), dice)?;
    carry(far, near, link, schedule.is_cut(link), dice)?;
    schedule.look(near, far, link);
    schedule.tend(near, far, link, dice)?;
    schedule.tend(far, near, link, dice)?;
    schedule.heal(near, far, link, dice);
    if !schedule.is_cut(link) {
        near.start(link)?;
        far.start(link)?;
    }
    Ok(())
}

/// One round.
fn round(
    schedule: &mut Schedule,
    near: &mut SetEnd,
    far: &mut SetEnd,
    run: Run,
    dice: &mut Dice,
) -> Result<(), Stopped> {
    if near.counts.sent < run.messages || far.counts.sent < run.messages {
        schedule.cut_one(near, far, run.links, dice);
    }
    give(near, run.messages, dice);
    give(far, run.messages, dice);
    for link in 0..run.links {
        work(schedule, near, far, link, dice)?;
    }
    schedule.deliver(near, far, dice);
    schedule.deliver(far, near, dice);
    schedule.repeat(near, far, dice);
    schedule.repeat(far, near, dice);
    near.rebalance();
    far.rebalance();
    near.wait(TICKS)?;
    far.wait(TICKS)
}

/// Rounds until all is done, or there were too many.
pub fn make_rounds(
    schedule: &mut Schedule,
    near: &mut SetEnd,
    far: &mut SetEnd,
    run: Run,
) -> Result<(), Stopped> {
    let mut dice = Dice::new(run.seed);
    switch_on(near, run.links)?;
    switch_on(far, run.links)?;
    for _ in 0..MOST_ROUNDS {
        if near.is_done(run.messages) && far.is_done(run.messages) {
            return Ok(());
        }
        round(schedule, near, far, run, &mut dice)?;
    }
    Ok(())
}
