//! Two sets with link management, driven by a script.

use crate::calls::Stopped;
use crate::dice::Dice;
use crate::messages::Way;
use crate::tended_channel::{Channel, Weather};
use crate::tended_side::{AHEAD, Side, open_side};
use std::alloc::Global;
use std::collections::VecDeque;
use turn_check::Verified;

/// The name of the far end.
const FAR: &str = "far";

/// The points between which its messages go.
const FAR_WAY: Way = Way { from: 2, to: 1 };

/// Lines in memory, whose octets arrive as sent: from the near end to the far one, and back.
#[derive(Drop)]
struct Ties {
    over: Vec<Channel>,
    back: Vec<Channel>,
    /// The link whose line is looped back to the near end, if there is one. The far one receives nothing there.
    looped: Option<usize>,
}

/// So many channels, each with some octets sent first.
fn channels(alloc: Global, links: usize) -> Result<Vec<Channel>, Stopped> {
    let mut channels = Vec::with_capacity(alloc, links)?;
    for _link in 0..links {
        let mut channel = Channel::new(VecDeque::new(alloc), false);
        channel.put(&[0xFF; AHEAD])?;
        if channels.push(channel).is_err() {
            return Err(Stopped::NoMemory);
        }
    }
    Ok(channels)
}

/// One round of a line.
fn carry_one(
    near: &mut Side,
    far: &mut Side,
    link: usize,
    over: &mut Channel,
    back: &mut Channel,
    came: &mut Vec<u8>,
    out: &mut Vec<u8>,
) -> Result<(), Stopped> {
    let mut dice = Dice::new(0);
    back.take(came, &mut dice)?;
    near.pass(link, came.as_slice(), out)?;
    over.take(came, &mut dice)?;
    over.put(out.as_slice())?;
    far.pass(link, came.as_slice(), out)?;
    back.put(out.as_slice())
}

/// One round of a line that is looped back to the near end.
fn carry_back(
    near: &mut Side,
    far: &mut Side,
    link: usize,
    over: &mut Channel,
    came: &mut Vec<u8>,
    out: &mut Vec<u8>,
) -> Result<(), Stopped> {
    let mut dice = Dice::new(0);
    over.take(came, &mut dice)?;
    near.pass(link, came.as_slice(), out)?;
    over.put(out.as_slice())?;
    far.pass(link, &[], out)
}

/// One round of all lines.
fn carry(
    near: &mut Side,
    far: &mut Side,
    ties: &mut Ties,
    came: &mut Vec<u8>,
    out: &mut Vec<u8>,
) -> Result<(), Stopped> {
    for link in 0..near.tender.len() {
        let Some(over) = ties.over.get_mut(link) else {
            return Err(Stopped::Refused);
        };
        let Some(back) = ties.back.get_mut(link) else {
            return Err(Stopped::Refused);
        };
        if ties.looped == Some(link) {
            carry_back(near, far, link, over, came, out)?;
        } else {
            carry_one(near, far, link, over, back, came, out)?;
        }
    }
    Ok(())
}

/// So many rounds, and then the reports of both ends.
fn run(
    alloc: Global,
    text: &mut String,
    near: &mut Side,
    far: &mut Side,
    ties: &mut Ties,
    rounds: u32,
) -> Result<(), Stopped> {
    let mut came = Vec::new(alloc);
    let mut out = Vec::new(alloc);
    let mut told = String::new(alloc);
    for _round in 0..rounds {
        carry(near, far, ties, &mut came, &mut out)?;
        near.round(text)?;
        far.round(&mut told)?;
    }
    text.push_str(&told)?;
    Ok(())
}

/// Sets the condition of a line, in both directions.
fn befall(ties: &mut Ties, link: usize, weather: Weather) {
    if let Some(channel) = ties.over.get_mut(link) {
        channel.weather = weather;
    }
    if let Some(channel) = ties.back.get_mut(link) {
        channel.weather = weather;
    }
}

/// Carries out a script's line about lines or time.
fn step_on(
    alloc: Global,
    text: &mut String,
    near: &mut Side,
    far: &mut Side,
    ties: &mut Ties,
    word: &str,
    rest: &str,
) -> Result<(), Stopped> {
    let Ok(number) = rest.parse::<u32>() else {
        return Err(Stopped::BadLine);
    };
    match word {
        "run" => run(alloc, text, near, far, ties, number),
        "cut" => {
            befall(ties, number as usize, Weather::Cut);
            Ok(())
        }
        "heal" => {
            befall(ties, number as usize, Weather::Fair);
            ties.looped = None;
            Ok(())
        }
        "loop" => {
            ties.looped = Some(number as usize);
            Ok(())
        }
        _ => Err(Stopped::BadLine),
    }
}

/// Carries out a script's line.
fn step(
    alloc: Global,
    text: &mut String,
    set: &Verified,
    near: &mut Side,
    far: &mut Side,
    ties: &mut Ties,
    line: &str,
) -> Result<(), Stopped> {
    let Some((word, rest)) = line.split_once(' ') else {
        return Err(Stopped::BadLine);
    };
    match word {
        "near" => near.order(text, rest),
        "far" if rest == "anew" => {
            *far = open_side(alloc, set, near.tender.len(), FAR, FAR_WAY)?;
            Ok(())
        }
        "far" => far.order(text, rest),
        _ => step_on(alloc, text, near, far, ties, word, rest),
    }
}

/// Carries out all of a script's lines.
fn steps(
    alloc: Global,
    text: &mut String,
    set: &Verified,
    near: &mut Side,
    far: &mut Side,
    ties: &mut Ties,
    lines: &str,
) -> Result<(), Stopped> {
    for line in lines.lines() {
        step(alloc, text, set, near, far, ties, line)?;
    }
    Ok(())
}

/// The number of links in a script's first line, and its other lines.
fn head(script: &str) -> Option<(usize, &str)> {
    let (first, rest) = script.split_once('\n')?;
    let number = first.strip_prefix("links ")?;
    let links = number.parse::<usize>().ok()?;
    if 1 <= links && links <= 16 {
        Some((links, rest))
    } else {
        None
    }
}

/// Runs a script with this near end.
fn run_near(
    alloc: Global,
    text: &mut String,
    set: &Verified,
    near: &mut Side,
    links: usize,
    lines: &str,
) -> Result<(), Stopped> {
    let mut ties = Ties {
        over: channels(alloc, links)?,
        back: channels(alloc, links)?,
        looped: None,
    };
    let mut far = open_side(alloc, set, links, FAR, FAR_WAY)?;
    steps(alloc, text, set, near, &mut far, &mut ties, lines)
}

/// Runs a script, and writes the reports of both ends. `links N` is first; then `near ORDER` and `far ORDER`; `run N`:
/// so many rounds, then the reports, near's first; `cut L`, `loop L` (its line returns to the near end), `heal L`; `far
/// anew`: a new far end. The near point is 1, the far one 2. An ORDER is `power`, `start`, `stop`, `outage` or `back`
/// with a link or `all`, or `send` with a selection, whose first message is sent.
///
/// # Errors
///
/// If memory runs out, or a line isn't valid.
pub fn run_script(
    alloc: Global,
    text: &mut String,
    set: &Verified,
    script: &str,
) -> Result<(), Stopped> {
    let Some((links, lines)) = head(script) else {
        return Err(Stopped::BadLine);
    };
    let mut near = open_side(alloc, set, links, "near", Way { from: 1, to: 2 })?;
    run_near(alloc, text, set, &mut near, links, lines)
}
