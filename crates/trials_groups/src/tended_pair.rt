//! Two sets with link management, joined by lines with faults.

use crate::calls::Stopped;
use crate::dice::Dice;
use crate::tended_channel::{Channel, Weather};
use crate::tended_end::TendedEnd;
use crate::tended_orders::Orders;
use crate::tended_run::TendedRun;

/// For how many rounds at the end lines have no faults.
const CALM: u64 = 40_000;

/// A line in both directions.
#[derive(Drop)]
pub struct Tie {
    /// From the near end to the far one.
    pub over: Channel,
    /// From the far end to the near one.
    pub back: Channel,
    /// The round at which its fault ends.
    pub until: u64,
    /// The round at which it is to be cut, or 0.
    pub cut_at: u64,
    /// For how many rounds it is then cut.
    pub cut_for: u64,
}

/// The buffers of a round.
#[derive(Drop)]
pub struct Parts {
    pub came: Vec<u8>,
    pub out: Vec<u8>,
}

/// Counts of faults.
#[derive(Clone, Copy)]
pub struct Faults {
    pub cuts: u32,
    pub one_way: u32,
    pub noises: u32,
    pub stalls: u32,
    pub totals: u32,
    pub staggered: u32,
    pub orders: u32,
}

impl Tie {
    /// Sets the condition of both directions until a round.
    fn befall(&mut self, over: Weather, back: Weather, until: u64) {
        self.over.weather = over;
        self.back.weather = back;
        self.until = until;
    }

    /// Plans a cut at a round, for so many rounds.
    fn plan(&mut self, at: u64, rounds: u64) {
        self.cut_at = at;
        self.cut_for = rounds;
    }

    fn clear(&mut self, now: u64) {
        if self.cut_at != 0 && self.cut_at <= now {
            self.befall(Weather::Cut, Weather::Cut, now.wrapping_add(self.cut_for));
            self.cut_at = 0;
            return;
        }
        if self.until <= now {
            self.over.weather = Weather::Fair;
            self.back.weather = Weather::Fair;
        }
    }
}

impl Faults {
    pub fn new() -> Faults {
        Faults {
            cuts: 0,
            one_way: 0,
            noises: 0,
            stalls: 0,
            totals: 0,
            staggered: 0,
            orders: 0,
        }
    }

    /// Causes a fault on a line.
    fn befall(
        &mut self,
        tie: &mut Tie,
        now: u64,
        loud: &mut String,
        link: usize,
        dice: &mut Dice,
        is_loud: bool,
    ) -> Result<(), Stopped> {
        let length = 20 + dice.draw() % 4_000;
        let until = now.wrapping_add(length);
        let kind = dice.draw() % 8;
        match kind {
            0 | 1 | 2 => {
                self.cuts = self.cuts.wrapping_add(1);
                tie.befall(Weather::Cut, Weather::Cut, until);
            }
            3 => {
                self.one_way = self.one_way.wrapping_add(1);
                tie.befall(Weather::Cut, Weather::Fair, until);
            }
            4 => {
                self.one_way = self.one_way.wrapping_add(1);
                tie.befall(Weather::Fair, Weather::Cut, until);
            }
            5 | 6 => {
                self.noises = self.noises.wrapping_add(1);
                let often = [200, 1_000, 5_000, 20_000][(dice.draw() % 4) as usize];
                tie.befall(Weather::Noise(often), Weather::Noise(often), until);
            }
            _ => {
                self.stalls = self.stalls.wrapping_add(1);
                tie.befall(Weather::Stall, Weather::Stall, until);
            }
        }
        if is_loud {
            let over = tie.over.weather;
            let back = tie.back.weather;
            writeln!(loud, "{now} line {link}: {over:?} {back:?} for {length}")?;
        }
        Ok(())
    }

    /// Cuts all lines.
    fn cut_all(&mut self, ties: &mut [Tie], now: u64, dice: &mut Dice) {
        self.totals = self.totals.wrapping_add(1);
        for tie in ties {
            let until = now.wrapping_add(200 + dice.draw() % 5_000);
            tie.befall(Weather::Cut, Weather::Cut, until);
        }
    }

    /// Cuts all lines, one after another, each for about 17 seconds.
    fn cut_in_turn(&mut self, ties: &mut [Tie], now: u64, dice: &mut Dice) {
        self.staggered = self.staggered.wrapping_add(1);
        let first = (dice.draw() % 16) as usize;
        let between = 100 + dice.draw() % 3_000;
        let count = ties.len().max(1);
        for (link, tie) in ties.iter_mut().enumerate() {
            let turn = link.wrapping_add(first) % count;
            let at = now.wrapping_add((turn as u64).wrapping_mul(between));
            tie.plan(at, 15_000 + dice.draw() % 4_000);
        }
    }

    /// Cuts all lines: one after another if the run says so, otherwise at once.
    fn strike_all(&mut self, ties: &mut [Tie], now: u64, run: TendedRun, dice: &mut Dice) {
        if run.staggered {
            self.cut_in_turn(ties, now, dice);
        } else {
            self.cut_all(ties, now, dice);
        }
    }

    /// Causes the faults of a round.
    fn strike(
        &mut self,
        ties: &mut [Tie],
        now: u64,
        run: TendedRun,
        text: &mut String,
        dice: &mut Dice,
    ) -> Result<(), Stopped> {
        if !dice.one_in(run.faults) {
            return Ok(());
        }
        let often = if run.staggered { 4 } else { 24 };
        if dice.one_in(often) {
            self.strike_all(ties, now, run, dice);
            if run.loud {
                writeln!(text, "{now} all lines cut")?;
            }
            return Ok(());
        }
        let count = if dice.one_in(5) { 2 } else { 1 };
        for _fault in 0..count {
            let link = (dice.draw() % (ties.len() as u64).max(1)) as usize;
            if let Some(tie) = ties.get_mut(link) {
                if tie.until <= now {
                    self.befall(tie, now, text, link, dice, run.loud)?;
                }
            }
        }
        Ok(())
    }
}

/// One round of one line.
fn carry(
    near: &mut TendedEnd,
    far: &mut TendedEnd,
    link: usize,
    tie: &mut Tie,
    parts: &mut Parts,
    dice: &mut Dice,
) -> Result<(), Stopped> {
    let Parts { came, out } = parts;
    tie.back.take(came, dice)?;
    near.pass(link, came.as_slice(), out)?;
    tie.over.take(came, dice)?;
    tie.over.put(out.as_slice())?;
    far.pass(link, came.as_slice(), out)?;
    tie.back.put(out.as_slice())
}

/// Rounds until all is done.
pub fn make_tended_rounds(
    text: &mut String,
    near: &mut TendedEnd,
    far: &mut TendedEnd,
    ties: &mut [Tie],
    parts: &mut Parts,
    run: TendedRun,
) -> Result<Faults, Stopped> {
    let mut dice = Dice::new(run.seed);
    let mut faults = Faults::new();
    let mut orders = Orders::new();
    near.switch_on();
    far.switch_on();
    let last = u64::from(run.seconds).wrapping_mul(1_000);
    for now in 0..last.wrapping_add(CALM) {
        orders.take_back(near, 0, now);
        orders.take_back(far, 1, now);
        if now < last {
            faults.strike(ties, now, run, text, &mut dice)?;
            orders.strike(near, far, now, run, text, &mut dice)?;
        }
        for (link, tie) in ties.iter_mut().enumerate() {
            tie.clear(now);
            carry(near, far, link, tie, parts, &mut dice)?;
        }
        near.round(text)?;
        far.round(text)?;
        if now < last.wrapping_add(CALM / 2) {
            near.give_due(run.rate, &mut dice);
            far.give_due(run.rate, &mut dice);
        }
    }
    faults.orders = orders.count;
    Ok(faults)
}
