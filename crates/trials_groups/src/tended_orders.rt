//! Random orders at both ends, each taken back some time later.
ghost use Rattle.std.specs.Prelude.{◌<◌};

use crate::calls::Stopped;
use crate::dice::Dice;
use crate::tended_end::TendedEnd;
use crate::tended_run::TendedRun;
use link_processes::Command;

/// For so many rounds at the beginning links come into service.
const FIRST: u64 = 15_000;

/// The orders in force on the links of both ends, and until which round; 0 if none is.
#[derive(Clone, Copy)]
pub struct Orders {
    until: [u64; 32],
    kinds: [u8; 32],
    /// How many orders were given.
    pub count: u32,
}

/// An order to be given about a link at an end.
#[derive(Clone, Copy)]
struct Order {
    at: usize,
    link: usize,
    kind: u8,
    until: u64,
}

/// The command that begins an order.
fn order_of(kind: u8) -> Command {
    match kind {
        0 | 1 => Command::Outage,
        2 => Command::Busy,
        3 => Command::Overload,
        4 => Command::Emergency,
        _ => Command::Stop,
    }
}

/// The command that ends an order.
fn order_behind(kind: u8) -> Command {
    match kind {
        0 | 1 => Command::Back,
        2 | 3 => Command::Free,
        4 => Command::Calm,
        _ => Command::Start,
    }
}

/// The place of the order in force on a link of an end.
fn place_of(at: usize, link: usize) -> usize
    ensures { result < 32 }
{
    at % 2 * 16 + link % 16
}

/// How many rounds at most an order is in force.
fn longest_of(drawn: u64) -> u64
    ensures { 0 < result }
{
    match drawn % 3 {
        0 => 300,
        1 => 3_000,
        _ => 8_000,
    }
}

impl Orders {
    /// No orders were given.
    pub fn new() -> Orders {
        Orders {
            until: [0; 32],
            kinds: [0; 32],
            count: 0,
        }
    }

    /// Takes back the orders that are over.
    pub fn take_back(&mut self, end: &mut TendedEnd, at: usize, now: u64) {
        for link in 0..end.tender.len() {
            let place = place_of(at, link);
            if self.until[place] == 0 || now < self.until[place] {
                continue;
            }
            self.until[place] = 0;
            let _done = end
                .tender
                .obey(link, order_behind(self.kinds[place]))
                .is_ok();
        }
    }

    /// Gives an order, unless one is in force on that link.
    fn give(
        &mut self,
        end: &mut TendedEnd,
        order: Order,
        text: &mut String,
    ) -> Result<(), Stopped> {
        let Order {
            at,
            link,
            kind,
            until,
        } = order;
        let place = place_of(at, link);
        if self.until[place] != 0 {
            return Ok(());
        }
        self.until[place] = until;
        self.kinds[place] = kind;
        self.count = self.count.wrapping_add(1);
        let _done = end.tender.obey(link, order_of(kind)).is_ok();
        if end.loud {
            let command = order_of(kind);
            writeln!(text, "end {at} link {link}: {command:?} until {until}")?;
        }
        Ok(())
    }

    /// Gives an order at the end that it names.
    fn give_at(
        &mut self,
        near: &mut TendedEnd,
        far: &mut TendedEnd,
        order: Order,
        text: &mut String,
    ) -> Result<(), Stopped> {
        if order.at == 0 {
            self.give(near, order, text)
        } else {
            self.give(far, order, text)
        }
    }

    /// Gives a round's orders: one, and now and then a stop of another link at the other end.
    pub fn strike(
        &mut self,
        near: &mut TendedEnd,
        far: &mut TendedEnd,
        now: u64,
        run: TendedRun,
        text: &mut String,
        dice: &mut Dice,
    ) -> Result<(), Stopped> {
        if !run.orders || now < FIRST || !dice.one_in(run.faults) {
            return Ok(());
        }
        let at = (dice.draw() % 2) as usize;
        let longest = longest_of(dice.draw());
        let links = (run.links as u64).max(1);
        let order = Order {
            at,
            link: (dice.draw() % links) as usize,
            kind: (dice.draw() % 6) as u8,
            until: now.wrapping_add(20).wrapping_add(dice.draw() % longest),
        };
        let other = Order {
            at: 1usize.wrapping_sub(at),
            link: (dice.draw() % links) as usize,
            kind: 5,
            until: now.wrapping_add(50),
        };
        self.give_at(near, far, order, text)?;
        if dice.one_in(3) && other.link != order.link {
            self.give_at(near, far, other, text)?;
        }
        Ok(())
    }
}
