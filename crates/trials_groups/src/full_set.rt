//! A set whose first link holds the greatest number of messages.

use crate::calls::{Stopped, speak};
use crate::each_call::{WAY, bring_up};
use crate::far_end::FarEnd;
use crate::keeping::{Given, Went, divert, hand_out};
use crate::messages::message;
use crate::opening::open_set;
use group_changeover::label_of;
use line_tending::Group;
use resend_store::Mode;
use std::alloc::Global;
use turn_check::Verified;

/// How many messages may be unacknowledged, and how many may wait.
const SENT: u32 = 127;

const WAITING: u32 = 1_024;

/// Two links in service.
#[derive(Drop)]
pub struct FullSet {
    group: Group,
}

/// Brings two new links into service.
fn begin(alloc: Global, group: &mut Group) -> Result<(), Stopped> {
    let mut text = String::new(alloc);
    let mut first = FarEnd::new();
    let mut second = FarEnd::new();
    bring_up(&mut text, group, &mut first, &mut second)
}

impl FullSet {
    /// Two links with terminals over a set of processes, in service.
    pub fn open(alloc: Global, set: &Verified) -> Result<FullSet, Stopped> {
        let mut group = open_set(alloc, set, Mode::Basic, 2, WAY)?;
        begin(alloc, &mut group)?;
        Ok(FullSet { group })
    }

    /// Gives the first link so many messages of its eight selections. Returns how many it took.
    fn give(&mut self, count: u32) -> u32 {
        let mut taken = 0u32;
        for number in 0..count {
            let selection = (number % 8) as u8 * 2;
            let msu = message(WAY, selection, number);
            if let Some(label) = label_of(&msu) {
                taken = taken.wrapping_add(self.group.send(label, msu).is_ok() as u32);
            }
        }
        taken
    }

    /// Gives and sends 127 messages.
    pub fn send_window(&mut self) -> Result<u32, Stopped> {
        let taken = self.give(SENT);
        let _octets = speak(&mut self.group, 0, SENT as usize)?;
        Ok(taken)
    }

    /// Gives 1,024 more messages, which wait.
    pub fn send_more(&mut self) -> u32 {
        self.give(WAITING)
    }

    /// Fails the first link, all unaccepted, and diverts its messages to the second. Returns how many that holds.
    pub fn divert(&mut self) -> Result<usize, Stopped> {
        let _order = self.group.fail(0).is_ok();
        let _answer = self
            .group
            .changeover_message(&[0x01, 0x80, 0, 0, 0x21, 127]);
        match hand_out(&mut self.group, 0)? {
            Given::Out(_) => {}
            Given::Refused(_) => return Err(Stopped::Refused),
        }
        match divert(&mut self.group, 0) {
            Went::On => Ok(self.group.held(1).unwrap_or(0)),
            Went::Left(_) => Err(Stopped::Refused),
            Went::Nowhere => Err(Stopped::Refused),
        }
    }
}
