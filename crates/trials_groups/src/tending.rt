//! The changeover steps of an end.

use crate::calls::{Stopped, serves};
use crate::dice::Dice;
use crate::keeping::{Given, Went, divert, give_up, hand_out};
use crate::set_end::SetEnd;
use group_changeover::RetrieveError;
use line_tending::{Group, Sif};

/// Now and then gives up the unsure messages: a late answer may still arrive. Returns whether the rest is retrieved.
fn give_up_late(group: &mut Group, link: usize, dice: &mut Dice) -> Result<bool, Stopped> {
    if !dice.one_in(4) {
        return Ok(false);
    }
    Ok(give_up(group, link)?.is_some())
}

/// Retrieves a link's messages, if that isn't refused. Returns whether they are retrieved.
fn hand_out_late(group: &mut Group, link: usize, dice: &mut Dice) -> Result<bool, Stopped> {
    match hand_out(group, link)? {
        Given::Out(_) => Ok(true),
        Given::Refused(RetrieveError::Unsure(_)) => give_up_late(group, link, dice),
        Given::Refused(_) => Ok(false),
    }
}

impl SetEnd {
    /// The next step of a changeover that goes on: retrieved messages are diverted; otherwise messages are retrieved.
    fn go_on(&mut self, link: usize, dice: &mut Dice) -> Result<(), Stopped> {
        let place = link % 16;
        match divert(&mut self.group, link) {
            Went::On => {}
            Went::Left(_) => self.due[place] = false,
            Went::Nowhere => {
                if hand_out_late(&mut self.group, link, dice)? {
                    self.due[place] = false;
                }
            }
        }
        Ok(())
    }

    /// The next step for a link that is down or in changeover. Returns the order to send if changeover begins here.
    pub fn tend(&mut self, link: usize, dice: &mut Dice) -> Result<Option<Sif>, Stopped> {
        if self.group.in_changeover(link) {
            self.go_on(link, dice)?;
            return Ok(None);
        }
        if self.due[link % 16] && !serves(&self.group, link) && dice.one_in(3) {
            return Ok(self.group.fail(link).ok());
        }
        Ok(None)
    }
}
