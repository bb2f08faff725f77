//! Messages that are retrieved from links and diverted.
ghost use Rattle.line_tending.specs.Rounds.{Adds};

use crate::tended_set::{TendError, TendedSet};
use group_changeover::{AbandonError, RetrieveError};

/// The result of a retrieval from a link.
#[derive(Clone, Copy, Debug, PartialEq, Eq)]
pub(crate) enum HandsOut {
    /// So many messages were retrieved.
    Messages(usize),
    /// None: of so many sent messages it isn't known whether they arrived.
    Unsure(usize),
    /// None, for now.
    Nothing,
}

impl TendedSet {
    /// Retrieves the messages of a link.
    pub(crate) fn retrieve(&mut self, link: usize) -> Result<HandsOut, TendError>
        ensures { Adds self.old self.new }
    {
        match self.set.retrieve(link) {
            Ok(count) => Ok(HandsOut::Messages(count)),
            Err(RetrieveError::Unsure(count)) => Ok(HandsOut::Unsure(count)),
            Err(RetrieveError::NoMemory) => Err(TendError::NoMemory),
            Err(RetrieveError::NoLink | RetrieveError::Waiting) => Ok(HandsOut::Nothing),
        }
    }

    /// Retrieves the messages that a link never sent, and drops the others.
    pub(crate) fn abandon(&mut self, link: usize) -> Result<HandsOut, TendError>
        ensures { Adds self.old self.new }
    {
        match self.set.abandon(link) {
            Ok(count) => Ok(HandsOut::Messages(count)),
            Err(AbandonError::NoMemory) => Err(TendError::NoMemory),
            Err(AbandonError::NoLink | AbandonError::Waiting) => Ok(HandsOut::Nothing),
        }
    }

    /// Diverts a link's retrieved messages, as far as possible. Returns whether there were any and all were diverted.
    pub(crate) fn divert(&mut self, link: usize) -> bool
        ensures { Adds self.old self.new }
    {
        match self.set.divert(link) {
            Ok(()) => true,
            Err(_) => false,
        }
    }
}
