//! Retrieving messages, and diverting them.

use crate::calls::{Stopped, abandon, retrieve};
use group_changeover::{AbandonError, RetrieveError};
use line_tending::{DivertError, Group};

/// The result of a retrieval.
#[derive(Clone, Copy)]
pub enum Given {
    /// So many messages are retrieved.
    Out(usize),
    /// Why the retrieval is refused.
    Refused(RetrieveError),
}

/// Retrieves a link's messages, if that isn't refused.
pub fn hand_out(group: &mut Group, link: usize) -> Result<Given, Stopped> {
    match retrieve(group, link) {
        Ok(count) => Ok(Given::Out(count)),
        Err(RetrieveError::NoMemory) => Err(Stopped::NoMemory),
        Err(error) => Ok(Given::Refused(error)),
    }
}

/// Gives up the unsure messages. Returns how many others are retrieved, if it isn't refused.
pub fn give_up(group: &mut Group, link: usize) -> Result<Option<usize>, Stopped> {
    match abandon(group, link) {
        Ok(count) => Ok(Some(count)),
        Err(AbandonError::NoMemory) => Err(Stopped::NoMemory),
        Err(AbandonError::NoLink) => Ok(None),
        Err(AbandonError::Waiting) => Ok(None),
    }
}

/// The result of a diversion.
#[derive(Clone, Copy)]
pub enum Went {
    /// All messages were diverted.
    On,
    /// So many messages aren't diverted yet.
    Left(usize),
    /// No messages are retrieved.
    Nowhere,
}

/// Diverts a link's retrieved messages.
pub fn divert(group: &mut Group, link: usize) -> Went {
    match group.divert(link) {
        Ok(()) => Went::On,
        Err(DivertError::Left { fault: _, left }) => Went::Left(left),
        Err(DivertError::NoLink) => Went::Nowhere,
        Err(DivertError::Waiting) => Went::Nowhere,
    }
}
