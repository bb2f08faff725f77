//! Messages that are retrieved and diverted.
ghost use Rattle.std.specs.Prelude.{◌≡◌, Some, IfOk};
ghost use Rattle.script_ends.specs.GroupAnswers.{Retrieves, Abandons, Diverts, IsRetrieveLine, IsAbandonLine};

use crate::saying::{count_line, done, refused};
use group_changeover::{AbandonError, RetrieveError};
use link_group::Group;
use std::alloc::{AllocError, Global};

/// The line of a refused retrieval; an error if memory ran out.
fn unretrieved(alloc: Global, error: RetrieveError) -> Result<Vec<u8>, AllocError>
    ensures { IfOk result (λ v. IsRetrieveLine error v.items) }
{
    match error {
        RetrieveError::NoMemory => Err(AllocError),
        RetrieveError::NoLink | RetrieveError::Waiting | RetrieveError::Unsure(_) => {
            refused(alloc, &error)
        }
    }
}

/// Obeys `retrieve`.
pub(crate) fn retrieve(alloc: Global, group: &mut Group, link: usize) -> Result<Vec<u8>, AllocError>
    ensures { IfOk result (λ v. Retrieves link group.old v.items group.new) }
{
    match group.retrieve(link) {
        Ok(count) => count_line(alloc, count),
        Err(error) => unretrieved(alloc, error),
    }
}

/// The line of a refused `abandon`; an error if memory ran out.
fn unabandoned(alloc: Global, error: AbandonError) -> Result<Vec<u8>, AllocError>
    ensures { IfOk result (λ v. IsAbandonLine error v.items) }
{
    match error {
        AbandonError::NoMemory => Err(AllocError),
        AbandonError::NoLink | AbandonError::Waiting => refused(alloc, &error),
    }
}

/// Obeys `abandon`.
pub(crate) fn abandon(alloc: Global, group: &mut Group, link: usize) -> Result<Vec<u8>, AllocError>
    ensures { IfOk result (λ v. Abandons link group.old v.items group.new) }
{
    match group.abandon(link) {
        Ok(count) => count_line(alloc, count),
        Err(error) => unabandoned(alloc, error),
    }
}

/// Obeys `divert`.
pub(crate) fn divert(alloc: Global, group: &mut Group, link: usize) -> Result<Vec<u8>, AllocError>
    ensures { IfOk result (λ v. Diverts link group.old v.items group.new) }
{
    match group.divert(link) {
        Ok(()) => done(alloc),
        Err(error) => refused(alloc, &error),
    }
}
