//! Faults in which a pool serves nothing.

use actor_book::Book;
use std::fmt;
use std::fmt::{Debug, Formatter, Write};
use thiserror::Error;

/// Why a pool serves nothing. The fault returns the books.
#[derive(Drop, Error)]
pub enum PoolFault {
    /// No workers or more than 16, more than 16 links, or no thread could be started.
    NoWorkers(Vec<Book>),
    /// Memory ran out.
    NoMemory(Vec<Book>),
}

impl fmt::Display for PoolFault {
    ghost use Rattle.std.specs.Prelude.{Some};
    ghost use Rattle.turn_pool.specs.Printed.{fault_text};

    ghost output = { λ e. Some (fault_text e) };

    fn fmt<W: Write>(&self, f: &mut Formatter<W>) -> fmt::Result {
        f.write_str(match self {
            Self::NoWorkers(_) => "G1 NoWorkers",
            Self::NoMemory(_) => "NoMemory",
        })
    }
}

impl Debug for PoolFault {
    fn fmt<W: Write>(&self, f: &mut Formatter<W>) -> fmt::Result {
        write!(f, "{self}")
    }
}
