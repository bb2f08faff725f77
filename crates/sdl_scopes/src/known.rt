//! The possible senders of the inputs that begin transitions, and the results known of signals sent back to them.
ghost use Rattle.std.specs.Prelude.{◌≡◌, [], List, OnOk};
ghost use Rattle.sdl_ast.specs.Plain.{PlainProcess, PlainBlock};
ghost use Rattle.sdl_sound.specs.Actions.{Origin};
ghost use Rattle.sdl_sound.specs.Receivers.{answers_all};
ghost use Rattle.sdl_scopes.specs.Known.{AreSenders, Knows};

use crate::sender::Sender;
use sdl_ast::Identifier;
use sdl_tables::{NameKey, NameTable};
use std::alloc::{AllocError, Global};

/// The possible senders of some inputs, and signals that are known to arrive at all of them (`back`) or not (`lost`).
#[derive(Drop)]
pub struct KnownSenders {
    pub list: Vec<Sender>,
    pub back: NameTable,
    pub lost: NameTable,
}

impl KnownSenders {
    /// Senders without known signals. The tables hash with this key.
    pub fn new(alloc: Global, key: NameKey, list: Vec<Sender>) -> Self
        ensures { (b : PlainBlock) (p : PlainProcess) (os : List Origin) → AreSenders b p list.items os → Knows b p result os }
    {
        KnownSenders {
            list,
            back: NameTable::new(alloc, key),
            lost: NameTable::new(alloc, key),
        }
    }

    /// No senders, for a statement that no transition reaches.
    pub fn none(alloc: Global, key: NameKey) -> Self
        ensures { (b : PlainBlock) (p : PlainProcess) → Knows b p result [] }
    {
        KnownSenders::new(alloc, key, Vec::new(alloc))
    }

    /// Records whether a signal arrives at all senders.
    pub fn keep(&mut self, signal: Identifier, back: bool) -> Result<(), AllocError>
        ensures { OnOk result ((b : PlainBlock) (p : PlainProcess) (os : List Origin) → Knows b p self.old os
            → back ≡ answers_all b p os signal.name → Knows b p self.new os) }
    {
        if back {
            self.back.add(signal)?;
        } else {
            self.lost.add(signal)?;
        }
        Ok(())
    }
}
