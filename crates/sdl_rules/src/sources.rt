//! The possible senders of signals, with each party only once.
ghost use Rattle.std.specs.Prelude.{◌≡◌, ◌&&◌, false, not, ℕ, Bool, [], ◌∷◌, ◌++◌, List, All, IfOk, OnOk};
ghost use Rattle.std.specs.Option.{option_map_or};
ghost use Rattle.std.specs.List.{list_all};
ghost use Rattle.sdl_ast.specs.Plain.{PlainBlock, PlainProcess};
ghost use Rattle.sdl_ast.specs.Views.{process_of, block_of};
ghost use Rattle.sdl_sound.specs.Actions.{begins};
ghost use Rattle.sdl_sound.specs.Receivers.{party_of, carries, answers};
ghost use Rattle.sdl_tables.specs.Names.{number_of};
ghost use Rattle.sdl_scopes.specs.Parties.{IsNumbered, IsSender, gets_back};
ghost use Rattle.sdl_rules.specs.SenderTables.{sender_of, Tells};
ghost use Rattle.sdl_scopes.specs.Known.{AreSenders};
ghost use Rattle.sdl_scopes.specs.Reaches.{is_marked};
ghost use Rattle.sdl_rules.specs.Sources.{Gathers, Marks};

use crate::sender_table::{SenderTable, senders_of};
use sdl_ast::Stimulus;
use sdl_scopes::{Numbered, Sender, is_marked, nobody};
use sdl_tables::{BlockTable, ProcessTable};
use std::alloc::{AllocError, Global};

/// Marks a number, if there is one and it has a place among the marks. Returns whether it wasn't marked before.
pub(crate) fn mark(marks: &mut Vec<bool>, number: Option<usize>) -> bool
    ensures new { result ≡ not (option_map_or (is_marked marks.old.items) number false) }
    ensures marks { Marks number marks.old.items marks.new.items }
{
    match number {
        None => true,
        Some(number) => {
            if is_marked(marks, number) {
                return false;
            }
            if number < marks.len() {
                marks[number] = true;
            }
            true
        }
    }
}

/// The possible senders of what starts some transitions, with each party only once.
#[derive(Drop)]
pub(crate) struct Senders {
    /// The parties that have been added, by number.
    seen: Vec<bool>,
    pub(crate) list: Vec<Sender>,
}

impl Senders {
    /// No senders yet, with an unset mark for each party of a block.
    pub(crate) fn new(alloc: Global, block: &BlockTable) -> Result<Self, AllocError>
        ensures { IfOk result (λ g. (b : PlainBlock) (p : PlainProcess) → Gathers b p g (λ s. list_all (λ q. carries b (party_of p) q s) [])) }
    {
        let count = block.processes().len().saturating_add(1);
        let seen = vec![in alloc; false; count]?;
        let list = Vec::new(alloc);
        Ok(Senders { seen, list })
    }

    /// Adds a party, unless it is there.
    fn add_party(&mut self, party: &Numbered) -> Result<(), AllocError>
        ensures { OnOk result ((b : PlainBlock) (p : PlainProcess) (f : List ℕ → Bool) → IsNumbered b party.now → Gathers b p self.old f
            → Gathers b p self.new (λ s. f s && carries b (party_of p) party.now.party s)) }
    {
        if mark(&mut self.seen, party.number) {
            self.list.push(Sender::Party(*party))?;
        }
        Ok(())
    }

    /// Adds a party, or nobody, at the end.
    fn put(&mut self, party: Option<Numbered>) -> Result<(), AllocError>
        ensures list { OnOk result (self.new.list.items ≡ self.old.list.items ++ sender_of party ∷ []) }
        ensures seen { self.new.seen ≡ self.old.seen }
    {
        let sender = match party {
            None => Sender::Nobody,
            Some(party) => Sender::Party(party),
        };
        self.list.push(sender)?;
        Ok(())
    }

    /// Adds a sender: a party, or nobody.
    pub(crate) fn add(&mut self, sender: &Sender) -> Result<(), AllocError>
        ensures { OnOk result ((b : PlainBlock) (p : PlainProcess) (f : List ℕ → Bool) → IsSender b sender.now → Gathers b p self.old f
            → Gathers b p self.new (λ s. f s && gets_back b p s sender.now)) }
    {
        match sender {
            Sender::Nobody => self.put(None)?,
            Sender::Party(party) => self.add_party(party)?,
        }
        Ok(())
    }

    /// Adds each of these senders, unless it is there.
    fn add_all(&mut self, senders: &[Sender]) -> Result<(), AllocError>
        ensures { OnOk result ((b : PlainBlock) (p : PlainProcess) (f : List ℕ → Bool) → All (IsSender b) senders.now → Gathers b p self.old f
            → Gathers b p self.new (λ s. f s && list_all (gets_back b p s) senders.now)) }
    {
        for sender in senders {
            self.add(sender)?;
        }
        Ok(())
    }

    /// Adds the possible senders of a signal or timer, whose row has this number.
    pub(crate) fn add_row(
        &mut self,
        alloc: Global,
        block: &BlockTable,
        process: &ProcessTable,
        table: &SenderTable,
        stimulus: &Stimulus,
        row: Option<usize>,
    ) -> Result<(), AllocError>
        requires tells { Tells (block_of block.now) (process_of process.now) table.now }
        requires row { row ≡ number_of table.now.names stimulus.now.name.name }
        ensures { OnOk result ((f : List ℕ → Bool) → Gathers (block_of block.now) (process_of process.now) self.old f
            → Gathers (block_of block.now) (process_of process.now) self.new
            (λ s. f s && answers (block_of block.now) (process_of process.now) s stimulus.now.name.name)) }
    {
        match table.get(row) {
            Some(senders) => self.add_all(senders)?,
            None => {
                let senders = senders_of(alloc, block, process, stimulus.name.name)?;
                self.add_all(&senders)?;
            }
        }
        Ok(())
    }
}

/// The possible senders for the transition of START: nobody.
pub(crate) fn start_senders(alloc: Global) -> Result<Vec<Sender>, AllocError>
    ensures { IfOk result (λ v. (b : PlainBlock) (p : PlainProcess) → AreSenders b p v.items (begins ∷ [])) }
{
    let senders = nobody(alloc)?;
    Ok(senders)
}
