//! Synonyms with their values.
ghost use Rattle.std.specs.Prelude.{◌≡◌, OnOk, slice_get};
ghost use Rattle.sdl_rules.specs.Synonyms.{none_known, known_as, and_known};
ghost use Rattle.sdl_rules.specs.Views.{known_of};

use sdl_ast::Identifier;
use sdl_lex::Name;
use sdl_tables::{NameKey, NameTable};
use std::alloc::{AllocError, Global};
use turn_code::Value;

/// Synonyms with their values, each name once.
#[derive(Drop)]
pub struct Known {
    pub names: NameTable,
    pub values: Vec<Value>,
}

/// No synonym. Names are hashed with this key.
pub(crate) fn nothing_known(alloc: Global, key: NameKey) -> Known
    ensures { known_of result ≡ none_known }
{
    Known {
        names: NameTable::new(alloc, key),
        values: Vec::new(alloc),
    }
}

/// The value with a number.
fn value_at(values: &[Value], number: usize) -> Option<Value>
    ensures { result ≡ slice_get values.now number }
{
    values.get(number).copied()
}

impl Known {
    /// The value of the synonym with a name.
    pub fn value(&self, name: Name) -> Option<Value>
        ensures { result ≡ known_as (known_of self.now) name }
    {
        match self.names.number(name) {
            Some(number) => value_at(&self.values, number),
            None => None,
        }
    }

    /// Adds one more synonym, unless its name is there.
    pub(crate) fn add(&mut self, name: Identifier, value: Value) -> Result<(), AllocError>
        ensures { OnOk result (known_of self.new ≡ and_known (known_of self.old) name value) }
    {
        if self.names.contains(name.name) {
            return Ok(());
        }
        self.names.add(name)?;
        self.values.push(value)?;
        Ok(())
    }
}
