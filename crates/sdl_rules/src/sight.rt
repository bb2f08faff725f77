//! The synonyms that are visible in a scope.
ghost use Rattle.std.specs.Prelude.{◌≡◌};
ghost use Rattle.sdl_rules.specs.Synonyms.{around, seen};
ghost use Rattle.sdl_rules.specs.Views.{sight_of};

use crate::known_synonyms::Known;
use sdl_lex::Name;
use sdl_tables::{NameKey, NameTable};
use turn_code::Value;

/// The visible synonyms: a scope's own ones so far, and those of the scope around it, except the hidden ones.
#[derive(Drop)]
pub(crate) struct Sight<'a> {
    pub(crate) key: NameKey,
    pub(crate) own: Known,
    pub(crate) hidden: NameTable,
    pub(crate) outer: &'a Known,
}

impl<'a> Sight<'a> {
    /// The value of the synonym with a name in the scope around, unless it is hidden.
    fn around(&self, name: Name) -> Option<Value>
        ensures { result ≡ around (sight_of self.now) name }
    {
        if self.hidden.contains(name) {
            None
        } else {
            self.outer.value(name)
        }
    }

    /// The value of the synonym with a name.
    pub(crate) fn value(&self, name: Name) -> Option<Value>
        ensures { result ≡ seen (sight_of self.now) name }
    {
        match self.own.value(name) {
            Some(value) => Some(value),
            None => self.around(name),
        }
    }
}
