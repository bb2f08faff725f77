//! A link that obeys commands of a script one at a time.
ghost use Rattle.std.specs.Prelude.{◌≡◌, None, IfOk};
ghost use Rattle.script_lines.specs.Scripts.{AreInRange};
ghost use Rattle.script_book.specs.Played.{first_book, last_of};

use crate::player::Player;
use crate::playing::limits_of;
use crate::printer::Printer;
use actor_book::Book;
use script_lines::Settings;
use std::alloc::{AllocError, Global};
use turn_check::Verified;

/// A link of the processes of a set, as a script with these settings begins with it. Nothing is printed yet.
pub fn open_player(alloc: Global, set: &Verified, settings: Settings) -> Result<Player, AllocError>
    requires { AreInRange settings }
    ensures book { IfOk result (λ p. p.book ≡ first_book set.now settings) }
    ensures last { IfOk result (λ p. last_of p ≡ None) }
{
    let limits = limits_of(settings);
    let book = Book::open(alloc, set, limits)?;
    let printer = Printer { last: None };
    Ok(Player { book, printer })
}
