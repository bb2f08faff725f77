//! The command `draw` for the set that the command line names.
ghost use Rattle.std.specs.Prelude.{◌≡◌, ◌⊎◌};

use crate::text::sets::{STDIN, own_set};
use draw_sets::{Picture, draw};
use mtp2_words::Named;
use plain_text::{NamedReader, Teller};
use script_check::SetWord;
use std::fs;
use std::io::Write;
use std::rt::Runtime;

/// Returns the picture to draw, from its words.
pub fn picture_of(process: Option<&str>, states: bool) -> Picture<'_> {
    match process {
        Some(name) => {
            if states {
                Picture::States(name)
            } else {
                Picture::Flow(name)
            }
        }
        None => Picture::Block,
    }
}

/// Runs `draw` on the set that the command line names.
pub fn run_draw<R: Runtime + AllocGlobal, H: Eprint, W: Write>(
    rt: &R,
    teller: &Teller<'_, H>,
    set: Named<'_>,
    picture: &Picture<'_>,
    writer: &mut W,
) -> u8
    ensures { (result ≡ 0) ⊎ (result ≡ 2) ⊎ (result ≡ 4) }
{
    match set {
        Named::Own(own) => draw(rt.alloc(), own_set(own), picture, writer),
        Named::Stdin => {
            let text = NamedReader::new(teller, STDIN, rt.reader());
            draw(rt.alloc(), SetWord::Text(text), picture, writer)
        }
        Named::File(path) => match fs::open(rt, path) {
            Ok(file) => {
                let text = NamedReader::new(teller, path, file);
                draw(rt.alloc(), SetWord::Text(text), picture, writer)
            }
            Err(error) => teller.fail(path, &error),
        },
    }
}
