//! Texts, and functions that read them.
use sdl_ast::Block;
use sdl_lex::tokens;
use sdl_tree::parse;
use std::alloc::Global;

/// A process that adds each Up(Integer) to a total.
pub const COUNTER: &str = "BLOCK B; SIGNAL Up(Integer);
SIGNALROUTE r FROM ENV TO P WITH Up;
PROCESS P (1,1); DCL n, total Integer;
START; TASK total := 0; NEXTSTATE Run;
STATE Run; INPUT Up(n); TASK total := total + n; NEXTSTATE Run;
ENDSTATE Run; ENDPROCESS P; ENDBLOCK B;
";

/// The tree of a text, if it has one.
pub fn read(alloc: Global, text: &str) -> Option<Block> {
    let found = tokens(alloc, text).ok()?;
    parse(alloc, found.as_slice()).ok()
}
