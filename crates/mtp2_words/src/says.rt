//! The meaning of single words.
ghost use Rattle.std.specs.Prelude.{◌≡◌, ◌↔◌, IsTrue};
ghost use Rattle.mtp2_words.specs.Words.{workers_of, AreStdin};

use script_links::count;

/// Whether two words both name standard input.
pub(crate) fn are_stdin(set: &str, script: &str) -> bool
    ensures { IsTrue result ↔ AreStdin set.now script.now }
{
    set == "stdin" && script == "stdin"
}

/// The number of workers that a word states: digits without a sign, 1 to 16.
pub(crate) fn workers_of(word: &str) -> Option<usize>
    ensures { result ≡ workers_of word.now }
{
    match count(word) {
        Some(workers) if 1 <= workers && workers <= 16 => Some(workers as usize),
        _ => None,
    }
}
