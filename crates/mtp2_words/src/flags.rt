//! Options that are there or not.
ghost use Rattle.std.specs.Prelude.{◌≡◌, option_map};
ghost use Rattle.mtp2_words.specs.Words.{says_true, warned_of};

use crate::requests::Warned;

/// Whether an option without a word was entered, from the word that clap has for it.
pub(crate) fn is_given(word: Option<&str>) -> bool
    ensures { result ≡ says_true (option_map (λ w. w.now) word.entry) }
{
    match word {
        Some(word) => word == "true",
        None => false,
    }
}

/// What `check` does with warnings, by the words that clap has for `--warn` and `--warn-error`.
pub(crate) fn warned_of(warn: Option<&str>, error: Option<&str>) -> Warned
    ensures { result ≡ warned_of (option_map (λ w. w.now) warn.entry) (option_map (λ w. w.now) error.entry) }
{
    if is_given(error) {
        return Warned::Counted;
    }
    if is_given(warn) {
        Warned::Told
    } else {
        Warned::Unsaid
    }
}
