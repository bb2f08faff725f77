//! The first lines of a book script.
ghost use Rattle.std.specs.Prelude.{◌≡◌, ◌≤◌, map, drop, length};
ghost use Rattle.script_lines.specs.Lines.{texts, plain_line};
ghost use Rattle.script_lines.specs.Scripts.{setting_at, setting_of, set, defaults, after_head};

use crate::lines::Line;
use crate::numbers::count;

/// A number that a first line sets.
#[derive(Clone, Copy, PartialEq, Eq, Debug)]
pub enum Setting {
    /// How many signals a port holds, 1 to 64.
    Ports(u32),
    /// How many signals for the environment are kept, 1 to 1,024.
    Env(u32),
    /// How many events the journal holds, 16 to 65,536.
    Journal(u32),
}

/// The numbers that the first lines of a script set.
#[derive(Clone, Copy, PartialEq, Eq, Debug)]
pub struct Settings {
    /// How many signals a port holds, 1 to 64; 16 by default.
    pub ports: u32,
    /// How many signals for the environment are kept, 1 to 1,024; 64 by default.
    pub env: u32,
    /// How many events the journal holds, 16 to 65,536; 4,096 by default.
    pub journal: u32,
}

impl Settings {
    /// The numbers that hold if no line sets them.
    pub const DEFAULT: Settings = Settings {
        ports: 16,
        env: 64,
        journal: 4096,
    };

    /// These settings with one number set.
    fn with(self, setting: Setting) -> Settings
        ensures { result ≡ set setting self }
    {
        match setting {
            Setting::Ports(ports) => Settings { ports, ..self },
            Setting::Env(env) => Settings { env, ..self },
            Setting::Journal(journal) => Settings { journal, ..self },
        }
    }
}

/// The setting of a word and a number, if the number is in its range.
fn setting_at(word: &str, number: u32) -> Option<Setting>
    ensures { result ≡ setting_at word.now number }
{
    match word {
        "ports" if 1 <= number && number <= 64 => Some(Setting::Ports(number)),
        "env" if 1 <= number && number <= 1024 => Some(Setting::Env(number)),
        "journal" if 16 <= number && number <= 65536 => Some(Setting::Journal(number)),
        _ => None,
    }
}

/// The setting that the words of a line make, if they make one.
pub fn setting_in(words: &[&str]) -> Option<Setting>
    ensures { result ≡ setting_of (texts words.now) }
{
    match words {
        [word, number] => match count(number) {
            Some(number) => setting_at(word, number),
            None => None,
        },
        _ => None,
    }
}

/// The numbers that the first lines set, and how many first lines there are.
pub fn head_of(lines: &[Line<'_>]) -> (Settings, usize)
    ensures head { after_head defaults (map plain_line lines.now) ≡ (result.0, drop result.1 (map plain_line lines.now)) }
    ensures within { result.1 ≤ length lines.now }
{
    let mut settings = Settings::DEFAULT;
    for (index, line) in lines.iter().enumerate() {
        match setting_in(&line.words) {
            Some(setting) => settings = settings.with(setting),
            None => return (settings, index),
        }
    }
    (settings, lines.len())
}
