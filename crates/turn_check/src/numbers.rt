//! Look-up of numbers by name.

ghost use Rattle.std.specs.Prelude.{◌≡◌, ◌↔◌, IsTrue, IfSome, IfNone, option_copied};
ghost use Rattle.turn_check.specs.Named.{process_names, signal_names, variable_names, timer_names, IsNamed, IsFirst, IsNowhere};

use crate::verified::Verified;
use turn_code::{Name, ProcessNumber, SignalNumber, TimerNumber, VariableNumber};

impl Verified {
    /// The number of the first process of this name; case is ignored.
    pub fn process_of(&self, name: &str) -> Option<ProcessNumber>
        ensures found { IfSome result (λ n. IsFirst (process_names self.now) n.0 name.now) }
        ensures none { IfNone result (IsNowhere (process_names self.now) name.now) }
    {
        let _ = self.draft();
        for number in 0..16u8 {
            if is_named(self.process_name(ProcessNumber(number)), name) {
                return Some(ProcessNumber(number));
            }
        }
        None
    }

    /// The number of the first signal of this name; case is ignored.
    pub fn signal_of(&self, name: &str) -> Option<SignalNumber>
        ensures found { IfSome result (λ n. IsFirst (signal_names self.now) n.0 name.now) }
        ensures none { IfNone result (IsNowhere (signal_names self.now) name.now) }
    {
        let _ = self.draft();
        for number in 0..128u8 {
            if is_named(self.signal_name(SignalNumber(number)), name) {
                return Some(SignalNumber(number));
            }
        }
        None
    }

    /// The number of the first variable of this name in a process; case is ignored.
    pub fn variable_of(&self, process: ProcessNumber, name: &str) -> Option<VariableNumber>
        ensures found { IfSome result (λ n. IsFirst (variable_names self.now process.0) n.0 name.now) }
        ensures none { IfNone result (IsNowhere (variable_names self.now process.0) name.now) }
    {
        let _ = self.draft();
        for number in 0..32u8 {
            if is_named(self.variable_name(process, VariableNumber(number)), name) {
                return Some(VariableNumber(number));
            }
        }
        None
    }

    /// The number of the first timer of this name in a process; case is ignored.
    pub fn timer_of(&self, process: ProcessNumber, name: &str) -> Option<TimerNumber>
        ensures found { IfSome result (λ n. IsFirst (timer_names self.now process.0) n.0 name.now) }
        ensures none { IfNone result (IsNowhere (timer_names self.now process.0) name.now) }
    {
        let _ = self.draft();
        for number in 0..8u8 {
            if is_named(self.timer_name(process, TimerNumber(number)), name) {
                return Some(TimerNumber(number));
            }
        }
        None
    }
}

/// Whether there is a name, and it is `name` if case is ignored.
fn is_named(found: Option<&Name>, name: &str) -> bool
    ensures { IsTrue result ↔ IsNamed (option_copied found.entry) name.now }
{
    match found {
        Some(found) => found.as_bytes().eq_ignore_ascii_case(name.as_bytes()),
        None => false,
    }
}
