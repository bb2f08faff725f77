//! The effects of a transition besides those on its variables.

ghost use Rattle.std.specs.Prelude.{◌≡◌};

use crate::input::{Address, copied_values};
use crate::numbers::{SignalNumber, TimerNumber};
use crate::value::Value;
use arrayvec::ArrayVec;

/// One effect of a transition.
#[derive(Drop)]
pub enum Effect {
    /// A signal is sent.
    Output(Sending),
    /// A timer is set to the clock plus this many ticks.
    Set(TimerNumber, i32),
    /// A timer is stopped.
    Reset(TimerNumber),
}

/// A signal that is sent.
#[derive(Drop)]
pub struct Sending {
    /// The signal.
    pub signal: SignalNumber,
    /// The receiver; a process has no instance here if the transition names none.
    pub receiver: Address,
    /// Its parameters.
    pub parameters: ArrayVec<Value, 4>,
}

impl Effect {
    /// A copy of the effect. It allocates no memory.
    pub fn copy(&self) -> Effect
        ensures { result ≡ self.now }
    {
        match self {
            Effect::Output(sending) => Effect::Output(sending.copy()),
            Effect::Set(timer, delay) => Effect::Set(*timer, *delay),
            Effect::Reset(timer) => Effect::Reset(*timer),
        }
    }
}

impl Sending {
    /// A copy of the sending. It allocates no memory.
    fn copy(&self) -> Sending
        ensures { result ≡ self.now }
    {
        Sending {
            signal: self.signal,
            receiver: self.receiver,
            parameters: copied_values(&self.parameters),
        }
    }
}

impl Default for Effect {
    ghost use Rattle.turn_code.specs.declared.effect.Effect.TheVariants.{Reset};

    ghost is_default = { λ effect. effect ≡ Reset (record { 0 = 0 }) };

    fn default() -> Self {
        Effect::Reset(TimerNumber(0))
    }
}
