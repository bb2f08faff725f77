//! Jobs that have run.

ghost use Rattle.std.specs.Prelude.{◌≡◌, ◌≤◌, length, option_map, ⊤};
ghost use Rattle.turn_code.specs.Outcome.{Outcome};
ghost use Rattle.turn_machine.specs.Turn.{outcome_of};

use crate::copy::copied_effects;
use crate::ending::{new_machine, run_code};
use crate::job::Job;
use arrayvec::ArrayVec;
use std::alloc::AllocError;
use std::marker::Model;
use turn_code::laws::safe_law;
use turn_code::{Effect, End, Machine, Value, copied_variables};

/// A job that has run, with its outcome: that of its own code on its own input.
#[derive(Drop)]
pub struct Done {
    job: Job,
    end: End,
    variables: ArrayVec<Option<Value>, 32>,
    effects: ArrayVec<Effect, 32>,
    count: u32,
}

impl Model for Done {
    ghost use Rattle.turn_machine.specs.Turn.{Turn, IsOutcome};

    ghost Value = { Turn };

    ghost view = { λ d. d.job };

    ghost invariant = { λ d. IsOutcome d.job d.end d.variables.items d.effects.items d.count };
}

/// Runs a job to its end. It allocates no memory and never fails.
pub fn run(job: Job) -> Done
    ensures { result ≡ job }
{
    safe_law();
    let mut machine = new_machine();
    let end = run_code(
        job.code(),
        job.input(),
        job.sorts(),
        job.certificate(),
        &mut machine,
    );
    let Machine {
        operands: _,
        variables,
        effects,
        count,
    } = machine;
    Done {
        job,
        end,
        variables,
        effects,
        count,
    }
}

impl Done {
    /// The job that ran.
    pub fn job(&self) -> &Job
        ensures { result.now ≡ self.now }
    {
        &self.job
    }

    /// The end of the transition.
    pub fn end(&self) -> End
        ensures { option_map (λ (o : Outcome). o.end) (outcome_of self.now) ≡ Some result }
    {
        self.end
    }

    /// The variables at the end.
    pub fn variables(&self) -> &[Option<Value>]
        ensures { option_map (λ (o : Outcome). o.progress.variables) (outcome_of self.now) ≡ Some result.now }
    {
        self.variables.as_slice()
    }

    /// The effects in order, at most as many as the certificate says.
    pub fn effects(&self) -> &[Effect]
        ensures within { length result.now ≤ self.now.certificate.effects }
        ensures value { option_map (λ (o : Outcome). o.progress.effects) (outcome_of self.now) ≡ Some result.now }
    {
        self.effects.as_slice()
    }

    /// The number of instructions that it took, at most the budget of its certificate.
    pub fn count(&self) -> u32
        ensures value { option_map (λ (o : Outcome). o.progress.count) (outcome_of self.now) ≡ Some result }
        ensures within { result ≤ self.now.certificate.budget }
    {
        self.count
    }

    /// A copy. It allocates no memory.
    pub fn copy(&self) -> Done
        ensures { result ≡ self.now }
    {
        Done {
            job: self.job.copy(),
            end: self.end,
            variables: copied_variables(&self.variables),
            effects: copied_effects(&self.effects),
            count: self.count,
        }
    }
}

impl Clone for Done {
    ghost is_clone = { λ x y. y ≡ x };

    ghost is_infallible = { λ _. ⊤ };

    fn clone(&self) -> Result<Done, AllocError> {
        Ok(self.copy())
    }
}
