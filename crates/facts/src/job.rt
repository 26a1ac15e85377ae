//! Jobs.
ghost use Rattle.std.specs.Prelude.{◌≡◌};
ghost use Rattle.facts.specs.States.{nothing};
ghost use Rattle.facts.specs.Worlds.{job_within};
ghost use Rattle.facts.specs.Models.{job_of};

use crate::state::State;

/// What must be met before a job is carried out, and what it sets.
#[derive(Clone, Copy, PartialEq, Eq, Debug)]
pub struct Job {
    pub precondition: State,
    pub effect: State,
}

impl Job {
    /// The job that needs nothing and sets nothing.
    pub fn empty() -> Job
        ensures value { job_of result ≡ record { precondition = nothing; effect = nothing } }
    {
        Job {
            precondition: State::empty(),
            effect: State::empty(),
        }
    }

    /// Whether the job names only facts below `count`.
    pub fn within(&self, count: usize) -> bool
        ensures value { result ≡ job_within count (job_of self.now) }
    {
        self.precondition.within(count) && self.effect.within(count)
    }
}
