//! Worlds made, read and changed.
ghost use Rattle.std.specs.Prelude.{◌≡◌, true};
ghost use Rattle.facts.specs.States.{within};
ghost use Rattle.facts.specs.Worlds.{carried, set_facts, carry};
ghost use Rattle.facts.specs.Models.{row, job_of, size_of, seen, making_number, Made, Leaves};
ghost use Rattle.facts.specs.Words.{Sets, WhereOk};

use crate::job::Job;
use crate::reader::FactReader;
use crate::state::{MAX_FACTS, State};
use crate::world::{PastFault, World, WorldFault};
use filled::Filled;
use std::array;

impl WorldFault {
    /// The refusal's number. A method and no `From`, since its name says which number is asked for.
    pub fn number(&self) -> u8
        ensures value { result ≡ making_number self.now }
    {
        match self {
            WorldFault::TooManyFacts => 65,
        }
    }
}

impl World {
    /// The world of these facts, or a refusal where there are more than 256.
    pub fn new(facts: &[bool]) -> Result<World, WorldFault>
        ensures cases { Made facts.now result }
    {
        let facts = Filled::copied(facts, false).map_err(|_| WorldFault::TooManyFacts)?;
        Ok(World { facts })
    }

    /// Sets the facts of the state and no other. Refused, with nothing changed, where it names a fact past the number.
    pub fn set(&mut self, state: &State) -> Result<(), PastFault>
        ensures after { Leaves (set_facts (size_of self.old) (row state.now) (seen self.old)) (seen self.old) result (seen self.new) }
        ensures means { WhereOk result (Sets (row state.now) (seen self.old) (seen self.new)) }
        ensures size { size_of self.new ≡ size_of self.old }
    {
        if !state.within(self.count()) {
            return Err(PastFault::FactPast);
        }
        *self = self.after(state);
        Ok(())
    }

    /// Carries out the job: sets the facts of its effect and no other. Refused, with nothing changed, where the job
    /// names a fact past the number.
    pub fn carry(&mut self, job: &Job) -> Result<(), PastFault>
        ensures after { Leaves (carry (size_of self.old) (job_of job.now) (seen self.old)) (seen self.old) result (seen self.new) }
        ensures means { WhereOk result (Sets (job_of job.now).effect (seen self.old) (seen self.new)) }
        ensures size { size_of self.new ≡ size_of self.old }
    {
        if !job.precondition.within(self.count()) {
            return Err(PastFault::FactPast);
        }
        self.set(&job.effect)
    }

    /// The world with the facts of the state set, all of which it has.
    // Lists make their example world in the same way. One maker for both would take a closure, and so ask something of
    // its caller, which no public call does.
    fn after(&self, state: &State) -> World
        requires { within (size_of self.now) (row state.now) ≡ true }
        ensures size { size_of result ≡ size_of self.now }
        ensures facts { seen result ≡ carried (row state.now) (seen self.now) }
    {
        let facts: [bool; MAX_FACTS] = array::from_fn(|i| self.holds_after(state, i));
        let Ok(world) = World::new(&facts[..self.facts.len()]) else {
            unreachable()
        };
        world
    }

    /// Whether a fact holds once the state is set.
    fn holds_after(&self, state: &State, at: usize) -> bool
        ensures value { result ≡ carried (row state.now) (seen self.now) at }
    {
        state.mark(at).set(self.holds(at))
    }
}

impl FactReader for World {
    ghost size = { size_of };

    ghost fact = { seen };

    fn count(&self) -> usize {
        self.facts.len()
    }

    fn holds(&self, at: usize) -> bool {
        self.facts.as_slice().get(at).copied().unwrap_or(false)
    }
}
