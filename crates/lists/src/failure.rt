//! The first job of a list that fails, else the goal, and a world in which it does.
ghost use Rattle.std.specs.Prelude.{◌≡◌, ◌<◌, None};
ghost use Rattle.facts.specs.Models.{row, size_of, seen};
ghost use Rattle.facts.specs.Words.{Exactly};
ghost use Rattle.lists.specs.Failures.{lacking, lack, example, failure_of, failure_number};
ghost use Rattle.lists.specs.Models.{list_of, verdict_on, GoodList, SaysOf, Shown};

use crate::list::JobList;
use facts::{Job, MAX_FACTS, Mark, State, World};
use std::array;

/// What fails first: a job, by its place from 1, or the goal.
#[derive(Clone, Copy, PartialEq, Eq, Debug)]
pub enum Failure {
    Job(usize),
    Goal,
}

/// What a list lacks: what fails first, the fact of its literal that fails, and whether that fact holds in the world to
/// show.
#[derive(Clone, Copy, PartialEq, Eq, Debug)]
pub(crate) struct Lack {
    pub(crate) failure: Failure,
    pub(crate) fact: usize,
    pub(crate) holds: bool,
}

impl Failure {
    /// The refusal's number. A method and no `From`, since its name says which number is asked for.
    pub fn number(&self) -> u8
        ensures value { result ≡ failure_number self.now }
    {
        match self {
            Failure::Job(_) => 30,
            Failure::Goal => 31,
        }
    }
}

/// The first job that fails in some world meeting the opening, else the goal if it does, else nothing: the list is
/// good. On a failure `example` becomes the world to show for it; otherwise it keeps what it held.
pub fn first_failure(list: &JobList, example: &mut World) -> Option<Failure>
    ensures value { result ≡ failure_of (verdict_on (list_of list.now)) }
    ensures after { Shown (list_of list.now) (verdict_on (list_of list.now)) example.old example.new }
    ensures good { Exactly (result ≡ None) (GoodList (list_of list.now)) }
    ensures fails { SaysOf (list_of list.now) (seen example.new) result }
{
    match judge(list) {
        Ok(()) => None,
        Err(lack) => {
            *example = shown(list, &lack);
            Some(lack.failure)
        }
    }
}

/// The precondition of each job in turn, and then the goal: the effects before it have to leave a state that covers it.
#[tactic(auto, using(crate::proofs::Turns::turned))]
fn judge(list: &JobList) -> Result<(), Lack>
    ensures value { result ≡ verdict_on (list_of list.now) }
{
    let mut state = list.opening;
    // `enumerate` and one more: over a `zip` with the places from 1 the proof did not close.
    for (before, job) in list.jobs.as_slice().iter().enumerate() {
        cover(&state, &job.precondition, Failure::Job(before + 1))?;
        state = state.overridden(&job.effect);
    }
    cover(&state, &list.goal, Failure::Goal)
}

/// The state has to cover what is wanted; else that is what fails.
fn cover(state: &State, wanted: &State, failure: Failure) -> Result<(), Lack>
    ensures value { result ≡ lack failure (row wanted.now) (lacking (row state.now) (row wanted.now)) }
{
    match state.missing(wanted).lowest() {
        None => Ok(()),
        Some(fact) => Err(Lack {
            failure,
            fact,
            holds: wanted.mark(fact) == Mark::Fails,
        }),
    }
}

/// The world to show: as the opening names it, else the fact at fault as the lack has it, and no other fact holding.
// Worlds are changed in the same way; one maker for both would ask of its caller that a closure can be called.
fn shown(list: &JobList, lack: &Lack) -> World
    requires { lack.now.fact < (list_of list.now).facts }
    ensures size { size_of result ≡ (list_of list.now).facts }
    ensures facts { seen result ≡ example (list_of list.now).opening lack.now.fact lack.now.holds }
{
    let facts: [bool; MAX_FACTS] = array::from_fn(|fact| holds_there(&list.opening, lack, fact));
    let Ok(world) = World::new(&facts[..list.count]) else {
        unreachable()
    };
    world
}

/// Whether the fact holds in the world to show.
fn holds_there(opening: &State, lack: &Lack, fact: usize) -> bool
    ensures value { result ≡ example (row opening.now) lack.now.fact lack.now.holds fact }
{
    opening.mark(fact).set(fact == lack.fact && lack.holds)
}
