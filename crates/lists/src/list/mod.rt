//! Lists of jobs, each with the opening that it starts from and the goal that it should reach.
ghost use Rattle.std.specs.Prelude.{◌≡◌, ◌≤◌, true, length};
ghost use Rattle.filled.specs.Items.{items_of};
ghost use Rattle.facts.specs.Models.{row};
ghost use Rattle.lists.specs.Lists.{fits, jobs_of};

mod calls;

use facts::{Job, State};
use filled::Filled;

/// The most jobs that a list has.
pub const MAX_JOBS: usize = 64;

/// An opening (what holds before the first job), a goal, and up to 64 jobs, over the facts below `count`: the type
/// keeps it true that they name no other fact.
#[derive(Clone, Copy)]
pub struct JobList {
    pub(crate) count: usize,
    pub(crate) opening: State,
    pub(crate) goal: State,
    pub(crate) jobs: Filled<Job, MAX_JOBS>,
    ghost few: { count ≤ 256 },
    ghost short: { length (items_of jobs) ≤ 64 },
    ghost inside: { fits count (row opening) (row goal) (jobs_of (items_of jobs)) ≡ true },
}

/// Why a list was not made, or a job not added to it.
#[derive(Clone, Copy, PartialEq, Eq, Debug)]
pub enum ListFault {
    TooManyFacts,
    FactPast,
    TooManyJobs,
}
