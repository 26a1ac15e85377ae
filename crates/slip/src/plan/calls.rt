//! Questions of a plan.
ghost use Rattle.std.specs.Prelude.{◌≡◌, ◌≤◌, [], length, Decides};
ghost use Rattle.facts.specs.States.{nothing};
ghost use Rattle.facts.specs.Models.{row, job_of};
ghost use Rattle.lists.specs.Lists.{jobs_of};
ghost use Rattle.lists.specs.Models.{list_of};
ghost use Rattle.slip.specs.Plans.{plan_of, no_plan, job_names, jobs_name, footprint, Footprint};

use crate::plan::Plan;
use facts::{Job, State};
use filled::Filled;
use lists::{JobList, MAX_JOBS};

impl Plan {
    /// The plan of no jobs and empty states, over a table of no facts.
    pub fn empty() -> Plan
        ensures value { plan_of result ≡ no_plan }
    {
        Plan {
            list: no_list(),
            numbers: Filled::over([0; MAX_JOBS]),
        }
    }

    /// The number of facts of the table.
    pub fn count(&self) -> usize
        ensures value { result ≡ (plan_of self.now).facts }
    {
        self.list.count()
    }

    /// What holds before the first job.
    pub fn opening(&self) -> &State
        ensures value { row result.now ≡ (plan_of self.now).opening }
    {
        self.list.opening()
    }

    /// What holds after the last job.
    pub fn goal(&self) -> &State
        ensures value { row result.now ≡ (plan_of self.now).goal }
    {
        self.list.goal()
    }

    /// The jobs, in their order: at most 64.
    pub fn jobs(&self) -> &[Job]
        ensures value { jobs_of result.now ≡ (plan_of self.now).jobs }
        ensures bound { length result.now ≤ 64 }
    {
        self.list.jobs()
    }

    /// The jobs' numbers in the table.
    pub fn numbers(&self) -> &[u8]
        ensures value { result.now ≡ (plan_of self.now).numbers }
    {
        self.numbers.as_slice()
    }

    /// Whether the fact is in the footprint: the opening, the goal or a job names it.
    pub fn names(&self, fact: usize) -> bool
        ensures value { result ≡ footprint (plan_of self.now) fact }
        ensures means { Decides result (Footprint (plan_of self.now) fact) }
    {
        self.names_fact(fact)
    }

    fn names_fact(&self, fact: usize) -> bool
        ensures value { result ≡ footprint (plan_of self.now) fact }
    {
        self.opening().names(fact) || self.goal().names(fact) || any_names(self.jobs(), fact)
    }
}

/// The list of no jobs and empty states, over no facts.
fn no_list() -> JobList
    ensures value { list_of result ≡ record { facts = 0; opening = nothing; goal = nothing; jobs = [] } }
{
    let Ok(list) = JobList::new(0, State::empty(), State::empty()) else {
        unreachable()
    };
    list
}

/// Whether one of the jobs names the fact.
fn any_names(jobs: &[Job], fact: usize) -> bool
    ensures value { result ≡ jobs_name (jobs_of jobs.now) fact }
{
    jobs.iter().any(|job| job_names(job, fact))
}

/// Whether the job names the fact, in its precondition or its effect.
fn job_names(job: &Job, fact: usize) -> bool
    ensures value { result ≡ job_names (job_of job.now) fact }
{
    job.precondition.names(fact) || job.effect.names(fact)
}
