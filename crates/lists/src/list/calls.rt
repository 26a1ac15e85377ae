//! Lists made, added to and asked.
ghost use Rattle.std.specs.Prelude.{◌≡◌, ◌<◌, ◌≤◌, true, length};
ghost use Rattle.filled.specs.Items.{items_of};
ghost use Rattle.facts.specs.Worlds.{job_within};
ghost use Rattle.facts.specs.Models.{row, job_of, mapped_ok, Leaves};
ghost use Rattle.lists.specs.Lists.{jobs_of};
ghost use Rattle.lists.specs.Models.{list_of, listed, more, with_job};

use crate::list::{JobList, ListFault, MAX_JOBS};
use facts::{Job, MAX_FACTS, State};
use filled::Filled;

impl JobList {
    /// The list of no jobs. Refused with more than 256 facts, then where a state names a fact not below `count`.
    pub fn new(count: usize, opening: State, goal: State) -> Result<JobList, ListFault>
        ensures value { mapped_ok list_of result ≡ listed count (row opening) (row goal) }
    {
        if count > MAX_FACTS {
            return Err(ListFault::TooManyFacts);
        }
        if !opening.within(count) || !goal.within(count) {
            return Err(ListFault::FactPast);
        }
        Ok(JobList {
            count,
            opening,
            goal,
            jobs: Filled::over([Job::empty(); MAX_JOBS]),
        })
    }

    /// One job more at the end. Refused, with nothing changed, after 64 jobs, then where the job names a fact not
    /// below the list's number.
    pub fn push(&mut self, job: Job) -> Result<(), ListFault>
        ensures after { Leaves (with_job (list_of self.old) (job_of job)) (list_of self.old) result (list_of self.new) }
    {
        if self.jobs.is_full() {
            return Err(ListFault::TooManyJobs);
        }
        if !job.within(self.count) {
            return Err(ListFault::FactPast);
        }
        self.store(job);
        Ok(())
    }

    /// The number of facts.
    pub fn count(&self) -> usize
        ensures value { result ≡ (list_of self.now).facts }
    {
        self.count
    }

    /// What holds before the first job.
    pub fn opening(&self) -> &State
        ensures value { row result.now ≡ (list_of self.now).opening }
    {
        &self.opening
    }

    /// What should hold after the last job.
    pub fn goal(&self) -> &State
        ensures value { row result.now ≡ (list_of self.now).goal }
    {
        &self.goal
    }

    /// The jobs, in their order.
    pub fn jobs(&self) -> &[Job]
        ensures value { jobs_of result.now ≡ (list_of self.now).jobs }
        ensures bound { length result.now ≤ 64 }
    {
        self.jobs.as_slice()
    }

    /// The job at the end, where there is room for it and it fits.
    fn store(&mut self, job: Job)
        requires room { length (items_of self.old.jobs) < 64 }
        requires inside { job_within self.old.count (job_of job) ≡ true }
        ensures after { list_of self.new ≡ more (list_of self.old) (job_of job) }
    {
        let Ok(()) = self.jobs.push(job) else {
            unreachable()
        };
    }
}
