//! Questions of a table.
ghost use Rattle.std.specs.Prelude.{◌≡◌, ◌<◌, length, IfOk};
ghost use Rattle.facts.specs.Models.{job_of};
ghost use Rattle.names.specs.Names.{found_at, FirstOf};
ghost use Rattle.table.specs.Rows.{titles, job_titles, rows_of, job_names};
ghost use Rattle.table.specs.Jobs.{job_number, job_at};
ghost use Rattle.table.specs.Models.{table_of};

use crate::fact_row::FactRow;
use crate::job_row::JobRow;
use crate::table::Table;
use facts::Job;
use names::{Name, find};
use text::{Place, TextFault};

impl Table {
    /// The number of facts.
    pub fn fact_count(&self) -> usize
        ensures value { result ≡ length (table_of self.now).facts }
    {
        self.facts.len()
    }

    /// The number of jobs.
    pub fn job_count(&self) -> usize
        ensures value { result ≡ length (table_of self.now).jobs }
    {
        self.jobs.len()
    }

    /// The facts, in the order of their numbers.
    pub fn facts(&self) -> &[FactRow]
        ensures value { titles result.now ≡ (table_of self.now).facts }
        ensures len { length result.now ≡ length (table_of self.now).facts }
    {
        self.facts.as_slice()
    }

    /// The jobs, in the order of their lines.
    pub fn jobs(&self) -> &[JobRow]
        ensures value { rows_of result.now ≡ (table_of self.now).jobs }
        ensures names { job_titles result.now ≡ job_names (table_of self.now).jobs }
    {
        self.jobs.as_slice()
    }

    /// The number of the fact of this name.
    pub fn find_fact(&self, name: &[u8]) -> Option<usize>
        ensures value { result ≡ found_at name.now (table_of self.now).facts }
        ensures means { FirstOf (table_of self.now).facts name.now result }
    {
        find(self.facts(), name)
    }

    /// The place of the job of this name, from 0.
    pub fn find_job(&self, name: &[u8]) -> Option<usize>
        ensures value { result ≡ found_at name.now (job_names (table_of self.now).jobs) }
        ensures means { FirstOf (job_names (table_of self.now).jobs) name.now result }
    {
        find(self.jobs(), name)
    }

    /// The number of the job that a field names, from 0, or a refusal.
    pub fn job_number(&self, field: &[u8], at: Place) -> Result<u8, TextFault>
        ensures value { result ≡ job_number (table_of self.now) field.now at }
        ensures bound { IfOk result (λ k. k < length (table_of self.now).jobs) }
    {
        let name = Name::read(field, at)?;
        let number = self
            .find_job(name.text())
            .ok_or(TextFault::UnknownName(at))?;
        // A table has at most 128 jobs: the proof says that the number fits, and no refusal is needed.
        Ok(number as u8)
    }

    /// The job of this number, from 0; past the last, one of empty states.
    pub fn job(&self, number: u8) -> Job
        ensures value { job_of result ≡ job_at (table_of self.now) number }
    {
        let row = self.jobs.as_slice().get(usize::from(number));
        row.map_or_else(Job::empty, |row| row.job)
    }
}
