//! The table: its facts and its jobs.
ghost use Rattle.std.specs.Prelude.{◌≡◌, ◌≤◌, true, length};
ghost use Rattle.filled.specs.Items.{items_of};
ghost use Rattle.names.specs.Names.{proper_names};
ghost use Rattle.table.specs.Rows.{titles, rows_of, proper_jobs};

mod questions;
mod read;

use crate::fact_row::FactRow;
use crate::job_row::JobRow;
use facts::MAX_FACTS;
use filled::Filled;

/// The most jobs that a table has.
pub const MAX_TABLE_JOBS: usize = 128;

/// Facts, numbered in their order from 0, and jobs. The type keeps it true that names are well formed and distinct,
/// among the facts and among the jobs, and that the jobs name only facts of the table.
#[derive(Clone, Copy)]
pub struct Table {
    facts: Filled<FactRow, MAX_FACTS>,
    jobs: Filled<JobRow, MAX_TABLE_JOBS>,
    ghost few_facts: { length (items_of facts) ≤ 256 },
    ghost few_jobs: { length (items_of jobs) ≤ 128 },
    ghost named: { proper_names (titles (items_of facts)) ≡ true },
    ghost able: { proper_jobs (length (items_of facts)) (rows_of (items_of jobs)) ≡ true },
}
