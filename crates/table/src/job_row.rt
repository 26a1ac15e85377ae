//! The row of a job.
ghost use Rattle.names.specs.Models.{spelling};

use facts::Job;
use names::{Name, Named};

/// A job and its name.
#[derive(Clone, Copy)]
pub struct JobRow {
    pub name: Name,
    pub job: Job,
}

// The line of a fact's row once more: the rows are two public types, and a trait cannot name the field that both have.
impl Named for JobRow {
    ghost title = { λ r. spelling r.name };

    fn name(&self) -> &[u8] {
        self.name.text()
    }
}
