//! The jobs that a slip names.
ghost use Rattle.std.specs.Prelude.{◌≡◌, [], slice_index_or};
ghost use Rattle.facts.specs.Models.{job_of};
ghost use Rattle.text.specs.Lines.{fields};
ghost use Rattle.table.specs.Models.{table_of};
ghost use Rattle.verdict.specs.Verdicts.{applied, apply};
ghost use Rattle.derivation.specs.Models.{bar_of};
ghost use Rattle.derivation.specs.Readers.{ends_of, cursor_of, Says};

use crate::bar::Bar;
use crate::ends::Ends;
use crate::reader::Reader;
use facts::Job;
use table::Table;
use text::Line;
use verdict::SlipFault;

impl Reader<'_> {
    /// The job of an A line, and its ends.
    pub(crate) fn apply(&mut self, table: &Table, line: &Line, bar: &Bar) -> Result<Ends, SlipFault>
        ensures reads { Says ends_of result (cursor_of self.new) (apply (table_of table.now) (bar_of bar.now) line.now.number (slice_index_or (fields line.now.text.now) 1 []) (cursor_of self.old)) }
    {
        if self.jobs.is_full() {
            return Err(SlipFault::TooManyJobs(line.number));
        }
        let number = table.job_number(line.field(1), line.place(1))?;
        let job = table.job(number);
        if bar.bars(&job.effect) {
            return Err(SlipFault::EffectBarred(line.number));
        }
        self.push(number);
        Ok(applied(&job))
    }
}

/// From the precondition to that overridden by the effect.
fn applied(job: &Job) -> Ends
    ensures value { ends_of result ≡ applied (job_of job.now) }
{
    Ends {
        opening: job.precondition,
        end: job.precondition.overridden(&job.effect),
    }
}
