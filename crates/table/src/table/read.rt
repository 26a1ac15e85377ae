//! A table read from its text, line by line.
ghost use Rattle.std.specs.Prelude.{◌≡◌, ◌<◌, ◌≤◌, true, false, [], map, length, is_some, IfOk, slice_index_or};
ghost use Rattle.filled.specs.Items.{items_of};
ghost use Rattle.facts.specs.Worlds.{job_within};
ghost use Rattle.facts.specs.Models.{job_of, mapped_ok};
ghost use Rattle.text.specs.Lines.{fields};
ghost use Rattle.text.specs.Chains.{Kept};
ghost use Rattle.names.specs.Models.{spelling};
ghost use Rattle.table.specs.Rows.{NewTo, row_of, titles, job_names};
ghost use Rattle.table.specs.Tables.{no_rows, with_fact, with_job, place, new_name, job_states, fact_line, job_line, table_line, read_table};
ghost use Rattle.table.specs.Grammar.{ReadExactly};
ghost use Rattle.table.specs.Models.{table_of};

use crate::fact_row::FactRow;
use crate::fault::TableFault;
use crate::job_row::JobRow;
use crate::table::{MAX_TABLE_JOBS, Table};
use facts::{Job, MAX_FACTS};
use filled::Filled;
use names::{Name, Named, find, read_state};
use text::{Line, Numbered, Tag};

impl Table {
    /// The table in a text, or the first fault.
    pub fn read(text: &[u8]) -> Result<Table, TableFault>
        ensures value { mapped_ok table_of result ≡ read_table text.now }
        ensures grammar { ReadExactly text.now (mapped_ok table_of result) }
    {
        Table::parse(text)
    }

    /// The rows of the text's lines in turn.
    fn parse(text: &[u8]) -> Result<Table, TableFault>
        ensures value { mapped_ok table_of result ≡ read_table text.now }
    {
        let lines = Numbered::of(text)?;
        let mut table = Table::empty();
        for line in lines {
            table.add_line(&line)?;
        }
        Ok(table)
    }

    /// The table of no rows.
    fn empty() -> Table
        ensures value { table_of result ≡ no_rows }
    {
        let fact = FactRow {
            name: Name::empty(),
        };
        let job = JobRow {
            name: Name::empty(),
            job: Job::empty(),
        };
        Table {
            facts: Filled::over([fact; MAX_FACTS]),
            jobs: Filled::over([job; MAX_TABLE_JOBS]),
        }
    }

    /// The row of one line added, or its fault.
    fn add_line(&mut self, line: &Line) -> Result<(), TableFault>
        ensures after { Kept result (table_line (table_of self.old) line.now.number line.now.text.now) (table_of self.new) }
    {
        match line.tag() {
            Some(Tag::N) => self.add_fact(line),
            Some(Tag::D) => self.add_job(line),
            _ => Err(TableFault::WrongTag(line.number)),
        }
    }

    fn add_fact(&mut self, line: &Line) -> Result<(), TableFault>
        ensures after { Kept result (fact_line (table_of self.old) line.now.number (fields line.now.text.now)) (table_of self.new) }
    {
        if !self.jobs().is_empty() {
            return Err(TableFault::OutOfOrder(line.number));
        }
        if line.field_count() != 2 {
            return Err(TableFault::WrongFields(line.number));
        }
        if self.facts.is_full() {
            return Err(TableFault::TooManyLines(line.number));
        }
        let name = new_name(self.facts(), line)?;
        self.store_fact(FactRow { name });
        Ok(())
    }

    fn add_job(&mut self, line: &Line) -> Result<(), TableFault>
        ensures after { Kept result (job_line (table_of self.old) line.now.number (fields line.now.text.now)) (table_of self.new) }
    {
        if line.field_count() != 4 {
            return Err(TableFault::WrongFields(line.number));
        }
        if self.jobs.is_full() {
            return Err(TableFault::TooManyLines(line.number));
        }
        let name = new_name(self.jobs(), line)?;
        let job = read_job(self.facts(), line)?;
        self.store_job(JobRow { name, job });
        Ok(())
    }

    /// A fact at the end, where there is room for it and its name is new.
    fn store_fact(&mut self, row: FactRow)
        requires room { length (items_of self.old.facts) < 256 }
        requires first { items_of self.old.jobs ≡ [] }
        requires new { NewTo (spelling row.name) (table_of self.old).facts }
        ensures after { table_of self.new ≡ with_fact (table_of self.old) (spelling row.name) }
    {
        let Ok(()) = self.facts.push(row) else {
            unreachable()
        };
    }

    /// A job at the end, where there is room for it, its name is new, and it names facts of the table.
    fn store_job(&mut self, row: JobRow)
        requires room { length (items_of self.old.jobs) < 128 }
        requires new { NewTo (spelling row.name) (job_names (table_of self.old).jobs) }
        requires within { job_within (length (items_of self.old.facts)) (row_of row).job ≡ true }
        ensures after { table_of self.new ≡ with_job (table_of self.old) (row_of row) }
    {
        let Ok(()) = self.jobs.push(row) else {
            unreachable()
        };
    }
}

/// The name in the second field, which none of the rows has.
fn new_name<R: Named>(rows: &[R], line: &Line) -> Result<Name, TableFault>
    ensures value { mapped_ok spelling result ≡ new_name (map R.Named.title rows.now) (slice_index_or (fields line.now.text.now) 1 []) (place line.now.number 2) }
    ensures new { IfOk result (λ n. NewTo (spelling n) (map R.Named.title rows.now)) }
{
    let place = line.place(1);
    let name = Name::read(line.field(1), place)?;
    if find(rows, name.text()).is_some() {
        return Err(TableFault::NameUsed(place));
    }
    Ok(name)
}

/// The precondition and the effect in the third and the fourth field.
fn read_job(facts: &[FactRow], line: &Line) -> Result<Job, TableFault>
    ensures value { mapped_ok job_of result ≡ job_states (titles facts.now) line.now.number (fields line.now.text.now) }
    ensures within { IfOk result (λ j. job_within (length facts.now) (job_of j) ≡ true) }
{
    let precondition = read_state(line.field(2), facts, line.place(2))?;
    let effect = read_state(line.field(3), facts, line.place(3))?;
    Ok(Job {
        precondition,
        effect,
    })
}
