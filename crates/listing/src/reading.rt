//! A list read from its text, line by line.
ghost use Rattle.std.specs.Prelude.{◌≡◌, ◌≤◌, [], length, IfOk};
ghost use Rattle.filled.specs.Items.{items_of};
ghost use Rattle.facts.specs.Models.{mapped_ok};
ghost use Rattle.text.specs.Chains.{Kept};
ghost use Rattle.text.specs.Lines.{lines};
ghost use Rattle.table.specs.Models.{table_of};
ghost use Rattle.verdict.specs.Drafts.{draft_of};
ghost use Rattle.listing.specs.Grammar.{ListsExactly};
ghost use Rattle.listing.specs.Listings.{TookState, job_line, job_lines, read_listing};

use crate::fault::ListingFault;
use crate::part::{Part, expect};
use facts::State;
use filled::Filled;
use lists::{Draft, MAX_JOBS};
use names::read_state;
use table::Table;
use text::{Line, Numbered};

/// What the text of a list says, or the first fault. A list is read exactly when its text is a B line, a G line, and then 0
/// to 64 E lines, with states spelt over the table's facts and the names of its jobs.
pub fn read_list(table: &Table, text: &[u8]) -> Result<Draft, ListingFault>
    ensures value { mapped_ok (draft_of (table_of table.now)) result ≡ read_listing (table_of table.now) text.now }
    ensures grammar { ListsExactly (table_of table.now) text.now (mapped_ok (draft_of (table_of table.now)) result) }
{
    parse(table, text)
}

/// The two states, and then the jobs.
fn parse(table: &Table, text: &[u8]) -> Result<Draft, ListingFault>
    ensures value { mapped_ok (draft_of (table_of table.now)) result ≡ read_listing (table_of table.now) text.now }
{
    let mut lines = Numbered::of(text)?;
    let opening = next_state(table, Part::Opening, &mut lines)?;
    let goal = next_state(table, Part::Goal, &mut lines)?;
    let numbers = read_jobs(table, lines)?;
    Ok(Draft {
        opening,
        goal,
        numbers,
    })
}

/// The state of the next line, which has to be of the wanted part.
fn next_state(table: &Table, wanted: Part, lines: &mut Numbered) -> Result<State, ListingFault>
    ensures reads { TookState (table_of table.now) wanted lines.old result lines.new }
{
    let at = lines.next_number();
    let line = lines.next().ok_or(ListingFault::Missing(at))?;
    expect(wanted, &line)?;
    Ok(read_state(line.field(1), table.facts(), line.place(1))?)
}

/// The numbers of the jobs of the E lines that are left.
fn read_jobs(table: &Table, left: Numbered) -> Result<Filled<u8, MAX_JOBS>, ListingFault>
    ensures value { mapped_ok items_of result ≡ job_lines (table_of table.now) [] left.entry.number (lines left.entry.rest) }
    ensures few { IfOk result (λ f. length (items_of f) ≤ 64) }
{
    let mut numbers = Filled::over([0; MAX_JOBS]);
    for line in left {
        add_job(table, &line, &mut numbers)?;
    }
    Ok(numbers)
}

/// The job of one line added, or its fault.
fn add_job(
    table: &Table,
    line: &Line,
    numbers: &mut Filled<u8, MAX_JOBS>,
) -> Result<(), ListingFault>
    ensures after { Kept result (job_line (table_of table.now) (items_of numbers.old) line.now.number line.now.text.now) (items_of numbers.new) }
    ensures few { length (items_of numbers.old) ≤ 64 → length (items_of numbers.new) ≤ 64 }
{
    expect(Part::Job, line)?;
    if numbers.is_full() {
        return Err(ListingFault::TooManyJobs(line.number));
    }
    let number = table.job_number(line.field(1), line.place(1))?;
    let Ok(()) = numbers.push(number) else {
        unreachable()
    };
    Ok(())
}
