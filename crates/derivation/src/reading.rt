//! A slip read from its first line to its last.
ghost use Rattle.std.specs.Prelude.{◌≡◌};
ghost use Rattle.facts.specs.Models.{row, mapped_ok};
ghost use Rattle.table.specs.Models.{table_of};
ghost use Rattle.verdict.specs.Verdicts.{agree, judge, judge_under};
ghost use Rattle.derivation.specs.Models.{bar_of, barred};
ghost use Rattle.derivation.specs.Readers.{ends_of};
ghost use Rattle.verdict.specs.Drafts.{draft_of};

use crate::area::Work;
use crate::bar::Bar;
use crate::ends::Ends;
use crate::reader::Reader;
use crate::reader::derivations::Derivations;
use facts::State;
use lists::Draft;
use table::Table;
use verdict::{Header, SlipFault};

/// What the slip says, or its one refusal: its lines are those of an opening, a goal and a derivation, and the six rules
/// make that one of the opening and the goal.
pub fn read_slip(table: &Table, slip: &[u8], work: &mut Work) -> Result<Draft, SlipFault>
    ensures value { mapped_ok (draft_of (table_of table.now)) result ≡ judge (table_of table.now) slip.now }
    ensures bar { barred work.new ≡ barred work.old }
{
    read_under(table, slip, &mut work.bar)
}

/// The same, with these facts barred from the start.
fn read_under(table: &Table, slip: &[u8], bar: &mut Bar) -> Result<Draft, SlipFault>
    ensures value { mapped_ok (draft_of (table_of table.now)) result ≡ judge_under (table_of table.now) (bar_of bar.old) slip.now }
    ensures bar { bar.new ≡ bar.old }
{
    let mut reader = Reader::of(slip)?;
    let opening = reader.header(table, Header::Opening)?;
    let goal = reader.header(table, Header::Goal)?;
    let ends = Derivations::whole(table, &mut reader, bar)?;
    reader.finish()?;
    agree(&opening, &goal, &ends)?;
    Ok(reader.draft(opening, goal))
}

/// The derivation's ends are the opening and the goal.
fn agree(opening: &State, goal: &State, ends: &Ends) -> Result<(), SlipFault>
    ensures value { result ≡ agree (row opening.now) (row goal.now) (ends_of ends.now) }
{
    if !ends.opening.same(opening) {
        return Err(SlipFault::OpeningDiffers);
    }
    if !ends.end.same(goal) {
        return Err(SlipFault::EndDiffers);
    }
    Ok(())
}
