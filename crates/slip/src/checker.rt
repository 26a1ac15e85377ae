//! The check of a slip.
ghost use Rattle.std.specs.Prelude.{◌≡◌};
ghost use Rattle.facts.specs.Models.{mapped_ok};
ghost use Rattle.table.specs.Models.{table_of};
ghost use Rattle.verdict.specs.Verdicts.{judge};
ghost use Rattle.verdict.specs.Grammar.{AcceptsExactly};
ghost use Rattle.verdict.specs.Statements.{AcceptsGood};
ghost use Rattle.derivation.specs.Models.{barred};
ghost use Rattle.slip.specs.Plans.{plan_of};

use crate::plan::Plan;
use derivation::{Work, read_slip};
use table::Table;
use verdict::SlipFault;

/// The plan of a slip, or its one refusal. The slip is accepted exactly when its lines are those of an opening, a goal
/// and a derivation within the limits, and the six rules make that one of the opening and the goal. Some slip of an
/// opening, a goal and a list of jobs is accepted exactly when that list is good.
pub fn check(table: &Table, slip: &[u8], work: &mut Work) -> Result<Plan, SlipFault>
    ensures value { mapped_ok plan_of result ≡ judge (table_of table.now) slip.now }
    ensures bar { barred work.new ≡ barred work.old }
    ensures grammar { AcceptsExactly (table_of table.now) slip.now (mapped_ok plan_of result) }
    ensures good { AcceptsGood (table_of table.now) }
{
    accept(table, slip, work)
}

fn accept(table: &Table, slip: &[u8], work: &mut Work) -> Result<Plan, SlipFault>
    ensures value { mapped_ok plan_of result ≡ judge (table_of table.now) slip.now }
    ensures bar { barred work.new ≡ barred work.old }
{
    let draft = read_slip(table, slip, work)?;
    Ok(Plan::of(table, &draft))
}
