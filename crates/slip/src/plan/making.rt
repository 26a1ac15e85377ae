//! A plan made of what an accepted slip says.
ghost use Rattle.std.specs.Prelude.{◌≡◌};
ghost use Rattle.filled.specs.Items.{items_of};
ghost use Rattle.facts.specs.Models.{row};
ghost use Rattle.lists.specs.Models.{list_of};
ghost use Rattle.table.specs.Models.{table_of};
ghost use Rattle.verdict.specs.Statements.{PlanFacts};
ghost use Rattle.verdict.specs.Drafts.{draft_of};
ghost use Rattle.slip.specs.Plans.{draft_list, plan_of};

use crate::plan::Plan;
use derivation::Draft;
use lists::JobList;
use table::Table;

impl Plan {
    /// The plan of a draft that is good.
    pub(crate) fn of(table: &Table, draft: &Draft) -> Plan
        requires { PlanFacts (table_of table.now) (row draft.now.opening) (row draft.now.goal) (items_of draft.now.numbers) }
        ensures value { plan_of result ≡ draft_of (table_of table.now) draft.now }
    {
        Plan {
            list: list_of(table, draft),
            numbers: draft.numbers,
        }
    }
}

/// The list of the draft's states and jobs.
fn list_of(table: &Table, draft: &Draft) -> JobList
    requires { PlanFacts (table_of table.now) (row draft.now.opening) (row draft.now.goal) (items_of draft.now.numbers) }
    ensures value { list_of result ≡ draft_list (table_of table.now) draft.now }
{
    let Ok(mut list) = JobList::new(table.fact_count(), draft.opening, draft.goal) else {
        unreachable()
    };
    for number in draft.numbers.as_slice() {
        let Ok(()) = list.push(table.job(*number)) else {
            unreachable()
        };
    }
    list
}
