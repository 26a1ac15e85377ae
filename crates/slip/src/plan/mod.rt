//! Accepted plans.
ghost use Rattle.std.specs.Prelude.{◌≡◌, length};
ghost use Rattle.filled.specs.Items.{items_of};
ghost use Rattle.lists.specs.Models.{list_of, GoodList};

mod calls;
mod making;

use filled::Filled;
use lists::{JobList, MAX_JOBS};

/// An accepted plan: a good list, and the numbers of its jobs in the table that it was checked against. The type keeps
/// it true that the list is good, and that each job has a number. Only a check makes one, and `empty`.
///
/// Two rows side by side, since `jobs` and `numbers` each answer a slice: a row of pairs would have to be taken apart.
#[derive(Clone, Copy)]
pub struct Plan {
    list: JobList,
    numbers: Filled<u8, MAX_JOBS>,
    ghost paired: { length (items_of numbers) ≡ length (list_of list).jobs },
    ghost good: { ∥ GoodList (list_of list) ∥₁ },
}
