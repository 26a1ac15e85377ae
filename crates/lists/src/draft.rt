//! What the text of a list or of a slip says of a list.
ghost use Rattle.std.specs.Prelude.{◌≤◌, length};
ghost use Rattle.filled.specs.Items.{items_of};

use crate::list::MAX_JOBS;
use facts::State;
use filled::Filled;

/// The opening, the goal, and the numbers of the jobs in the table.
#[derive(Clone, Copy)]
pub struct Draft {
    pub opening: State,
    pub goal: State,
    pub numbers: Filled<u8, MAX_JOBS>,
    ghost few: { length (items_of numbers) ≤ 64 },
}
