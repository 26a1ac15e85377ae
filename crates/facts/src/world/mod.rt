//! Worlds: which facts hold.
ghost use Rattle.std.specs.Prelude.{◌≤◌, length};
ghost use Rattle.filled.specs.Items.{items_of};

mod calls;

use crate::state::MAX_FACTS;
use filled::Filled;

/// Up to 256 facts, each holding or not; none past them holds.
#[derive(Clone, Copy)]
pub struct World {
    facts: Filled<bool, MAX_FACTS>,
    ghost few: { length (items_of facts) ≤ 256 },
}

/// Why a world was not made.
#[derive(Clone, Copy, PartialEq, Eq, Debug)]
pub enum WorldFault {
    TooManyFacts,
}

/// Why a world was not changed: a fact past its number was named.
#[derive(Clone, Copy, PartialEq, Eq, Debug)]
pub enum PastFault {
    FactPast,
}
