//! States: sets of literals.
ghost use Rattle.std.specs.Prelude.{◌≡◌, length};

mod calls;

use crate::mark::Mark;

/// The most facts that a table, a state or a world has.
pub const MAX_FACTS: usize = 256;

/// A set of literals that names each fact at most once: the mark of fact 0, of fact 1, and so on.
#[derive(Clone, Copy, PartialEq, Eq, Debug)]
pub struct State {
    pub(crate) marks: [Mark; MAX_FACTS],
    ghost size: { length marks ≡ 256 },
}

/// Why a literal was not added: its fact is past 255, or named already.
#[derive(Clone, Copy, PartialEq, Eq, Debug)]
pub enum LiteralFault {
    FactPast,
    FactNamed,
}
