//! Fact readers: whatever tells which facts hold.
ghost use Rattle.std.specs.Prelude.{◌≡◌, ℕ, Bool, Decides};
ghost use Rattle.facts.specs.Worlds.{Sized, agrees, Meets, meets, unmet_one, unmet};
ghost use Rattle.facts.specs.Models.{row};
ghost use Rattle.facts.specs.Words.{Unmet};

use crate::mark::Mark;
use crate::state::State;
use std::array;

/// Tells its number of facts and whether a fact holds. Its questions change nothing.
pub trait FactReader {
    ghost size: { Self → ℕ };

    ghost fact: { Self → ℕ → Bool };

    /// The number of facts. A fact numbered that or higher does not hold.
    fn count(&self) -> usize
        ensures value { result ≡ size self.now }
        ensures past { Sized (size self.now) (fact self.now) };

    /// Whether a fact holds.
    fn holds(&self, at: usize) -> bool
        ensures value { result ≡ fact self.now at };
}

/// Whether every literal of the state is true in what the reader tells.
pub fn meets<R: FactReader>(reader: &R, state: &State) -> bool
    ensures value { result ≡ meets (R.FactReader.fact reader.now) (row state.now) }
    ensures means { Decides result (Meets (R.FactReader.fact reader.now) (row state.now)) }
{
    state
        .marks
        .iter()
        .enumerate()
        .all(|(at, mark)| agrees(reader, at, *mark))
}

/// The literals of the state that are not true in what the reader tells.
pub fn unmet<R: FactReader>(reader: &R, state: &State) -> State
    ensures value { row result ≡ unmet (R.FactReader.fact reader.now) (row state.now) }
    ensures means { Unmet (R.FactReader.fact reader.now) (row state.now) (row result) }
{
    State {
        marks: array::from_fn(|at| unmet_at(reader, at, state.marks[at])),
    }
}

/// Whether the literal of this mark, if there is one, is true of the fact. Only a named fact is asked for.
fn agrees<R: FactReader>(reader: &R, at: usize, m: Mark) -> bool
    ensures value { result ≡ agrees m (R.FactReader.fact reader.now at) }
{
    match m {
        Mark::Unnamed => true,
        Mark::Holds => reader.holds(at),
        Mark::Fails => !reader.holds(at),
    }
}

/// The mark where its literal is not true of the fact, else none.
fn unmet_at<R: FactReader>(reader: &R, at: usize, m: Mark) -> Mark
    ensures value { result ≡ unmet_one m (R.FactReader.fact reader.now at) }
{
    if agrees(reader, at, m) {
        Mark::Unnamed
    } else {
        m
    }
}
