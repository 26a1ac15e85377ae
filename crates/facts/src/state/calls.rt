//! Questions of states, and states made of others.
ghost use Rattle.std.specs.Prelude.{◌≡◌, Bool, not, Decides, MatchBool};
ghost use Rattle.facts.specs.declared.mark.Mark.{Mark};
ghost use Rattle.facts.specs.States.{mark, named, nothing, added, blend, covers, Covers, same, apart, Apart, within, Within, lowest, overridden, without, missing};
ghost use Rattle.facts.specs.Models.{row, Leaves};
ghost use Rattle.facts.specs.Scans.{Computes, Everywhere, NotEverywhere};
ghost use Rattle.facts.specs.Words.{Overridden, Without, Missing, OneMore, Lowest, WhereOk};

use crate::mark::Mark;
use crate::state::{LiteralFault, MAX_FACTS, State};
use std::array;

impl State {
    /// The state of no literals.
    pub fn empty() -> State
        ensures value { row result ≡ nothing }
    {
        State {
            marks: [Mark::Unnamed; MAX_FACTS],
        }
    }

    /// How the state speaks of a fact; it names none past 255.
    pub fn mark(&self, fact: usize) -> Mark
        ensures value { result ≡ mark (row self.now) fact }
    {
        self.marks.get(fact).copied().unwrap_or(Mark::Unnamed)
    }

    /// Whether the state has a literal of the fact.
    pub fn names(&self, fact: usize) -> bool
        ensures value { result ≡ named (mark (row self.now) fact) }
    {
        self.mark(fact).is_named()
    }

    /// One literal more, or a refusal that changes nothing.
    // Two plain arguments: a literal with a type of its own would be made at every call only to be taken apart here.
    pub fn add(&mut self, fact: usize, holds: bool) -> Result<(), LiteralFault>
        ensures after { Leaves (added (row self.old) fact holds) (row self.old) result (row self.new) }
        ensures means { WhereOk result (OneMore (row self.old) fact holds (row self.new)) }
    {
        if fact >= MAX_FACTS {
            return Err(LiteralFault::FactPast);
        }
        if self.marks[fact].is_named() {
            return Err(LiteralFault::FactNamed);
        }
        self.marks[fact] = Mark::from(holds);
        Ok(())
    }

    /// Whether each literal of `other` is in this state.
    pub fn covers(&self, other: &State) -> bool
        ensures value { result ≡ covers (row self.now) (row other.now) }
        ensures means { Decides result (Covers (row self.now) (row other.now)) }
    {
        self.all_pass(other, Mark::covers)
    }

    /// Whether the two have the same literals: `==` by a name whose contract says what it means.
    pub fn same(&self, other: &State) -> bool
        ensures value { result ≡ same (row self.now) (row other.now) }
        ensures means { Decides result (row self.now ≡ row other.now) }
    {
        self == other
    }

    /// Whether some fact is named in both.
    pub fn shares(&self, other: &State) -> bool
        ensures value { result ≡ not (apart (row self.now) (row other.now)) }
        ensures means { Decides (not result) (Apart (row self.now) (row other.now)) }
    {
        !self.all_pass(other, Mark::is_apart)
    }

    /// Whether the state names only facts below `count`.
    pub fn within(&self, count: usize) -> bool
        ensures value { result ≡ within count (row self.now) }
        ensures means { Decides result (Within count (row self.now)) }
    {
        !self.marks.iter().skip(count).any(|mark| mark.is_named())
    }

    /// The lowest fact that the state names.
    pub fn lowest(&self) -> Option<usize>
        ensures value { result ≡ lowest (row self.now) }
        ensures means { Lowest (row self.now) result }
    {
        self.marks.iter().position(|mark| mark.is_named())
    }

    /// The literals of `effect`, and those of this state whose fact `effect` does not name.
    pub fn overridden(&self, effect: &State) -> State
        ensures value { row result ≡ overridden (row self.now) (row effect.now) }
        ensures means { Overridden (row self.now) (row effect.now) (row result) }
    {
        self.blended(effect, Mark::overridden)
    }

    /// The literals of this state whose fact `other` does not name.
    pub fn without(&self, other: &State) -> State
        ensures value { row result ≡ without (row self.now) (row other.now) }
        ensures means { Without (row self.now) (row other.now) (row result) }
    {
        self.blended(other, Mark::without)
    }

    /// The literals of `wanted` that this state lacks.
    pub fn missing(&self, wanted: &State) -> State
        ensures value { row result ≡ missing (row self.now) (row wanted.now) }
        ensures means { Missing (row self.now) (row wanted.now) (row result) }
    {
        self.blended(wanted, Mark::missing)
    }

    /// The state made of two, fact by fact: each mark is made of their marks there.
    fn blended<F: Fn(Mark, Mark) -> Mark>(&self, other: &State, each: F) -> State
        requires { F.IsAlwaysCallable each }
        ensures value { (f : Mark → Mark → Mark) → Computes (F.post each) f → row result ≡ blend f (row self.now) (row other.now) }
    {
        State {
            marks: array::from_fn(|i| each(self.marks[i], other.marks[i])),
        }
    }

    /// Whether two states pass the test at every fact.
    fn all_pass<F: Fn(Mark, Mark) -> bool>(&self, other: &State, test: F) -> bool
        requires { F.IsAlwaysCallable test }
        ensures facts { (f : Mark → Mark → Bool) → Computes (F.post test) f → MatchBool result (Everywhere f (row self.now) (row other.now)) (NotEverywhere f (row self.now) (row other.now)) }
    {
        self.marks
            .iter()
            .zip(&other.marks)
            .all(|(p, q)| test(*p, *q))
    }
}
