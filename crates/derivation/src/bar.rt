//! The bar: which facts no effect may name while the premise of a frame is read.
ghost use Rattle.std.specs.Prelude.{◌≡◌, not};
ghost use Rattle.facts.specs.States.{nothing, overridden, apart};
ghost use Rattle.facts.specs.Models.{row};
ghost use Rattle.derivation.specs.Models.{bar_of};

use facts::State;

/// The facts that a state names, whatever the signs, are barred.
#[derive(Clone, Copy)]
pub(crate) struct Bar {
    pub(crate) facts: State,
}

impl Bar {
    /// Nothing is barred.
    pub(crate) fn none() -> Bar
        ensures value { bar_of result ≡ nothing }
    {
        let facts = State::empty();
        Bar { facts }
    }

    /// The facts of the state are barred too.
    pub(crate) fn add(&mut self, state: &State)
        ensures after { bar_of self.new ≡ overridden (bar_of self.old) (row state.now) }
    {
        self.facts = self.facts.overridden(state);
    }

    /// Whether the effect names a barred fact.
    pub(crate) fn bars(&self, effect: &State) -> bool
        ensures value { result ≡ not (apart (bar_of self.now) (row effect.now)) }
    {
        self.facts.shares(effect)
    }
}

/// Holds the bar, and puts back what it found there when it goes.
pub(crate) struct Guard<'b> {
    pub(crate) bar: &'b mut Bar,
    saved: Bar,
}

impl Drop for Guard<'_> {
    fn drop(self)
        ensures after { self.exit.0.now ≡ self.entry.saved }
    {
        *self.bar = self.saved;
        let Guard { bar: _, saved: _ } = self;
    }
}

impl<'b> Guard<'b> {
    pub(crate) fn over(bar: &'b mut Bar) -> Guard<'b>
        ensures saved { result.saved ≡ bar.old }
        ensures same { result.bar.now ≡ bar.old }
        ensures name { result.bar.ghost_name ≡ bar.entry.ghost_name }
    {
        let saved = *bar;
        Guard { bar, saved }
    }
}
