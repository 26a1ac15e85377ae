//! How a state speaks of one fact, and what is asked of one mark or two.
ghost use Rattle.std.specs.Prelude.{◌≡◌};
ghost use Rattle.facts.specs.States.{sign, named, over_one, less_one, missing_one, covers_one, apart_one};
ghost use Rattle.facts.specs.Worlds.{set_one};

/// A state does not name the fact, or has its literal + (it holds) or - (it does not hold).
///
/// It is no `Option<bool>`: the three names say what `Some(false)` would not.
#[derive(Clone, Copy, PartialEq, Eq, Debug)]
pub enum Mark {
    Unnamed,
    Holds,
    Fails,
}

/// The mark of a literal by its sign.
impl From<bool> for Mark {
    ghost from_gives = { λ holds m. m ≡ sign holds };

    fn from(holds: bool) -> Mark {
        if holds { Mark::Holds } else { Mark::Fails }
    }
}

impl Mark {
    /// What a fact is once a state with this mark is set over it.
    pub fn set(self, was: bool) -> bool
        ensures value { result ≡ set_one self was }
    {
        match self {
            Mark::Unnamed => was,
            Mark::Holds => true,
            Mark::Fails => false,
        }
    }

    /// Whether there is a literal: a test by a name, for the definition of that name.
    pub(crate) fn is_named(self) -> bool
        ensures value { result ≡ named self }
    {
        self != Mark::Unnamed
    }

    /// The mark of `effect` where it names the fact, else this one.
    pub(crate) fn overridden(self, effect: Mark) -> Mark
        ensures value { result ≡ over_one self effect }
    {
        match effect {
            Mark::Unnamed => self,
            Mark::Holds | Mark::Fails => effect,
        }
    }

    /// This mark where `other` does not name the fact.
    pub(crate) fn without(self, other: Mark) -> Mark
        ensures value { result ≡ less_one self other }
    {
        match other {
            Mark::Unnamed => self,
            Mark::Holds | Mark::Fails => Mark::Unnamed,
        }
    }

    /// The mark of `wanted` where this one is another.
    pub(crate) fn missing(self, wanted: Mark) -> Mark
        ensures value { result ≡ missing_one self wanted }
    {
        if self == wanted {
            Mark::Unnamed
        } else {
            wanted
        }
    }

    /// Whether the literal of `other`, if there is one, is this one.
    pub(crate) fn covers(self, other: Mark) -> bool
        ensures value { result ≡ covers_one self other }
    {
        other == Mark::Unnamed || self == other
    }

    /// Whether not both name the fact.
    pub(crate) fn is_apart(self, other: Mark) -> bool
        ensures value { result ≡ apart_one self other }
    {
        !(self.is_named() && other.is_named())
    }
}
