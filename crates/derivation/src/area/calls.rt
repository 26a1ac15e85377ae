//! Work areas made.
ghost use Rattle.std.specs.Prelude.{◌≡◌};
ghost use Rattle.facts.specs.States.{nothing};
ghost use Rattle.derivation.specs.Models.{barred};

use crate::area::Work;
use crate::bar::Bar;

impl Work {
    /// A work area with nothing barred.
    pub fn new() -> Work
        ensures value { barred result ≡ nothing }
    {
        let bar = Bar::none();
        Work { bar }
    }
}
