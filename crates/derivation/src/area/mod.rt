//! Where checking is done.
ghost use Rattle.std.specs.Prelude.{◌≡◌, true};
ghost use Rattle.facts.specs.States.{nothing, same};
ghost use Rattle.facts.specs.Models.{row};

mod calls;

use crate::bar::Bar;

/// A work area for checking. Before a check and after it nothing is barred; while the premise of a frame is read, the
/// frame's facts are.
#[derive(Clone, Copy)]
pub struct Work {
    pub(crate) bar: Bar,
    ghost clear: { same (row bar.facts) nothing ≡ true },
}
