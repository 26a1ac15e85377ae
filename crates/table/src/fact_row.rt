//! The row of a fact.
ghost use Rattle.names.specs.Models.{spelling};

use names::{Name, Named};

/// A fact by its name.
#[derive(Clone, Copy)]
pub struct FactRow {
    pub name: Name,
}

// The line of a job's row once more: the rows are two public types, and a trait cannot name the field that both have.
impl Named for FactRow {
    ghost title = { λ r. spelling r.name };

    fn name(&self) -> &[u8] {
        self.name.text()
    }
}
