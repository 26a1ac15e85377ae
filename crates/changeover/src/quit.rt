//! Why the program ends with status 1.
use std::io;

/// A reason to end with status 1.
#[derive(Drop)]
pub(crate) enum Quit {
    /// All that is to be said is printed.
    Told,
    /// An error, still to be printed.
    Failed(anyhow::Error),
}

impl From<io::Error> for Quit {
    fn from(fault: io::Error) -> Quit {
        Quit::Failed(fault.into())
    }
}

impl From<&str> for Quit {
    fn from(fault: &str) -> Quit {
        Quit::Failed(anyhow::Error::msg(fault))
    }
}
