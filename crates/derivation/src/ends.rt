//! What a derivation gives beside its jobs.
use facts::State;

/// The opening and the end of a derivation.
#[derive(Clone, Copy)]
pub(crate) struct Ends {
    pub(crate) opening: State,
    pub(crate) end: State,
}
