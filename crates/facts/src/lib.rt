//! Facts, states and worlds: what a job needs, what it sets, and whether a world meets a state.
//!
//! A fact is known by its number, from 0. Nothing here allocates, and no call has a precondition.
#![tactic(auto)]

pub mod job;
pub mod mark;
pub mod reader;
pub mod state;
pub mod world;

pub use job::Job;
pub use mark::Mark;
pub use reader::{FactReader, meets, unmet};
pub use state::{LiteralFault, MAX_FACTS, State};
pub use world::{PastFault, World, WorldFault};
