//! Names in texts, search by name, and state fields.
//!
//! Nothing here allocates, and no call has a precondition.
#![tactic(auto)]

pub mod literal;
pub mod name;

pub use literal::read_state;
pub use name::{Name, Named, find};
