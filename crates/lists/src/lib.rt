//! Job lists: which are good, and where the others fail first and in which world.
//!
//! Nothing here allocates, and no call has a precondition.
#![tactic(auto)]

pub mod draft;
pub mod failure;
pub mod list;

pub use draft::Draft;
pub use failure::{Failure, first_failure};
pub use list::{JobList, ListFault, MAX_JOBS};
