//! Bare lists read: the text of an opening, a goal and the names of jobs.
//!
//! Nothing here allocates, and no call has a precondition.
#![tactic(auto)]

pub mod fault;
pub mod part;
pub mod reading;

pub use fault::ListingFault;
pub use part::Part;
pub use reading::read_list;
