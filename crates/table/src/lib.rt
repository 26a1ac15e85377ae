//! Tables of facts and jobs, read from text.
//!
//! Nothing here allocates, and no call has a precondition.
#![tactic(auto)]

pub mod fact_row;
pub mod fault;
pub mod job_row;
pub mod table;

pub use fact_row::FactRow;
pub use fault::TableFault;
pub use job_row::JobRow;
pub use table::{MAX_TABLE_JOBS, Table};
