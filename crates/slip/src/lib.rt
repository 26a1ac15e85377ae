//! Slips checked: a slip is the text of a plan with the derivation of why it works.
//!
//! `check` reads one against a table and answers the accepted plan, or the one refusal. Nothing here allocates, and no
//! call has a precondition.
#![tactic(auto)]

pub mod checker;
pub mod plan;

pub use checker::check;
pub use derivation::Work;
pub use plan::Plan;
