//! Slips read to their end: the work area, the bar and its guard, and the readers of rules and of premises.
//!
//! `read_slip` answers what an acceptable slip says, or the one refusal. Nothing here allocates, and no call has a
//! precondition.
#![tactic(auto)]

pub mod area;
mod bar;
mod ends;
mod reader;
pub mod reading;
mod tags;

pub use area::Work;
pub use lists::Draft;
pub use reading::read_slip;
