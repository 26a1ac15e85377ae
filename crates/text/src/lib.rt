//! Texts: the look over the whole, lines, fields and tags.
//!
//! A text is bytes, one record a line. Nothing here allocates, and no call has a precondition.
#![tactic(auto)]

pub mod fault;
pub mod line;
pub mod lines;
pub mod numbered;
pub mod tag;
pub mod whole;

pub use fault::{Place, Refusal, TextFault};
pub use line::Line;
pub use lines::{Lines, cut, field, field_count};
pub use numbered::Numbered;
pub use tag::Tag;
pub use whole::look;
