//! The verdict on a slip: its definition, what it means, and why a slip is refused.
//!
//! A slip is the text of a plan: its opening, its goal, and a derivation by the six rules. Nothing here reads one; the
//! definitions stand in `specs/`, and the program that computes them is the crate `slip`.
#![tactic(auto)]

ghost use Rattle.verdict.specs.Statements.{EverySlip, EveryList, EveryWriting};

pub mod fault;
pub mod rule;

pub use fault::SlipFault;
pub use rule::{Header, Rule, SlipTag};

/// The statements about the verdict, over every table that can be read: a text is accepted exactly when it is a slip of
/// what is answered; a list has an accepted slip exactly when it is good; and the slip that is written for a good list
/// is accepted with it, and has at most 454,598 bytes.
pub fn verdict_stands()
    ensures grammar { EverySlip }
    ensures good { EveryList }
    ensures written { EveryWriting }
{}
