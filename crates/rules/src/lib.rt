//! The six rules, and what holds of them: the contract of each function here is a theorem.
//!
//! The rules stand in `specs/Rules.antt`, the derivation that is written for a list in `specs/Written.antt`.
#![tactic(auto)]

ghost use Rattle.rules.specs.Theorems.{Sound, Complete, Shallow, Traced, EndSpared};

/// What the six rules derive is a good list.
pub fn rules_sound()
    ensures law { Sound }
{}

/// Every good list has a derivation: the written one, which is at most 67 lines deep.
pub fn rules_complete()
    ensures law { Complete }
    ensures bound { Shallow }
{}

/// The facts of an end are among those of the opening and of the effects, so the condition on a frame's end follows
/// from those on the opening and on the effects.
pub fn ends_traced()
    ensures law { Traced }
    ensures spared { EndSpared }
{}
