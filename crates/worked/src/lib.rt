//! Worked cases: texts of one hut, each with its answer.
//!
//! The cases stand in `specs/Cases.antt` as one list. The prover computes the answer of each by the definitions alone,
//! so they show what the definitions say; no program runs here.
#![tactic(auto)]

ghost use Rattle.std.specs.Prelude.{◌≡◌, true};
ghost use Rattle.worked.specs.Cases.{all_hold, cases};

/// Every case has its answer.
pub fn cases_hold()
    ensures cases { all_hold cases ≡ true }
{}
