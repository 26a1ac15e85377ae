//! The six rules by name, and the lines that a slip has.

/// A rule line of a slip.
#[derive(Clone, Copy, PartialEq, Eq, Debug)]
pub enum Rule {
    /// H: nothing is done.
    Halt,
    /// A: one job.
    Apply,
    /// C: one derivation after another.
    Compose,
    /// W: an opening that covers the premise's.
    Weaken,
    /// S: an end that the premise's covers.
    Shrink,
    /// F: a state beside the premise, none of whose facts it touches.
    Frame,
}

/// A line of a slip that holds one of its two states.
#[derive(Clone, Copy, PartialEq, Eq, Debug)]
pub enum Header {
    /// B: what holds before the first job.
    Opening,
    /// G: what should hold after the last job.
    Goal,
}

/// What a line of a slip is.
#[derive(Clone, Copy, PartialEq, Eq, Debug)]
pub enum SlipTag {
    Header(Header),
    Rule(Rule),
}
