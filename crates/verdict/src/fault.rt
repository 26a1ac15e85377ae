//! Why a slip was refused.
ghost use Rattle.std.specs.Prelude.{◌≡◌};
ghost use Rattle.verdict.specs.declared.fault.SlipFault.TheVariants.{Text};
ghost use Rattle.verdict.specs.Faults.{refusal_of_slip};

use text::{Refusal, TextFault};

/// A fault of the text, or of a line of the slip by its number.
#[derive(Clone, Copy, PartialEq, Eq, Debug)]
pub enum SlipFault {
    Text(TextFault),
    WrongTag(u32),
    WrongFields(u32),
    /// Not the B, the G or the rule line that has to come here.
    OutOfOrder(u32),
    /// The text ends before its B or its G line, which would have this number.
    Missing(u32),
    /// The line has depth 81.
    TooDeep(u32),
    /// The text ends before the derivation does, at the line that would have this number.
    EndsEarly(u32),
    /// The derivation is complete before this line.
    LineAfter(u32),
    /// The state of W does not cover the premise's opening.
    WeakenUncovered(u32),
    /// The end of C's first premise does not cover the second's opening.
    ComposeUncovered(u32),
    /// The premise's end does not cover the state of S.
    ShrinkUncovered(u32),
    /// The effect of A's job names a barred fact.
    EffectBarred(u32),
    /// A fact of F is named in the premise's opening or end.
    FrameNamed(u32),
    /// Job 65.
    TooManyJobs(u32),
    /// The derivation's opening is not that of the B line.
    OpeningDiffers,
    /// The derivation's end is not the goal of the G line.
    EndDiffers,
}

// Each kind of text has its own fault and this step into it: a fault names all its cases, so that a match over it is whole.
impl From<TextFault> for SlipFault {
    ghost from_gives = { λ e r. r ≡ Text e };

    fn from(fault: TextFault) -> SlipFault {
        SlipFault::Text(fault)
    }
}

impl SlipFault {
    /// The fault's number, line and field.
    pub fn refusal(&self) -> Refusal
        ensures value { (result.number, result.line, result.field) ≡ refusal_of_slip self.now }
    {
        Refusal::from(*self)
    }
}

impl From<SlipFault> for Refusal {
    ghost from_gives = { λ e r. (r.number, r.line, r.field) ≡ refusal_of_slip e };

    fn from(fault: SlipFault) -> Refusal {
        match fault {
            SlipFault::Text(fault) => fault.refusal(),
            SlipFault::WrongTag(line) => Refusal::new(4, line, 1),
            SlipFault::WrongFields(line) => Refusal::new(5, line, 1),
            SlipFault::OutOfOrder(line) => Refusal::new(12, line, 1),
            SlipFault::Missing(line) => Refusal::new(12, line, 0),
            SlipFault::TooDeep(line) => Refusal::new(20, line, 1),
            SlipFault::EndsEarly(line) => Refusal::new(21, line, 0),
            SlipFault::LineAfter(line) => Refusal::new(22, line, 1),
            SlipFault::WeakenUncovered(line) => Refusal::new(23, line, 2),
            SlipFault::ComposeUncovered(line) => Refusal::new(24, line, 1),
            SlipFault::ShrinkUncovered(line) => Refusal::new(25, line, 2),
            SlipFault::EffectBarred(line) => Refusal::new(26, line, 2),
            SlipFault::FrameNamed(line) => Refusal::new(27, line, 2),
            SlipFault::TooManyJobs(line) => Refusal::new(28, line, 1),
            SlipFault::OpeningDiffers => Refusal::new(29, 1, 2),
            SlipFault::EndDiffers => Refusal::new(29, 2, 2),
        }
    }
}
