//! What each fault says in plain English.
use table::TableFault;
use text::{Refusal, TextFault};
use verdict::SlipFault;

const WRONG_TAG: &str = "this kind of text has no such tag";

const WRONG_FIELDS: &str = "the line has too few or too many fields";

const OUT_OF_ORDER: &str = "the line is out of order";

/// Why a text is refused: a number and a place, and the fault in words.
pub(crate) trait Fault: Copy + Into<Refusal> {
    fn sentence(&self) -> &'static str;
}

impl Fault for TextFault {
    fn sentence(&self) -> &'static str {
        match self {
            TextFault::TooLong => "the text has more than 1,048,576 bytes",
            TextFault::BadByte(_) => "no text may have this byte",
            TextFault::Unended(_) => "the last line is not ended",
            TextFault::BadName(_) => {
                "a name is a letter and then letters, digits or underscores, 24 bytes at most"
            }
            TextFault::NoSign(_) => "a literal begins with + or -",
            TextFault::UnknownName(_) => "no fact or job has this name",
            TextFault::FactTwice(_) => "the state names a fact twice",
        }
    }
}

impl Fault for TableFault {
    fn sentence(&self) -> &'static str {
        match self {
            TableFault::Text(fault) => fault.sentence(),
            TableFault::WrongTag(_) => WRONG_TAG,
            TableFault::WrongFields(_) => WRONG_FIELDS,
            TableFault::NameUsed(_) => "an earlier line of this tag has this name",
            TableFault::TooManyLines(_) => "there are too many lines of this tag",
            TableFault::OutOfOrder(_) => OUT_OF_ORDER,
        }
    }
}

impl Fault for SlipFault {
    fn sentence(&self) -> &'static str {
        match self {
            SlipFault::Text(fault) => fault.sentence(),
            SlipFault::WrongTag(_) => WRONG_TAG,
            SlipFault::WrongFields(_) => WRONG_FIELDS,
            SlipFault::OutOfOrder(_) => OUT_OF_ORDER,
            SlipFault::Missing(_) => "the text ends before its B line or its G line",
            SlipFault::TooDeep(_) => "the derivation is more than 80 lines deep",
            SlipFault::EndsEarly(_) => "the text ends before the derivation is complete",
            SlipFault::LineAfter(_) => "the derivation is complete before this line",
            SlipFault::WeakenUncovered(_) => {
                "the state of this W does not cover the opening of its premise"
            }
            SlipFault::ComposeUncovered(_) => {
                "the end of the first premise does not cover the opening of the second"
            }
            SlipFault::ShrinkUncovered(_) => {
                "the end of the premise does not cover the state of this S"
            }
            SlipFault::EffectBarred(_) => "the effect of the job names a fact that a frame bars",
            SlipFault::FrameNamed(_) => {
                "a fact of this frame is named in the opening or the end of its premise"
            }
            SlipFault::TooManyJobs(_) => "there are more than 64 jobs",
            SlipFault::OpeningDiffers =>
                "the opening of the derivation is not the state of this line",
            SlipFault::EndDiffers => "the end of the derivation is not the state of this line",
        }
    }
}
