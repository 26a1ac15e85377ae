//! Why a list was refused.
ghost use Rattle.std.specs.Prelude.{◌≡◌};
ghost use Rattle.listing.specs.declared.fault.ListingFault.TheVariants.{Text};
ghost use Rattle.listing.specs.Faults.{refusal_of_listing};

use text::{Refusal, TextFault};

/// A fault of the text, or of a line of the list by its number.
#[derive(Clone, Copy, PartialEq, Eq, Debug)]
pub enum ListingFault {
    Text(TextFault),
    WrongTag(u32),
    WrongFields(u32),
    /// Not the B, the G or the E line that has to come here.
    OutOfOrder(u32),
    /// The text ends before its B or its G line, which would have this number.
    Missing(u32),
    /// Job 65.
    TooManyJobs(u32),
}

// Each kind of text has its own fault and this step into it: a fault names all its cases, so that a match over it is whole.
impl From<TextFault> for ListingFault {
    ghost from_gives = { λ e r. r ≡ Text e };

    fn from(fault: TextFault) -> ListingFault {
        ListingFault::Text(fault)
    }
}

impl ListingFault {
    /// The fault's number, line and field.
    pub fn refusal(&self) -> Refusal
        ensures value { (result.number, result.line, result.field) ≡ refusal_of_listing self.now }
    {
        Refusal::from(*self)
    }
}

impl From<ListingFault> for Refusal {
    ghost from_gives = { λ e r. (r.number, r.line, r.field) ≡ refusal_of_listing e };

    fn from(fault: ListingFault) -> Refusal {
        match fault {
            ListingFault::Text(fault) => fault.refusal(),
            ListingFault::WrongTag(line) => Refusal::new(4, line, 1),
            ListingFault::WrongFields(line) => Refusal::new(5, line, 1),
            ListingFault::OutOfOrder(line) => Refusal::new(12, line, 1),
            ListingFault::Missing(line) => Refusal::new(12, line, 0),
            ListingFault::TooManyJobs(line) => Refusal::new(28, line, 1),
        }
    }
}
