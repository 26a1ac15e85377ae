//! What is wrong with a text, and where.
ghost use Rattle.std.specs.Prelude.{◌≡◌};
ghost use Rattle.text.specs.Faults.{at_place, refusal_of};

/// A line and a field of it, both from 1.
#[derive(Clone, Copy, PartialEq, Eq, Debug)]
pub struct Place {
    pub line: u32,
    pub field: u32,
}

impl Place {
    /// The refusal of this number at the place.
    pub fn refused(self, number: u8) -> Refusal
        ensures value { (result.number, result.line, result.field) ≡ at_place number self }
    {
        Refusal::new(number, self.line, self.field)
    }
}

/// The number of a refusal, with its line and field; field 0 is the whole line, line 0 the whole text.
///
/// The three are what is shown, so 0 stands where another type would have `None`. The kinds are the faults: each kind of
/// text has an enum of its own for them.
#[derive(Clone, Copy, PartialEq, Eq, Debug)]
pub struct Refusal {
    pub number: u8,
    pub line: u32,
    pub field: u32,
}

impl Refusal {
    /// The refusal of this number, line and field.
    pub fn new(number: u8, line: u32, field: u32) -> Refusal
        ensures value { (result.number ≡ number) × (result.line ≡ line) × (result.field ≡ field) }
    {
        Refusal {
            number,
            line,
            field,
        }
    }
}

/// A fault of a text as a whole, or of a name or a literal in it.
#[derive(Clone, Copy, PartialEq, Eq, Debug)]
pub enum TextFault {
    /// Over 1,048,576 bytes.
    TooLong,
    /// The first byte that no text has.
    BadByte(Place),
    /// The last line, by its number, has no end.
    Unended(u32),
    BadName(Place),
    NoSign(Place),
    UnknownName(Place),
    FactTwice(Place),
}

impl TextFault {
    /// The fault's number, line and field.
    pub fn refusal(&self) -> Refusal
        ensures value { (result.number, result.line, result.field) ≡ refusal_of self.now }
    {
        Refusal::from(*self)
    }
}

impl From<TextFault> for Refusal {
    ghost from_gives = { λ e r. (r.number, r.line, r.field) ≡ refusal_of e };

    fn from(fault: TextFault) -> Refusal {
        match fault {
            TextFault::TooLong => Refusal::new(1, 0, 0),
            TextFault::BadByte(at) => at.refused(2),
            TextFault::Unended(line) => Refusal::new(3, line, 0),
            TextFault::BadName(at) => at.refused(6),
            TextFault::NoSign(at) => at.refused(7),
            TextFault::UnknownName(at) => at.refused(8),
            TextFault::FactTwice(at) => at.refused(9),
        }
    }
}
