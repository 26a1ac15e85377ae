//! Why a table was refused.
ghost use Rattle.std.specs.Prelude.{◌≡◌};
ghost use Rattle.table.specs.declared.fault.TableFault.TheVariants.{Text};
ghost use Rattle.table.specs.Faults.{refusal_of_table};

use text::{Place, Refusal, TextFault};

/// A fault of the text, or of a line of the table by its number.
#[derive(Clone, Copy, PartialEq, Eq, Debug)]
pub enum TableFault {
    Text(TextFault),
    WrongTag(u32),
    WrongFields(u32),
    /// A name that an earlier line of that tag has.
    NameUsed(Place),
    /// Line 257 of N or 129 of D.
    TooManyLines(u32),
    /// An N line after a D line.
    OutOfOrder(u32),
}

// Each kind of text has its own fault and this step into it: a fault names all its cases, so that a match over it is whole.
impl From<TextFault> for TableFault {
    ghost from_gives = { λ e r. r ≡ Text e };

    fn from(fault: TextFault) -> TableFault {
        TableFault::Text(fault)
    }
}

impl TableFault {
    /// The fault's number, line and field.
    pub fn refusal(&self) -> Refusal
        ensures value { (result.number, result.line, result.field) ≡ refusal_of_table self.now }
    {
        Refusal::from(*self)
    }
}

impl From<TableFault> for Refusal {
    ghost from_gives = { λ e r. (r.number, r.line, r.field) ≡ refusal_of_table e };

    fn from(fault: TableFault) -> Refusal {
        match fault {
            TableFault::Text(fault) => fault.refusal(),
            TableFault::WrongTag(line) => Refusal::new(4, line, 1),
            TableFault::WrongFields(line) => Refusal::new(5, line, 1),
            TableFault::NameUsed(at) => at.refused(10),
            TableFault::TooManyLines(line) => Refusal::new(11, line, 1),
            TableFault::OutOfOrder(line) => Refusal::new(12, line, 1),
        }
    }
}
