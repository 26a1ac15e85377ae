//! What the lines of a list are.
ghost use Rattle.std.specs.Prelude.{◌≡◌};
ghost use Rattle.listing.specs.Listings.{part_tag, part_line};

use crate::fault::ListingFault;
use text::{Line, Tag};

/// A line of a list.
#[derive(Clone, Copy, PartialEq, Eq, Debug)]
pub enum Part {
    /// B: what holds before the first job.
    Opening,
    /// G: what should hold after the last job.
    Goal,
    /// E: a job.
    Job,
}

/// The line is of the wanted part, and has two fields.
pub(crate) fn expect(wanted: Part, line: &Line) -> Result<(), ListingFault>
    ensures value { result ≡ part_line wanted line.now.number line.now.text.now }
{
    if read_part(line)? != wanted {
        return Err(ListingFault::OutOfOrder(line.number));
    }
    if line.field_count() != 2 {
        return Err(ListingFault::WrongFields(line.number));
    }
    Ok(())
}

fn read_part(line: &Line) -> Result<Part, ListingFault>
    ensures value { result ≡ part_tag line.now.number line.now.text.now }
{
    match line.tag() {
        Some(Tag::B) => Ok(Part::Opening),
        Some(Tag::G) => Ok(Part::Goal),
        Some(Tag::E) => Ok(Part::Job),
        _ => Err(ListingFault::WrongTag(line.number)),
    }
}
