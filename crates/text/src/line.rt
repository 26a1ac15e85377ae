//! A line of a text, with its number.
ghost use Rattle.std.specs.Prelude.{◌≡◌, ◌+◌, [], length, slice_index_or};
ghost use Rattle.text.specs.Lines.{fields};
ghost use Rattle.text.specs.Tags.{tag_of};

use crate::fault::Place;
use crate::lines::{field, field_count};
use crate::tag::Tag;

/// A line without its end, and its number, from 1.
#[derive(Clone, Copy, PartialEq, Eq, Debug)]
pub struct Line<'a> {
    pub text: &'a [u8],
    pub number: u32,
}

impl<'a> Line<'a> {
    /// The tag; none where the first field is no tag.
    pub fn tag(&self) -> Option<Tag>
        ensures value { result ≡ tag_of self.now.text.now }
    {
        Tag::of(self.text)
    }

    /// The number of fields: one more than the tabs.
    pub fn field_count(&self) -> usize
        ensures value { result ≡ length (fields self.now.text.now) }
    {
        field_count(self.text)
    }

    /// The field of this number, from 0; no bytes past the last.
    pub fn field(&self, i: u8) -> &'a [u8]
        ensures value { result.now ≡ slice_index_or (fields self.now.text.now) i [] }
    {
        field(self.text, i)
    }

    /// The place of `field(i)`; there the fields count from 1.
    pub fn place(&self, i: u8) -> Place
        ensures value { result ≡ record { line = self.now.number; field = i + 1 } }
    {
        Place {
            line: self.number,
            field: u32::from(i) + 1,
        }
    }
}
