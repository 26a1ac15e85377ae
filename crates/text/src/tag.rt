//! The tag of a line, its first field.
ghost use Rattle.std.specs.Prelude.{◌≡◌};
ghost use Rattle.text.specs.Tags.{tag_of, by_letter};

use crate::lines::field;

/// The tags that texts have.
#[derive(Clone, Copy, PartialEq, Eq, Debug)]
pub enum Tag {
    N,
    D,
    B,
    G,
    E,
    W,
    S,
    C,
    F,
    A,
    H,
}

impl Tag {
    /// The tag of a line; none where the first field is no tag.
    pub fn of(line: &[u8]) -> Option<Tag>
        ensures value { result ≡ tag_of line.now }
    {
        match field(line, 0) {
            [letter] => by_letter(*letter),
            _ => None,
        }
    }
}

/// The tag of a letter. An Option and no `TryFrom`: a letter that is no tag is no error yet.
fn by_letter(letter: u8) -> Option<Tag>
    ensures value { result ≡ by_letter letter }
{
    // A tag is one character, and is matched as one.
    match letter as char {
        'N' => Some(Tag::N),
        'D' => Some(Tag::D),
        'B' => Some(Tag::B),
        'G' => Some(Tag::G),
        'E' => Some(Tag::E),
        'W' => Some(Tag::W),
        'S' => Some(Tag::S),
        'C' => Some(Tag::C),
        'F' => Some(Tag::F),
        'A' => Some(Tag::A),
        'H' => Some(Tag::H),
        _ => None,
    }
}
