//! The lines of a text and the fields of a line.
ghost use Rattle.std.specs.Prelude.{◌≡◌, ◌==◌, [], length, slice_index_or};
ghost use Rattle.std.specs.Iterator.{YieldsFirstRef, item_count};
ghost use Rattle.std.specs.List.{position};
ghost use Rattle.text.specs.Lines.{Cut, NextLine, fields, lines};

pub(crate) const TAB: u8 = 0x09;

pub(crate) const NEWLINE: u8 = 0x0A;

/// What of a text is still to be read.
#[derive(Clone, Debug, Drop)]
pub struct Lines<'a> {
    rest: &'a [u8],
}

impl<'a> Lines<'a> {
    /// All lines of the text.
    pub fn of(text: &'a [u8]) -> Lines<'a>
        ensures value { result.rest.now ≡ text.now }
    {
        Lines { rest: text }
    }

    /// The next line without its end, or none after the last.
    #[tactic(auto, using(crate::proofs::Cuts::next_of_cut))]
    pub fn next_line(&mut self) -> Option<&'a [u8]>
        ensures cases { NextLine self.old.rest.now result self.new.rest.now }
    {
        if self.rest.is_empty() {
            return None;
        }
        let (line, more) = cut(self.rest, NEWLINE);
        self.rest = more.unwrap_or(&[]);
        Some(line)
    }
}

impl<'a> Iterator for Lines<'a> {
    type Item = &'a [u8];

    ghost next_gives = { YieldsFirstRef (λ s. lines s.rest.now) };

    ghost remaining = { item_count (λ s. lines s.rest.now) };

    fn next(&mut self) -> Option<&'a [u8]> {
        self.next_line()
    }
}

/// The number of fields of a line: one more than its tabs.
#[tactic(auto, using(crate::proofs::Cuts::part_count))]
pub fn field_count(line: &[u8]) -> usize
    ensures value { result ≡ length (fields line.now) }
{
    line.iter().filter(|b| is_tab(b)).count() + 1
}

/// The field of this number, from 0; no bytes past the last.
pub fn field(line: &[u8], i: u8) -> &[u8]
    ensures value { result.now ≡ slice_index_or (fields line.now) i [] }
{
    line.split(is_tab).nth(usize::from(i)).unwrap_or(&[])
}

/// A tab, which parts two fields.
fn is_tab(b: &u8) -> bool
    ensures value { result ≡ b.now == 9 }
{
    *b == TAB
}

/// What stands before the first stop byte, and what follows it, if there is one.
#[tactic(auto, using(crate::proofs::Cuts::parts_whole, crate::proofs::Cuts::parts_cut))]
pub fn cut(s: &[u8], stop: u8) -> (&[u8], Option<&[u8]>)
    ensures cases { Cut stop s.now result.0.now result.1 }
{
    match index_of(s, stop) {
        None => (s, None),
        Some(n) => (&s[..n], Some(&s[n + 1..])),
    }
}

/// Where the first stop byte stands.
fn index_of(s: &[u8], stop: u8) -> Option<usize>
    ensures value { result ≡ position (λ b. b == stop) s.now }
{
    s.iter().position(|b| *b == stop)
}
