//! The lines of a text with their numbers.
ghost use Rattle.std.specs.Prelude.{◌≡◌};
ghost use Rattle.std.specs.Iterator.{item_count};
ghost use Rattle.text.specs.Lines.{lines};
ghost use Rattle.text.specs.Numbered.{Numbers, NextNumbered};

use crate::fault::TextFault;
use crate::line::Line;
use crate::lines::Lines;
use crate::whole::look;
use std::marker::Model;

/// The lines of a text that are still to be read, each with its number. The text as a whole has no fault, so that the
/// numbers fit.
#[derive(Drop)]
pub struct Numbered<'a> {
    lines: Lines<'a>,
    number: u32,
}

// Clauses see what is left, and its first number.
impl<'a> Model for Numbered<'a> {
    ghost use Rattle.std.specs.Prelude.{◌+◌, ◌≤◌, length};
    ghost use Rattle.text.specs.Numbered.{Left};

    ghost Value = { Left };

    ghost view = { λ n. record { rest = n.lines.rest.now; number = n.number } };

    ghost invariant = { λ n. n.number + length n.lines.rest.now ≤ 1048577 };
}

impl<'a> Numbered<'a> {
    /// All lines of the text, or the fault of the whole.
    pub fn of(text: &'a [u8]) -> Result<Numbered<'a>, TextFault>
        ensures value { Numbers text.now result }
    {
        look(text)?;
        Ok(Numbered {
            lines: Lines::of(text),
            number: 1,
        })
    }

    /// The number of the next line; after the last, the one that another would have.
    pub fn next_number(&self) -> u32
        ensures value { result ≡ self.now.number }
    {
        self.number
    }
}

impl<'a> Iterator for Numbered<'a> {
    type Item = Line<'a>;

    ghost next_gives = { NextNumbered };

    ghost remaining = { item_count (λ s. lines s.rest) };

    fn next(&mut self) -> Option<Line<'a>> {
        let text = self.lines.next_line()?;
        let line = Line {
            text,
            number: self.number,
        };
        // The one count of lines, and no `zip`: who reads on after the last line asks for its number too.
        self.number += 1;
        Some(line)
    }
}
