//! Names, states and worlds as text: literals in rising fact number.
use facts::{FactReader, Mark, State, World};
use names::Name;
use std::fmt;
use std::str::from_utf8;
use table::Table;

/// The name as text. The names of a table are ASCII.
pub(crate) fn name_text(name: &Name) -> &str {
    from_utf8(name.text()).unwrap_or("?")
}

/// What is shown as literals, at most one of each fact.
pub(crate) trait Signs {
    /// The sign of the fact's literal, if there is one.
    fn sign(&self, fact: usize) -> Option<char>;
}

impl Signs for State {
    fn sign(&self, fact: usize) -> Option<char> {
        match self.mark(fact) {
            Mark::Unnamed => None,
            Mark::Holds => Some('+'),
            Mark::Fails => Some('-'),
        }
    }
}

impl Signs for World {
    fn sign(&self, fact: usize) -> Option<char> {
        Some(if self.holds(fact) { '+' } else { '-' })
    }
}

/// The literals of a state or a world by the names of a table's facts, or "." where there are none.
#[derive(Drop)]
pub(crate) struct Literals<'a, S> {
    table: &'a Table,
    signs: &'a S,
}

impl<'a, S: Signs> Literals<'a, S> {
    pub(crate) fn of(table: &'a Table, signs: &'a S) -> Literals<'a, S> {
        Literals { table, signs }
    }
}

impl<S: Signs> fmt::Display for Literals<'_, S> {
    fn fmt<W: fmt::Write>(&self, f: &mut fmt::Formatter<W>) -> fmt::Result {
        let facts = self.table.facts().iter().enumerate();
        let mut literals = facts.filter_map(|(fact, row)| {
            let sign = self.signs.sign(fact)?;
            Some((sign, name_text(&row.name)))
        });
        let Some((sign, name)) = literals.next() else {
            return f.write_char('.');
        };
        write!(f, "{sign}{name}")?;
        for (sign, name) in literals {
            write!(f, " {sign}{name}")?;
        }
        Ok(())
    }
}
