//! The lines of a slip taken in turn, and its two states.
ghost use Rattle.std.specs.Prelude.{◌≡◌, ◌<◌, [], length, slice_index_or};
ghost use Rattle.filled.specs.Items.{items_of};
ghost use Rattle.facts.specs.Models.{row, mapped_ok};
ghost use Rattle.text.specs.Lines.{fields};
ghost use Rattle.names.specs.Literals.{state_field};
ghost use Rattle.table.specs.Models.{table_of};
ghost use Rattle.table.specs.Tables.{place};
ghost use Rattle.verdict.specs.Verdicts.{with_number, header, finish};
ghost use Rattle.derivation.specs.Readers.{cursor_of, Opened, Took, Says};

use crate::reader::Reader;
use crate::tags::header_tag;
use facts::State;
use filled::Filled;
use lists::{Draft, MAX_JOBS};
use names::read_state;
use table::Table;
use text::{Line, Numbered, TextFault};
use verdict::{Header, SlipFault};

impl<'a> Reader<'a> {
    /// At the first line of the slip, with no jobs read; or the fault of the whole.
    pub(crate) fn of(slip: &'a [u8]) -> Result<Reader<'a>, TextFault>
        ensures value { Opened slip.now result }
    {
        Ok(Reader {
            lines: Numbered::of(slip)?,
            jobs: Filled::over([0; MAX_JOBS]),
        })
    }

    /// The number of the next line.
    pub(crate) fn number(&self) -> u32
        ensures value { result ≡ (cursor_of self.now).line }
    {
        self.lines.next_number()
    }

    /// The next line, or none after the last.
    pub(crate) fn next_line(&mut self) -> Option<Line<'a>>
        ensures cases { Took (cursor_of self.old) result (cursor_of self.new) }
    {
        self.lines.next()
    }

    /// One job more, where there is room for it.
    pub(crate) fn push(&mut self, number: u8)
        requires { length (items_of self.old.jobs) < 64 }
        ensures after { cursor_of self.new ≡ with_number (cursor_of self.old) number }
    {
        let Ok(()) = self.jobs.push(number) else {
            unreachable()
        };
    }

    /// The state of the wanted header line, which has to come next.
    pub(crate) fn header(&mut self, table: &Table, wanted: Header) -> Result<State, SlipFault>
        ensures reads { Says row result (cursor_of self.new) (header (table_of table.now) wanted (cursor_of self.old)) }
    {
        let at = self.number();
        let line = self.next_line().ok_or(SlipFault::Missing(at))?;
        header_tag(wanted, &line)?;
        Ok(second_state(table, &line)?)
    }

    /// No line is left.
    pub(crate) fn finish(&mut self) -> Result<(), SlipFault>
        ensures reads { Says (λ (u : Unit {0}). u) result (cursor_of self.new) (finish (cursor_of self.old)) }
    {
        match self.next_line() {
            None => Ok(()),
            Some(line) => Err(SlipFault::LineAfter(line.number)),
        }
    }

    /// What was read, with the jobs read so far.
    pub(crate) fn draft(&self, opening: State, goal: State) -> Draft
        ensures opening { result.opening ≡ opening }
        ensures goal { result.goal ≡ goal }
        ensures jobs { items_of result.numbers ≡ (cursor_of self.now).jobs }
    {
        Draft {
            opening,
            goal,
            numbers: self.jobs,
        }
    }
}

/// The state in the second field.
pub(crate) fn second_state(table: &Table, line: &Line) -> Result<State, TextFault>
    ensures value { mapped_ok row result ≡ state_field (table_of table.now).facts (place line.now.number 2) (slice_index_or (fields line.now.text.now) 1 []) }
{
    read_state(line.field(1), table.facts(), line.place(1))
}
