//! Derivations read by the six rules: a rule line, then its premises.
ghost use Rattle.std.specs.Prelude.{◌≡◌};
ghost use Rattle.facts.specs.States.{nothing};
ghost use Rattle.text.specs.Lines.{fields};
ghost use Rattle.table.specs.Models.{table_of};
ghost use Rattle.verdict.specs.Verdicts.{premises, compose, weaken, shrink, frame, by_rule, derivation, second_state};
ghost use Rattle.derivation.specs.Models.{bar_of};
ghost use Rattle.derivation.specs.Readers.{ends_of, two_ends, cursor_of, derivation_of, Says};

use crate::bar::{Bar, Guard};
use crate::ends::Ends;
use crate::reader::Reader;
use crate::reader::lines::second_state;
use crate::tags::rule_tag;
use facts::State;
use table::Table;
use text::Line;
use verdict::{Rule, SlipFault};

/// The most rule lines above each other, the first and the last counted.
const MAX_DEPTH: u8 = 80;

/// Derivations over a table, of at most `left` lines above each other.
///
/// The reader and the bar stay parameters of their own: a guard puts the bar back at every way out, so it is lent and not
/// copied, and each call says that it is then as it was.
#[derive(Clone, Copy)]
pub(crate) struct Derivations<'t> {
    table: &'t Table,
    left: u8,
}

impl Derivations<'_> {
    /// The ends of a whole derivation, which begins with the next line.
    pub(crate) fn whole(
        table: &Table,
        reader: &mut Reader,
        bar: &mut Bar,
    ) -> Result<Ends, SlipFault>
        ensures reads { Says ends_of result (cursor_of reader.new) (derivation (table_of table.now) 80 (bar_of bar.old) (cursor_of reader.old)) }
        ensures bar { bar.new ≡ bar.old }
    {
        let all = Derivations {
            table,
            left: MAX_DEPTH,
        };
        all.read(reader, bar)
    }

    /// The ends of the derivation that begins with the next line.
    #[cycle(six_rules)]
    fn read(self, reader: &mut Reader, bar: &mut Bar) -> Result<Ends, SlipFault>
        ensures reads { Says ends_of result (cursor_of reader.new) (derivation_of self.entry (bar_of bar.old) (cursor_of reader.old)) }
        ensures bar { bar.new ≡ bar.old }
    {
        let at = reader.number();
        let Some(line) = reader.next_line() else {
            return Err(SlipFault::EndsEarly(at));
        };
        let rule = rule_tag(&line)?;
        if self.left == 0 {
            return Err(SlipFault::TooDeep(line.number));
        }
        let below = Derivations {
            left: self.left - 1,
            ..self
        };
        below.by_rule(rule, &line, reader, bar)
    }

    /// The ends of the derivation whose first line is this one; these are for its premises.
    #[cycle(six_rules)]
    fn by_rule(
        self,
        rule: Rule,
        line: &Line,
        reader: &mut Reader,
        bar: &mut Bar,
    ) -> Result<Ends, SlipFault>
        ensures reads { Says ends_of result (cursor_of reader.new) (by_rule (table_of self.entry.table.now) rule (derivation_of self.entry) (bar_of bar.old) line.now.number (fields line.now.text.now) (cursor_of reader.old)) }
        ensures bar { bar.new ≡ bar.old }
    {
        // The rules are closed: an enum and a match, and no table of functions.
        match rule {
            Rule::Halt => Ok(nothing_done()),
            Rule::Apply => reader.apply(self.table, line, bar),
            Rule::Compose => self.compose(line, reader, bar),
            Rule::Weaken => self.weaken(line, reader, bar),
            Rule::Shrink => self.shrink(line, reader, bar),
            Rule::Frame => self.frame(line, reader, bar),
        }
    }

    /// Two derivations, the second from where the first ends.
    #[cycle(six_rules)]
    fn compose(self, line: &Line, reader: &mut Reader, bar: &mut Bar) -> Result<Ends, SlipFault>
        ensures reads { Says ends_of result (cursor_of reader.new) (compose (derivation_of self.entry) (bar_of bar.old) line.now.number (cursor_of reader.old)) }
        ensures bar { bar.new ≡ bar.old }
    {
        let (first, second) = self.premises(reader, bar)?;
        if !first.end.covers(&second.opening) {
            return Err(SlipFault::ComposeUncovered(line.number));
        }
        Ok(Ends {
            opening: first.opening,
            end: second.end,
        })
    }

    /// The two premises of a C line.
    #[cycle(six_rules)]
    fn premises(self, reader: &mut Reader, bar: &mut Bar) -> Result<(Ends, Ends), SlipFault>
        ensures reads { Says two_ends result (cursor_of reader.new) (premises (derivation_of self.entry) (bar_of bar.old) (cursor_of reader.old)) }
        ensures bar { bar.new ≡ bar.old }
    {
        let first = self.read(reader, bar)?;
        let second = self.read(reader, bar)?;
        Ok((first, second))
    }

    /// An opening that covers the premise's.
    #[cycle(six_rules)]
    fn weaken(self, line: &Line, reader: &mut Reader, bar: &mut Bar) -> Result<Ends, SlipFault>
        ensures reads { Says ends_of result (cursor_of reader.new) (second_state (table_of self.entry.table.now) line.now.number (fields line.now.text.now) (λ P. weaken (derivation_of self.entry) (bar_of bar.old) line.now.number P (cursor_of reader.old))) }
        ensures bar { bar.new ≡ bar.old }
    {
        let opening = second_state(self.table, line)?;
        let inner = self.read(reader, bar)?;
        if !opening.covers(&inner.opening) {
            return Err(SlipFault::WeakenUncovered(line.number));
        }
        Ok(Ends {
            opening,
            end: inner.end,
        })
    }

    /// An end that the premise's covers.
    #[cycle(six_rules)]
    fn shrink(self, line: &Line, reader: &mut Reader, bar: &mut Bar) -> Result<Ends, SlipFault>
        ensures reads { Says ends_of result (cursor_of reader.new) (second_state (table_of self.entry.table.now) line.now.number (fields line.now.text.now) (λ Q. shrink (derivation_of self.entry) (bar_of bar.old) line.now.number Q (cursor_of reader.old))) }
        ensures bar { bar.new ≡ bar.old }
    {
        let less = second_state(self.table, line)?;
        let Ends { opening, end } = self.read(reader, bar)?;
        if !end.covers(&less) {
            return Err(SlipFault::ShrinkUncovered(line.number));
        }
        Ok(Ends { opening, end: less })
    }

    /// A state beside the premise, whose facts are barred while that is read.
    #[cycle(six_rules)]
    fn frame(self, line: &Line, reader: &mut Reader, bar: &mut Bar) -> Result<Ends, SlipFault>
        ensures reads { Says ends_of result (cursor_of reader.new) (second_state (table_of self.entry.table.now) line.now.number (fields line.now.text.now) (λ R. frame (derivation_of self.entry) (bar_of bar.old) line.now.number R (cursor_of reader.old))) }
        ensures bar { bar.new ≡ bar.old }
    {
        let beside = second_state(self.table, line)?;
        let guard = Guard::over(bar);
        guard.bar.add(&beside);
        let premise = self.read(reader, guard.bar)?;
        if beside.shares(&premise.opening) || beside.shares(&premise.end) {
            return Err(SlipFault::FrameNamed(line.number));
        }
        Ok(Ends {
            opening: premise.opening.overridden(&beside),
            end: premise.end.overridden(&beside),
        })
    }
}

/// From nothing to nothing.
fn nothing_done() -> Ends
    ensures value { ends_of result ≡ record { opening = nothing; end = nothing } }
{
    let empty = State::empty();
    Ends {
        opening: empty,
        end: empty,
    }
}
