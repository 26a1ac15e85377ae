//! State fields, literal by literal.
ghost use Rattle.std.specs.Prelude.{◌≡◌, true, map, length, IfOk};
ghost use Rattle.facts.specs.States.{nothing, within};
ghost use Rattle.facts.specs.Models.{row, mapped_ok};
ghost use Rattle.text.specs.Chains.{Kept};
ghost use Rattle.text.specs.Lines.{parts};
ghost use Rattle.names.specs.Literals.{sign_of, name_of, literal, literals, state_field};
ghost use Rattle.names.specs.Spelling.{SpellsExactly};

use crate::name::calls::is_name;
use crate::name::{Named, find};
use facts::{LiteralFault, State};
use text::{Place, TextFault, cut};

/// The field of the empty state.
const EMPTY: &[u8] = b".";

/// What parts two literals.
const SPACE: u8 = b' ';

/// The state in a field, over facts whose rows have these names, or the first literal's fault.
pub fn read_state<R: Named>(field: &[u8], facts: &[R], at: Place) -> Result<State, TextFault>
    ensures value { mapped_ok row result ≡ state_field (map R.Named.title facts.now) at field.now }
    ensures grammar { SpellsExactly (map R.Named.title facts.now) field.now (mapped_ok row result) }
    ensures within { IfOk result (λ s. within (length facts.now) (row s) ≡ true) }
{
    if field == EMPTY {
        return Ok(State::empty());
    }
    read_literals(field, facts, at)
}

/// The literals in turn.
fn read_literals<R: Named>(field: &[u8], facts: &[R], at: Place) -> Result<State, TextFault>
    ensures value { mapped_ok row result ≡ literals (map R.Named.title facts.now) at (parts 32 field.now) nothing }
{
    let mut state = State::empty();
    let mut rest = Some(field);
    // A loop, and the state changed in place: `try_fold` hands it on by value, in half as much time again and more.
    while let Some(s) = rest {
        let (literal, more) = cut(s, SPACE);
        add_literal(literal, facts, at, &mut state)?;
        rest = more;
    }
    Ok(state)
}

/// One literal more, or its fault.
fn add_literal<R: Named>(
    l: &[u8],
    facts: &[R],
    at: Place,
    state: &mut State,
) -> Result<(), TextFault>
    ensures after { Kept result (literal (map R.Named.title facts.now) at l.now (row state.old)) (row state.new) }
{
    let (sign, name) = sign_and_name(l);
    if !is_name(name) {
        return Err(TextFault::BadName(at));
    }
    let holds = sign.ok_or(TextFault::NoSign(at))?;
    let fact = find(facts, name).ok_or(TextFault::UnknownName(at))?;
    match state.add(fact, holds) {
        Ok(()) => Ok(()),
        Err(LiteralFault::FactNamed) => Err(TextFault::FactTwice(at)),
        Err(LiteralFault::FactPast) => Err(TextFault::UnknownName(at)),
    }
}

/// The sign that a literal begins with, if any (yes for +), and its name.
fn sign_and_name(l: &[u8]) -> (Option<bool>, &[u8])
    ensures sign { result.0 ≡ sign_of l.now }
    ensures name { result.1.now ≡ name_of l.now }
{
    match l {
        [b'+', name @ ..] => (Some(true), name),
        [b'-', name @ ..] => (Some(false), name),
        name => (None, name),
    }
}
