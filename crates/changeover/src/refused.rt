//! A refused text told: the refusal, the line at fault, and marks under the field.
use crate::quit::Quit;
use crate::sentences::Fault;
use std::fmt;
use std::str::from_utf8;
use text::{Lines, Refusal};

const TAB: u8 = b'\t';

/// How many bytes of a line are written at once.
const PIECE: usize = 64;

/// What was read of a text, or the end of the program once its refusal is told after these words.
// It is lent and not handed on: a function that passes a table on by value clears and copies all its 78 KB again.
pub(crate) fn accepted<'r, T, F: Fault>(
    rt: &HostRuntime,
    words: &str,
    text: &[u8],
    read: &'r Result<T, F>,
) -> Result<&'r T, Quit> {
    match read {
        Ok(value) => Ok(value),
        Err(fault) => {
            tell(rt, words, text, *fault)?;
            Err(Quit::Told)
        }
    }
}

/// Prints the refusal of a text after these words, and then the line and field at fault.
pub(crate) fn tell(
    rt: &HostRuntime,
    words: &str,
    text: &[u8],
    fault: impl Fault,
) -> Result<(), Quit> {
    let Refusal {
        number,
        line,
        field,
    } = fault.into();
    println!(rt;
        "{words} {number} at line {line}, field {field}: {}",
        fault.sentence()
    )?;
    if let Some(line) = line_at(text, line) {
        println!(rt; "{}", Plain(line))?;
        println!(rt; "{}", Marks { line, field })?;
    }
    Ok(())
}

/// The line of this number, from 1; there is no line 0.
fn line_at(text: &[u8], number: u32) -> Option<&[u8]> {
    let earlier = usize::try_from(number.checked_sub(1)?).ok()?;
    Lines::of(text).nth(earlier)
}

/// The line, with "?" for each byte that no text may have.
#[derive(Clone, Copy)]
struct Plain<'a>(&'a [u8]);

impl fmt::Display for Plain<'_> {
    fn fmt<W: fmt::Write>(&self, f: &mut fmt::Formatter<W>) -> fmt::Result {
        write_kept(f, self.0, Kept::Shown, b'?')
    }
}

/// Marks that stand under the field of this number, from 1, or under the whole line for field 0. A tab stays a tab.
#[derive(Clone, Copy)]
struct Marks<'a> {
    line: &'a [u8],
    field: u32,
}

impl fmt::Display for Marks<'_> {
    fn fmt<W: fmt::Write>(&self, f: &mut fmt::Formatter<W>) -> fmt::Result {
        if self.field == 0 {
            return carets(f, self.line);
        }
        for (number, field) in (1..).zip(self.line.split(|b| *b == TAB)) {
            if number == self.field {
                return carets(f, field);
            }
            write_kept(f, field, Kept::Tabs, b' ')?;
            f.write_char('\t')?;
        }
        // The line has no such field: the caret stands after it.
        f.write_char('^')
    }
}

/// A caret under each byte but a tab, and one at least.
fn carets<W: fmt::Write>(f: &mut fmt::Formatter<W>, bytes: &[u8]) -> fmt::Result {
    write_kept(f, bytes, Kept::Tabs, b'^')?;
    if bytes.iter().all(|b| *b == TAB) {
        f.write_char('^')?;
    }
    Ok(())
}

/// Which bytes of a line are written as they are.
#[derive(Clone, Copy)]
enum Kept {
    /// Those that a text may have.
    Shown,
    Tabs,
}

impl Kept {
    fn keeps(self, b: u8) -> bool {
        match self {
            Kept::Shown => matches!(b, TAB | b' '..=b'~'),
            Kept::Tabs => b == TAB,
        }
    }
}

/// The bytes that are kept, and `other` in place of each that is not. They are written a piece at a time: a line may have a
/// million.
fn write_kept<W: fmt::Write>(
    f: &mut fmt::Formatter<W>,
    bytes: &[u8],
    kept: Kept,
    other: u8,
) -> fmt::Result {
    for piece in bytes.chunks(PIECE) {
        let mut row = [other; PIECE];
        for (place, b) in row.iter_mut().zip(piece) {
            if kept.keeps(*b) {
                *place = *b;
            }
        }
        let row = row.get(..piece.len()).unwrap_or(&row);
        f.write_str(from_utf8(row).unwrap_or("?"))?;
    }
    Ok(())
}
