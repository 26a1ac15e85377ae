//! The look over a whole text, before any line is read.
ghost use Rattle.std.specs.Prelude.{◌≡◌, ◌+◌, ◌≤◌};
ghost use Rattle.text.specs.Chains.{Kept};
ghost use Rattle.text.specs.Looks.{kind_of, placed, looked, Looks};

use crate::fault::{Place, TextFault};
use crate::lines::{NEWLINE, TAB};

/// The most bytes that a text has.
pub const MAX_BYTES: usize = 1048576;

/// The faults of a whole text: too long; the first byte outside 20 to 7E, 09 and 0A; a last line that is not ended.
pub fn look(text: &[u8]) -> Result<(), TextFault>
    ensures value { result ≡ looked text.now }
    ensures means { Looks text.now result }
{
    if text.len() > MAX_BYTES {
        return Err(TextFault::TooLong);
    }
    let mut at = Place { line: 1, field: 1 };
    // A loop: over `try_fold` the proof did not close.
    for b in text {
        pass(&mut at, *b)?;
    }
    if text.last().is_some_and(|b| *b != NEWLINE) {
        return Err(TextFault::Unended(at.line));
    }
    Ok(())
}

/// Goes on from the byte b, which stands here, to where the next one stands.
// In place: a place handed back inside a `Result` is written to memory and read back for each byte, in twice the time.
fn pass(at: &mut Place, b: u8) -> Result<(), TextFault>
    requires { (at.old.line ≤ 1048576) × (at.old.field ≤ 1048576) }
    ensures after { Kept result (placed (kind_of b) at.old) at.new }
    ensures near { (at.new.line ≤ at.old.line + 1) × (at.new.field ≤ at.old.field + 1) }
{
    match b {
        NEWLINE => {
            at.line += 1;
            at.field = 1;
        }
        TAB => at.field += 1,
        0x20..=0x7E => {}
        _ => return Err(TextFault::BadByte(*at)),
    }
    Ok(())
}
