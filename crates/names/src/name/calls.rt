//! Names read, compared and found.
ghost use Rattle.std.specs.Prelude.{◌≡◌, ℕ, true, List, [], map, IfOk, position};
ghost use Rattle.std.specs.List.{list_all};
ghost use Rattle.std.specs.Str.{bytes_eq};
ghost use Rattle.facts.specs.Models.{mapped_ok};
ghost use Rattle.names.specs.Names.{good_name, in_name, found_at, FirstOf, name_field};
ghost use Rattle.names.specs.Models.{spelling};

use crate::name::{MAX_NAME, Name};
use filled::Filled;
use text::{Place, TextFault};

/// A row that has a name.
pub trait Named {
    ghost title: { Self → List ℕ };

    /// The row's name.
    fn name(&self) -> &[u8]
        ensures value { result.now ≡ title self.now };
}

/// The place of the first row of this name.
pub fn find<R: Named>(rows: &[R], name: &[u8]) -> Option<usize>
    ensures value { result ≡ found_at name.now (map R.Named.title rows.now) }
    ensures means { FirstOf (map R.Named.title rows.now) name.now result }
{
    first_row(rows, name)
}

/// The same in the library's words, apart from `find`, so that a bug in the search is refused at the search.
fn first_row<R: Named>(rows: &[R], name: &[u8]) -> Option<usize>
    ensures value { result ≡ position (λ row. bytes_eq (R.Named.title row) name.now) rows.now }
{
    rows.iter().position(|row| row.name() == name)
}

impl Name {
    /// The name of no bytes, for a row that is not used.
    pub fn empty() -> Name
        ensures value { spelling result ≡ [] }
    {
        Name {
            bytes: Filled::over([0; MAX_NAME]),
        }
    }

    /// The name in a field, or a refusal where it is not one.
    pub fn read(field: &[u8], at: Place) -> Result<Name, TextFault>
        ensures value { mapped_ok spelling result ≡ name_field field.now at }
        ensures good { IfOk result (λ n. good_name (spelling n) ≡ true) }
    {
        if !is_name(field) {
            return Err(TextFault::BadName(at));
        }
        let Ok(bytes) = Filled::copied(field, 0) else {
            unreachable()
        };
        Ok(Name { bytes })
    }

    /// The name's bytes.
    pub fn text(&self) -> &[u8]
        ensures value { result.now ≡ spelling self.now }
    {
        self.bytes.as_slice()
    }
}

/// Whether the bytes are a name.
#[tactic(auto, using(crate::proofs::Bytes::all_each))]
pub(crate) fn is_name(s: &[u8]) -> bool
    ensures value { result ≡ good_name s.now }
{
    (1..=MAX_NAME).contains(&s.len()) && s[0].is_ascii_alphabetic() && all_in_name(s)
}

/// Whether each byte is one that a name may have.
fn all_in_name(s: &[u8]) -> bool
    ensures value { result ≡ list_all in_name s.now }
{
    s.iter().all(|b| b.is_ascii_alphanumeric() || *b == b'_')
}
