//! Arrays made, asked and added to.
ghost use Rattle.std.specs.Prelude.{◌≡◌, ◌≤◌, length, [], nat_le};
ghost use Rattle.filled.specs.Items.{items_of, Copies, Pushes};

use crate::{Filled, Full};

impl<T: Copy, const N: usize> Filled<T, N> {
    /// No items, over places that hold anything.
    pub fn over(places: [T; N]) -> Self
        ensures value { items_of result ≡ [] }
    {
        Filled { places, len: 0 }
    }

    /// The number of items.
    pub fn len(&self) -> usize
        ensures value { result ≡ length (items_of self.now) }
        ensures few { result ≤ N }
    {
        self.as_slice().len()
    }

    /// Whether no place is left.
    pub fn is_full(&self) -> bool
        ensures value { result ≡ nat_le N (length (items_of self.now)) }
    {
        self.len >= N
    }

    /// The items.
    pub fn as_slice(&self) -> &[T]
        ensures value { result.now ≡ items_of self.now }
        ensures few { length result.now ≤ N }
    {
        &self.places()[..self.len]
    }

    /// All places: the items, and then those that count for nothing.
    pub fn places(&self) -> &[T]
        ensures value { result.now ≡ self.now.places }
        ensures all { length result.now ≡ N }
    {
        self.places.as_slice()
    }

    /// One item more at the end, or a refusal that changes nothing.
    pub fn push(&mut self, item: T) -> Result<(), Full>
        ensures after { Pushes N (items_of self.old) item result (items_of self.new) }
    {
        if self.is_full() {
            return Err(Full);
        }
        self.places[self.len] = item;
        // The one count of all rows: there is no heap for a `Vec`, and the toolchain's vector of a fixed size is not `Copy`.
        self.len += 1;
        Ok(())
    }

    /// These items, before places that hold `rest`; or a refusal where there are more than `N`.
    pub fn copied(items: &[T], rest: T) -> Result<Self, Full>
        ensures value { Copies N items.now result }
    {
        let len = items.len();
        if len > N {
            return Err(Full);
        }
        let mut places = [rest; N];
        places[..len].copy_from_slice(items);
        Ok(Filled { places, len })
    }
}
