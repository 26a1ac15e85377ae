//! Names, and the search among rows that have one.
ghost use Rattle.std.specs.Prelude.{◌≤◌, length};
ghost use Rattle.filled.specs.Items.{items_of};

pub(crate) mod calls;

pub use calls::{Named, find};
use filled::Filled;

/// The most bytes that a name has.
pub const MAX_NAME: usize = 24;

/// Up to 24 bytes.
#[derive(Clone, Copy)]
pub struct Name {
    bytes: Filled<u8, MAX_NAME>,
    ghost short: { length (items_of bytes) ≤ 24 },
}
