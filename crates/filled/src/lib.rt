//! Arrays filled from the front: up to a fixed number of items, in memory of a fixed size.
//!
//! Tables, lists and plans hold their rows so. Nothing here allocates, and no call has a precondition.
#![tactic(auto)]

ghost use Rattle.std.specs.Prelude.{◌≡◌, ◌≤◌, length, ⊤};

mod calls;

use std::alloc::AllocError;

/// Up to `N` items, in their order, at the front of an array. What stands in the places after them counts for nothing.
// No `impl Model`: a `Copy` struct that holds a value with one is not copied when it is passed on and used again.
pub struct Filled<T, const N: usize> {
    places: [T; N],
    len: usize,
    ghost full: { length places ≡ N },
    ghost few: { len ≤ N },
}

impl<T: Copy, const N: usize> Copy for Filled<T, N> {}

// By hand, since no derive goes over a ghost field of a generic struct.
impl<T: Copy, const N: usize> Clone for Filled<T, N> {
    ghost is_clone = { λ x y. y ≡ x };

    ghost is_infallible = { λ _. ⊤ };

    fn clone(&self) -> Result<Self, AllocError> {
        Ok(*self)
    }
}

/// No place is left.
#[derive(Clone, Copy, PartialEq, Eq, Debug)]
pub struct Full;
