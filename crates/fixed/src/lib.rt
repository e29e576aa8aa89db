// A list of at most N items in a fixed table, with no heap: the ready list, queues and receivers are made of it.
// Also (places.rt) a write to a table, and a change of what stands in it, where it has the place.
#![tactic(auto)]

ghost use Rattle.std.specs.Prelude.{◌≡◌, ℕ, ◌≤◌, length};

mod edits;
mod places;

pub use places::{edit, write};
use std::alloc::AllocError;

// Not the kit's `ArrayVec`: this type is public and promises `Copy`, which that isn't, and that needs `T: Default` for the places
// that are not in use.
// No `impl Model`: for a `Copy` type it needs an inverse of the view, and the items forget what stands in those places.
#[derive(Copy)]
pub struct FixedList<T, const N: usize> {
    slots: [T; N],
    len: usize,
    ghost whole: { length slots ≡ N },
    ghost within: { len ≤ N },
}

// Written out: a derive of `Clone` is refused over ghost fields and a type parameter.
impl<T: Copy, const N: usize> Clone for FixedList<T, N> {
    ghost is_clone = { λ x y. y ≡ x };

    ghost is_infallible = { λ _. Unit {0} };

    fn clone(&self) -> Result<FixedList<T, N>, AllocError> {
        Ok(*self)
    }
}
