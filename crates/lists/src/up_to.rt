// The memory of a list.
ghost use Rattle.std.specs.Prelude.{◌≡◌, ◌≤◌, length, ⊤};

use std::alloc::AllocError;

// A list of at most N items; what lies past them is open. Where rows and patterns are kept nothing may allocate, so the length stands beside
// the places, here and nowhere else.
pub struct UpTo<T, const N: usize> {
    pub(crate) slots: [T; N],
    pub(crate) len: usize,
    ghost long: { length slots ≡ N },
    ghost few: { len ≤ N },
}

// By hand: over a ghost field of a generic struct neither is derived.
impl<T: Copy, const N: usize> Copy for UpTo<T, N> {}

impl<T: Copy, const N: usize> Clone for UpTo<T, N> {
    ghost is_clone = { λ x y. y ≡ x };

    ghost is_infallible = { λ _. ⊤ };

    fn clone(&self) -> Result<UpTo<T, N>, AllocError> {
        Ok(*self)
    }
}
