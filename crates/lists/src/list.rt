// What is done with a list.
ghost use Rattle.std.specs.Prelude.{◌≡◌, ◌<◌, ◌≤◌, [], ◌∷◌, ◌++◌, length, MatchOption};
ghost use Rattle.std.specs.Cmp.{on_per};
ghost use Rattle.std.specs.Cmp.Lexicographic.{lists_per, pointwise};
ghost use Rattle.lists.specs.Lists.{items};

use crate::up_to::UpTo;

impl<T: Copy, const N: usize> UpTo<T, N> {
    // No items; `blank` lies where none is.
    pub fn new(blank: T) -> UpTo<T, N>
        ensures { items result ≡ [] }
    {
        UpTo {
            slots: [blank; N],
            len: 0,
        }
    }

    // The items of a slice, which are not too many.
    pub fn of(from: &[T], blank: T) -> UpTo<T, N>
        requires { length from.now ≤ N }
        ensures { items result ≡ from.now }
    {
        let mut slots = [blank; N];
        slots[..from.len()].copy_from_slice(from);
        UpTo {
            slots,
            len: from.len(),
        }
    }

    // The items of a slice; absent exactly where they are too many.
    pub fn copied(from: &[T], blank: T) -> Option<UpTo<T, N>>
        ensures { MatchOption result (N < length from.now) (λ l. items l ≡ from.now) }
    {
        if from.len() > N {
            return None;
        }
        Some(UpTo::of(from, blank))
    }

    pub fn len(&self) -> usize
        ensures value { result ≡ length (items self.now) }
        ensures few { result ≤ N }
    {
        self.as_slice().len()
    }

    pub fn as_slice(&self) -> &[T]
        ensures { result.now ≡ items self.now }
    {
        &self.slots[..self.len]
    }

    // One item more, at the end.
    pub fn push(&mut self, item: T)
        requires { length (items self.old) < N }
        ensures { items self.new ≡ items self.old ++ (item ∷ []) }
    {
        self.slots[self.len] = item;
        self.len += 1;
    }

    // The last item leaves; absent exactly where there is none.
    pub fn pop(&mut self) -> Option<T>
        ensures { MatchOption result ((items self.old ≡ []) × (items self.new ≡ [])) (λ item. items self.old ≡ items self.new ++ (item ∷ [])) }
    {
        if self.len == 0 {
            return None;
        }
        self.len -= 1;
        Some(self.slots[self.len])
    }
}

// Lists are equal where their items are, and what lies past them does not count, as in a derive it would.
impl<T: Copy + PartialEq, const N: usize> PartialEq for UpTo<T, N> {
    ghost eq = { λ a b. pointwise T.PartialEq.eq (items a) (items b) };

    ghost laws = { on_per items (lists_per T.PartialEq.laws) };

    fn eq(&self, other: &UpTo<T, N>) -> bool
        ensures { result ≡ pointwise T.PartialEq.eq (items self.now) (items other.now) }
    {
        self.as_slice() == other.as_slice()
    }
}
