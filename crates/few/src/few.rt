ghost use Rattle.std.specs.Prelude.{◌≡◌, ◌==◌, ◌<◌, ◌≤◌, ◌↔◌, IsTrue, [], ◌∷◌, ◌++◌, length, take, drop, ◌+◌, ◌-◌};

use crate::blank::Blank;
use std::alloc::AllocError;
use std::fmt;
use std::marker::Model;
use std::ops::DerefSlice;

// A list of at most N items. The places past its end are blank, so one list is laid out in one way.
pub struct Few<T: Blank, const N: usize> {
    slots: [T; N],
    len: usize,
}

impl<T: Blank, const N: usize> Model for Few<T, N> {
    ghost use Rattle.std.specs.Prelude.{◌≡◌, ◌≤◌, List, length, take};
    ghost use Rattle.few.specs.Rows.{filled_up, restores};

    ghost Value = { List T };

    ghost view = { λ a. take a.len a.slots };

    ghost invariant = { λ a. (length a.slots ≡ N) × ((a.len ≤ N) × (a.slots ≡ filled_up N T.blank (take a.len a.slots))) };

    ghost inverse = { λ xs. record { slots = filled_up N T.blank xs; len = length xs } };

    ghost inverse_ok = { λ a h. let r = restores N T.blank a.len a.slots h.0 h.1.0 h.1.1 in λ i. record { slots = r.0 i; len = r.1 i } };
}

// By hand: a derived `clone` copies place by place, and would have to prove of the copy again what the type says.
impl<T: Blank, const N: usize> Copy for Few<T, N> {}

impl<T: Blank, const N: usize> Clone for Few<T, N> {
    ghost use Rattle.std.specs.Prelude.{◌≡◌, ⊤};

    ghost is_clone = { λ v w. w ≡ v };

    ghost is_infallible = { λ _. ⊤ };

    fn clone(&self) -> Result<Self, AllocError> {
        Ok(*self)
    }
}

// By hand: a derived `==` would compare the places, those past the end too.
impl<T: Blank + PartialEq, const N: usize> PartialEq for Few<T, N> {
    ghost use Rattle.std.specs.Cmp.Lexicographic.{pointwise, lists_per};

    ghost eq = { pointwise T.eq };

    ghost laws = { lists_per T.laws };

    fn eq(&self, other: &Self) -> bool {
        self.as_slice() == other.as_slice()
    }
}

impl<T: Blank + Eq, const N: usize> Eq for Few<T, N> {
    ghost use Rattle.std.specs.Cmp.Lexicographic.{lists_equiv};

    ghost laws = { lists_equiv T.Eq.laws };
}

impl<T: Blank + fmt::Debug, const N: usize> fmt::Debug for Few<T, N> {
    fn fmt<W: fmt::Write>(&self, f: &mut fmt::Formatter<W>) -> fmt::Result {
        self.as_slice().fmt(f)
    }
}

impl<T: Blank, const N: usize> DerefSlice for Few<T, N> {
    type Elem = T;

    ghost deref_gives = { λ v xs. (xs ≡ v) × (length xs ≤ N) };

    fn deref(&self) -> &[T] {
        self.as_slice()
    }
}

impl<T: Blank, const N: usize> Few<T, N> {
    pub fn new() -> Few<T, N>
        ensures { result ≡ [] }
    {
        Few {
            slots: [T::blank(); N],
            len: 0,
        }
    }

    pub fn as_slice(&self) -> &[T]
        ensures items { result.now ≡ self.now }
        ensures few { length result.now ≤ N }
    {
        &self.slots[..self.len]
    }

    pub fn len(&self) -> usize
        ensures value { result ≡ length self.now }
        ensures few { result ≤ N }
    {
        self.as_slice().len()
    }

    pub fn is_empty(&self) -> bool
        ensures { result ≡ (length self.now == 0) }
    {
        self.len() == 0
    }

    pub fn is_full(&self) -> bool
        ensures full { IsTrue result ↔ (length self.now ≡ N) }
        ensures fits { length self.now ≤ N }
    {
        self.len == N
    }

    // One item more, behind the others.
    pub fn push(&mut self, item: T)
        requires { length self.old < N }
        ensures { self.new ≡ self.old ++ (item ∷ []) }
    {
        let at = self.len;
        self.slots[at] = item;
        self.len = at + 1;
    }

    // One item more, behind the others; where there is no room, the first of them goes.
    pub fn push_last(&mut self, item: T)
        requires { 0 < N }
        ensures { self.new ≡ drop (length self.old + 1 - N) (self.old ++ (item ∷ [])) }
    {
        if self.len < N {
            self.push(item);
            return;
        }
        self.slots.rotate_left(1);
        let last = N - 1;
        self.slots[last] = item;
    }

    // More items, behind the others.
    pub fn extend_from_slice(&mut self, items: &[T])
        requires { length self.old + length items.now ≤ N }
        ensures { self.new ≡ self.old ++ items.now }
    {
        let at = self.len;
        let end = at + items.len();
        let slots = &mut self.slots[..];
        slots[at..end].copy_from_slice(items);
        self.len = end;
    }

    pub fn clear(&mut self)
        ensures { self.new ≡ [] }
    {
        *self = Few::new();
    }

    // The first N of the items.
    pub fn first_of(items: &[T]) -> Few<T, N>
        ensures { result ≡ take N items.now }
    {
        let mut few = Few::new();
        few.extend_from_slice(&items[..items.len().min(N)]);
        few
    }
}
