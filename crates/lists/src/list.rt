// A list of at most `N` elements in fixed memory: its value is the list of them.
// It needs no heap, so that to make one and to extend it cannot fail; what has no room is left out.
ghost use Rattle.std.specs.Prelude.{◌≡◌, ◌+◌, ◌<◌, ◌≤◌, [], ◌∷◌, ◌++◌, length, take, slice_set, nat_lt, if◌then◌else◌, Some, None};

use std::marker::Model;
use std::ops::DerefSlice;

// The first `len` elements are the list; what lies behind them has no meaning.
#[derive(Drop)]
pub struct FixedList<T: Copy + Default, const N: usize> {
    elements: [T; N],
    len: usize,
}

impl<T: Copy + Default, const N: usize> Model for FixedList<T, N> {
    ghost use Rattle.std.specs.Prelude.{◌≡◌, ◌≤◌, List, length, take};

    ghost Value = { List T };

    ghost view = { λ l. take l.len l.elements };

    ghost invariant = { λ l. (l.len ≤ N) × (length l.elements ≡ N) };
}

impl<T: Copy + Default, const N: usize> FixedList<T, N> {
    // No element.
    pub fn new() -> Self
        ensures { result ≡ [] }
    {
        FixedList {
            elements: [T::default(); N],
            len: 0,
        }
    }

    // These elements, if there is room for all of them.
    pub fn from_slice(elements: &[T]) -> Option<Self>
        ensures { result ≡ (if nat_lt N (length elements.now) then None else Some elements.now) }
    {
        if elements.len() > N {
            return None;
        }
        let mut list = Self::new();
        list.extend_from_slice(elements);
        Some(list)
    }

    // One element more, behind the others; a full list leaves it out.
    pub fn push(&mut self, element: T)
        ensures value { self.new ≡ take N (self.old ++ element ∷ []) }
        ensures whole { length self.old < N → self.new ≡ self.old ++ element ∷ [] }
    {
        if self.len < N {
            self.elements[self.len] = element;
            self.len += 1;
        }
    }

    // More elements, behind the others, as far as there is room.
    pub fn extend_from_slice(&mut self, more: &[T])
        ensures value { self.new ≡ take N (self.old ++ more.now) }
        ensures whole { length self.old + length more.now ≤ N → self.new ≡ self.old ++ more.now }
    {
        let fitting = more.len().min(N - self.len);
        let end = self.len + fitting;
        self.elements[..][self.len..end].copy_from_slice(&more[..fitting]);
        self.len = end;
    }

    // Another element in the place of one; past the end there is nothing to replace.
    pub fn set(&mut self, at: usize, element: T)
        ensures { self.new ≡ slice_set self.old at element }
    {
        if at < self.len {
            self.elements[at] = element;
        }
    }
}

// The elements: as a slice they are read, counted and searched.
impl<T: Copy + Default, const N: usize> DerefSlice for FixedList<T, N> {
    type Elem = T;

    ghost deref_gives = { λ list elements. (elements ≡ list) × (length elements ≤ N) };

    fn deref(&self) -> &[T] {
        &self.elements[..self.len]
    }
}
