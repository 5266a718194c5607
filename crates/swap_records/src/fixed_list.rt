// A list in fixed memory: room for N entries, of which the first few are in use.
ghost use Rattle.std.specs.Prelude.{◌≡◌, ◌<◌, [], ◌∷◌, ◌++◌, length, cond};

use std::marker::Model;

#[derive(Drop)]
pub struct FixedList<T: Copy, const N: usize> {
    entries: [T; N],
    len: usize,
}

// A clause sees the entries in use.
impl<T: Copy, const N: usize> Model for FixedList<T, N> {
    ghost use Rattle.std.specs.Prelude.{List, ◌≤◌, take};

    ghost Value = { List T };

    ghost view = { λ a. take a.len a.entries };

    ghost invariant = { λ a. a.len ≤ N };
}

impl<T: Copy, const N: usize> FixedList<T, N> {
    // None in use; `fill` stands in the room for them.
    pub fn new(fill: T) -> FixedList<T, N>
        ensures { result ≡ [] }
    {
        FixedList {
            entries: [fill; N],
            len: 0,
        }
    }

    pub fn clear(&mut self)
        ensures { self.new ≡ [] }
    {
        self.len = 0;
    }

    pub fn len(&self) -> usize
        ensures { result ≡ length self.now }
    {
        self.as_slice().len()
    }

    pub fn push(&mut self, x: T)
        requires { length self.old < N }
        ensures { self.new ≡ self.old ++ (x ∷ []) }
    {
        self.entries[self.len] = x;
        self.len += 1;
    }

    // One entry more where the flag says so. It is written in any case, which costs less than a branch.
    pub fn push_if(&mut self, b: bool, x: T)
        requires { length self.old < N }
        ensures { self.new ≡ self.old ++ cond b (x ∷ []) [] }
    {
        self.entries[self.len] = x;
        self.len += usize::from(b);
    }

    pub fn as_slice(&self) -> &[T]
        ensures { result.now ≡ self.now }
    {
        &self.entries[..self.len]
    }
}
