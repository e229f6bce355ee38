// A row and its methods.
ghost use Rattle.std.specs.Prelude.{◌≡◌, ◌+◌, ◌-◌, ◌<◌, ◌≤◌, ◌==◌, ◌↔◌, [], ◌∷◌, ◌++◌, length, take, IsOk, IfOk, OnOk, OnErr, ⊤};
ghost use Rattle.std.specs.List.{slice_get};

use std::alloc::AllocError;
use std::error::Error;
use std::fmt;

// The row had no room.
#[derive(Clone, Copy, Debug, PartialEq, Eq)]
pub struct Full;

impl Error for Full {}

impl fmt::Display for Full {
    fn fmt<W: fmt::Write>(&self, f: &mut fmt::Formatter<W>) -> fmt::Result {
        f.write_str("the row has no room")
    }
}

// At most N items; the slots from `len` on hold anything.
pub struct Row<T, const N: usize> {
    slots: [T; N],
    len: usize,
    ghost within: { len ≤ N },
    ghost whole: { length slots ≡ N },
}

// By hand: a derive of Clone does not reach over ghost fields where T may own memory.
impl<T: Copy, const N: usize> Copy for Row<T, N> {}

impl<T: Copy, const N: usize> Clone for Row<T, N> {
    ghost is_clone = { λ row copy. copy ≡ row };

    ghost is_infallible = { λ _. ⊤ };

    fn clone(&self) -> Result<Row<T, N>, AllocError> {
        Ok(*self)
    }
}

impl<T: Copy, const N: usize> Row<T, N> {
    ghost use Rattle.rows.specs.Rows.{items_of};

    // A row with no items.
    pub fn new() -> Row<T, N>
    where
        T: Default,
        ensures items { items_of result ≡ [] }
    {
        Row {
            slots: [T::default(); N],
            len: 0,
        }
    }

    // The row of these items, if they are at most N.
    pub fn from_slice(items: &[T]) -> Result<Row<T, N>, Full>
    where
        T: Default,
        ensures ok { IsOk result ↔ (length items.now ≤ N) }
        ensures items { IfOk result (λ row. items_of row ≡ items.now) }
    {
        let len = items.len();
        if len > N {
            return Err(Full);
        }
        let mut slots = [T::default(); N];
        slots[..len].copy_from_slice(items);
        Ok(Row { slots, len })
    }

    pub fn len(&self) -> usize
        ensures value { result ≡ length (items_of self.now) }
        ensures within { result ≤ N }
    {
        self.as_slice().len()
    }

    pub fn is_empty(&self) -> bool
        ensures value { result ≡ (length (items_of self.now) == 0) }
    {
        self.as_slice().is_empty()
    }

    pub fn is_full(&self) -> bool
        ensures value { result ≡ (length (items_of self.now) == N) }
    {
        self.len() == N
    }

    pub fn as_slice(&self) -> &[T]
        ensures items { result.now ≡ items_of self.now }
        ensures within { length result.now ≤ N }
    {
        &self.slots[..self.len]
    }

    // One item more, at the end; a full row stays as it was.
    pub fn push(&mut self, item: T) -> Result<(), Full>
        ensures room { IsOk result ↔ (length (items_of self.old) < N) }
        ensures ok { OnOk result (items_of self.new ≡ items_of self.old ++ item ∷ []) }
        ensures err { OnErr result (self.new ≡ self.old) }
    {
        if self.is_full() {
            return Err(Full);
        }
        self.slots[self.len] = item;
        self.len += 1;
        Ok(())
    }

    // Takes the last item away; an empty row stays as it was.
    pub fn pop(&mut self) -> Option<T>
        ensures last { result ≡ slice_get (items_of self.old) (length (items_of self.old) - 1) }
        ensures items { items_of self.new ≡ take (length (items_of self.old) - 1) (items_of self.old) }
    {
        if self.len == 0 {
            return None;
        }
        self.len -= 1;
        Some(self.slots[self.len])
    }

    pub fn last(&self) -> Option<T>
        ensures value { result ≡ slice_get (items_of self.now) (length (items_of self.now) - 1) }
    {
        self.as_slice().last().copied()
    }
}
