// What is done with such a list, by its items.
ghost use Rattle.std.specs.Prelude.{◌≡◌, ◌<◌, ◌≤◌, [], ◌∷◌, ◌++◌, drop, length, slice_index_or};
ghost use Rattle.fixed.specs.Items.{items};
ghost use Rattle.std.specs.List.{insert, remove};

use crate::FixedList;

impl<T: Copy, const N: usize> FixedList<T, N> {
    // The empty list; `blank` stands in the places that are not in use.
    pub fn empty(blank: T) -> Self
        ensures { items result ≡ [] }
    {
        FixedList {
            slots: [blank; N],
            len: 0,
        }
    }

    // How many items there are.
    pub fn len(&self) -> usize
        ensures { result ≡ length (items self.now) }
    {
        self.as_slice().len()
    }

    // The items, first to last.
    pub fn as_slice(&self) -> &[T]
        ensures { result.now ≡ items self.now }
    {
        &self.slots[..self.len]
    }

    // The item at a place. Only `Roster::ready_at` calls it by now: it is public, so it stays.
    pub fn at(&self, i: usize) -> T
        requires { i < length (items self.now) }
        ensures { (d : T) → result ≡ slice_index_or (items self.now) i d }
    {
        self.as_slice()[i]
    }

    // One item more, at the end.
    pub fn push(&mut self, x: T)
        requires { length (items self.old) < N }
        ensures { items self.new ≡ items self.old ++ (x ∷ []) }
    {
        self.slots[self.len] = x;
        self.len += 1;
    }

    // One item more, at a place; those from there on move up. By a loop: with `copy_within`, which moves blocks of any length
    // either way, a blocking exchange costs some 45 instructions more.
    pub fn insert(&mut self, i: usize, x: T)
        requires place { i ≤ length (items self.old) }
        requires room { length (items self.old) < N }
        ensures { items self.new ≡ insert (items self.old) i x }
    {
        let last = self.len;
        let mut carried = x;
        for k in i..last {
            let next = self.slots[k];
            self.slots[k] = carried;
            carried = next;
        }
        self.slots[last] = carried;
        self.len = last + 1;
    }

    // The item at a place leaves; those behind it move down, by a loop as in `insert`.
    pub fn remove(&mut self, i: usize)
        requires { i < length (items self.old) }
        ensures { items self.new ≡ remove (items self.old) i }
    {
        let last = self.len - 1;
        for j in i..last {
            self.slots[j] = self.slots[j + 1];
        }
        self.len = last;
    }

    // The first item leaves, if there is one.
    pub fn remove_first(&mut self)
        ensures { items self.new ≡ drop 1 (items self.old) }
    {
        if self.len > 0 {
            self.remove(0);
        }
    }
}
