// How messages are laid into memory, and taken out.
ghost use Rattle.std.specs.Prelude.{◌≡◌, ◌+◌, ◌≤◌, length, None};
ghost use Rattle.store.specs.Meaning.{Allowed, with, without};
ghost use Rattle.packed_store.specs.Layout.{header_of, length_at, number_at, units_for};
ghost use Rattle.packed_store.specs.Inside.{Spot};
ghost use Rattle.packed_store.specs.Stored.{contents};

use crate::arena::PackedStore;

pub(crate) const HEADER: usize = 16;

// The number in the first four bytes, lowest first, then the length; the rest is 0.
fn header(number: u32, length: u8) -> [u8; HEADER]
    ensures { result ≡ header_of number length }
{
    let [a, b, c, d] = number.to_le_bytes();
    [a, b, c, d, length, 0, 0, 0, 0, 0, 0, 0, 0, 0, 0, 0]
}

impl PackedStore {
    // Lays a message behind all others.
    pub(crate) fn append(&mut self, number: u32, bytes: &[u8])
        requires fresh { contents self.old number ≡ None }
        requires allowed { Allowed (length bytes.now) }
        requires room { self.old.used + units_for (length bytes.now) ≤ 4096 }
        ensures holds { contents self.new ≡ with (contents self.old) number bytes.now }
        ensures counts { self.new.used ≡ self.old.used + units_for (length bytes.now) }
    {
        let start = self.used + HEADER;
        let end = start + bytes.len();
        self.memory[self.used..start].copy_from_slice(&header(number, bytes.len() as u8));
        self.memory[start..end].copy_from_slice(bytes);
        self.used = end;
    }

    // Takes the message at a place out: what lies behind it moves down over it.
    pub(crate) fn remove_at(&mut self, at: usize)
        requires { Spot self.old.memory self.old.used at }
        ensures holds { contents self.new ≡ without (contents self.old) (number_at self.old.memory at) }
        ensures counts { self.new.used + units_for (length_at self.old.memory at) ≡ self.old.used }
    {
        let size = HEADER + self.length_at(at);
        self.memory[at..self.used].copy_within(size.., 0);
        self.used -= size;
    }
}
