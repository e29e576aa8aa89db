// A walk over the messages in memory, from header to header.
ghost use Rattle.std.specs.Prelude.{◌≡◌, ◌+◌, ◌≤◌, is_some, Some, None, MatchOption};
ghost use Rattle.packed_store.specs.Layout.{length_at, number_at};
ghost use Rattle.packed_store.specs.Inside.{Found};
ghost use Rattle.packed_store.specs.Stored.{contents};

use crate::arena::PackedStore;
use crate::layout::HEADER;

impl PackedStore {
    fn number_at(&self, at: usize) -> u32
        requires { at + 16 ≤ 4096 }
        ensures { result ≡ number_at self.now.memory at }
    {
        u32::from_le_bytes(self.memory[at..at + 4].try_into().unwrap())
    }

    pub(crate) fn length_at(&self, at: usize) -> usize
        requires { at + 16 ≤ 4096 }
        ensures { result ≡ length_at self.now.memory at }
    {
        usize::from(self.memory[at + 4])
    }

    // Where the header of a number's message begins. A loop, since each step is as long as the message there. Tried:
    // `iter::successors` with `take_while` and `find`. It reads one header more, behind the last message, and that
    // its steps may be taken (each place is a message's, as the loop's invariant says) stayed unproved.
    pub(crate) fn find(&self, number: u32) -> Option<usize>
        ensures { MatchOption result (contents self.now number ≡ None) (Found self.now.memory self.now.used number) }
    {
        let mut at = 0;
        while at < self.used {
            if self.number_at(at) == number {
                return Some(at);
            }
            at += HEADER + self.length_at(at);
        }
        None
    }

    pub(crate) fn holds(&self, number: u32) -> bool
        ensures { result ≡ is_some (contents self.now number) }
    {
        self.find(number).is_some()
    }

    // The bytes of a number's message.
    pub(crate) fn message(&self, number: u32) -> Option<&[u8]>
        ensures { MatchOption result (contents self.now number ≡ None) (λ b. contents self.now number ≡ Some b.now) }
    {
        let at = self.find(number)?;
        let start = at + HEADER;
        Some(&self.memory[start..start + self.length_at(at)])
    }
}
