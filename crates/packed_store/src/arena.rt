// The memory, and how much of it is used.
ghost use Rattle.std.specs.Prelude.{◌≡◌, ◌≤◌, true, length, take};
ghost use Rattle.store.specs.Listing.{distinct};
ghost use Rattle.packed_store.specs.Layout.{messages, packed};
ghost use Rattle.packed_store.specs.Inside.{all_fit};

pub(crate) const SIZE: usize = 4096;

// The first `used` bytes of the memory are messages side by side, no number twice. The memory is fixed, with no heap.
#[derive(Drop)]
pub struct PackedStore {
    pub(crate) memory: [u8; SIZE],
    pub(crate) used: usize,
    ghost whole: { length memory ≡ 4096 },
    ghost room: { used ≤ 4096 },
    ghost packs: { take used memory ≡ packed (messages memory used) },
    ghost good: { all_fit (messages memory used) ≡ true },
    ghost once: { distinct (messages memory used) ≡ true },
}
