// The calls of a store, on packed memory.
ghost use Rattle.std.specs.Prelude.{◌≡◌};
ghost use Rattle.store.specs.Meaning.{nothing};
ghost use Rattle.packed_store.specs.Layout.{units_for};
ghost use Rattle.packed_store.specs.Stored.{contents};
ghost use Rattle.packed_store.specs.Laws.{costs_hold, lengths_allowed, listing, numbers_fit, used_total_of, used_within};

use crate::arena::{PackedStore, SIZE};
use crate::layout::HEADER;
use store::{Store, StoreFault, Units, check_length, copy_out};

impl PackedStore {
    pub fn new() -> PackedStore
        ensures holds { contents result ≡ nothing }
        ensures counts { result.used ≡ 0 }
    {
        PackedStore {
            memory: [0; SIZE],
            used: 0,
        }
    }
}

// Written out: no derive makes so long an array.
impl Default for PackedStore {
    ghost is_default = { λ s. (contents s ≡ nothing) × (s.used ≡ 0) };

    fn default() -> PackedStore {
        PackedStore::new()
    }
}

impl Store for PackedStore {
    ghost held = { contents };

    ghost used = { λ s. s.used };

    ghost capacity = { 4096 };

    ghost cost = { units_for };

    ghost costs = { costs_hold };

    ghost within = { used_within };

    ghost numbers = { numbers_fit };

    ghost lengths = { lengths_allowed };

    ghost listed = { listing };

    ghost tally = { used_total_of };

    // Casts here and below, proved to lose nothing: from usize there is no `From`, and `try_from(..).unwrap()` is no plainer.
    fn capacity() -> u32 {
        SIZE as u32
    }

    fn cost(length: u8) -> u32 {
        u32::from(length) + HEADER as u32
    }

    fn used(&self) -> u32 {
        self.used as u32
    }

    fn put(&mut self, number: u32, bytes: &[u8]) -> Result<(), StoreFault> {
        check_length(number, bytes)?;
        if self.holds(number) {
            return Err(StoreFault::Held { message: number });
        }
        let size = HEADER + bytes.len();
        let free = SIZE - self.used;
        if free < size {
            let units = Units {
                wanted: size as u32,
                free: free as u32,
            };
            return Err(StoreFault::StoreFull {
                message: number,
                units,
            });
        }
        self.append(number, bytes);
        Ok(())
    }

    fn copy(&self, number: u32, buffer: &mut [u8]) -> Result<usize, StoreFault> {
        copy_out(self.message(number), number, buffer)
    }

    fn discard(&mut self, number: u32) -> Result<(), StoreFault> {
        let Some(at) = self.find(number) else {
            return Err(StoreFault::NotHeld { message: number });
        };
        self.remove_at(at);
        Ok(())
    }

    fn clear(&mut self) {
        self.used = 0;
    }
}
