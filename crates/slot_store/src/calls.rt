// The calls of a store, on slots.
ghost use Rattle.std.specs.Prelude.{◌≡◌};
ghost use Rattle.store.specs.Meaning.{held_after_put, nothing, put_answer, used_after_put};
ghost use Rattle.store.specs.Refusal.{outcome};
ghost use Rattle.slot_store.specs.Slots.{Takes, one_unit};
ghost use Rattle.slot_store.specs.Held.{contents};
ghost use Rattle.slot_store.specs.Laws.{costs_hold, lengths_allowed, listing, numbers_fit, used_total_of, used_within};

use crate::holding::{empty_all, empty_at, fill_at};
use crate::table::{SLOTS, SlotStore};
use store::{Store, StoreFault, Units, check_length, copy_out};

impl SlotStore {
    pub fn new() -> SlotStore
        ensures holds { contents result ≡ nothing }
        ensures counts { result.used ≡ 0 }
    {
        SlotStore {
            slots: [None; SLOTS],
            used: 0,
        }
    }
}

// Written out: no derive makes so long an array.
impl Default for SlotStore {
    ghost is_default = { λ s. (contents s ≡ nothing) × (s.used ≡ 0) };

    fn default() -> SlotStore {
        SlotStore::new()
    }
}

impl Store for SlotStore {
    ghost held = { contents };

    ghost used = { λ s. s.used };

    ghost capacity = { 64 };

    ghost cost = { one_unit };

    ghost costs = { costs_hold };

    ghost within = { used_within };

    ghost numbers = { numbers_fit };

    ghost lengths = { lengths_allowed };

    ghost listed = { listing };

    ghost tally = { used_total_of };

    // A cast, proved to lose nothing: from usize there is no `From`, and `try_from(..).unwrap()` is no plainer.
    fn capacity() -> u32 {
        SLOTS as u32
    }

    fn cost(_length: u8) -> u32 {
        1
    }

    fn used(&self) -> u32 {
        self.used
    }

    // Takes the lowest free slot.
    fn put(&mut self, number: u32, bytes: &[u8]) -> Result<(), StoreFault>
        ensures answer { outcome result ≡ put_answer 64 one_unit (contents self.old) self.old.used number bytes.now }
        ensures holds { contents self.new ≡ held_after_put result (contents self.old) number bytes.now }
        ensures counts { self.new.used ≡ used_after_put one_unit result self.old.used bytes.now }
        ensures takes { Takes result self.old.slots number bytes.now self.new.slots }
    {
        check_length(number, bytes)?;
        if self.find(number).is_some() {
            return Err(StoreFault::Held { message: number });
        }
        let Some(i) = self.lowest_free() else {
            return Err(StoreFault::StoreFull {
                message: number,
                units: Units { wanted: 1, free: 0 },
            });
        };
        fill_at(&mut self.slots, i, number, bytes);
        self.used += 1;
        Ok(())
    }

    fn copy(&self, number: u32, buffer: &mut [u8]) -> Result<usize, StoreFault> {
        copy_out(self.message(number), number, buffer)
    }

    fn discard(&mut self, number: u32) -> Result<(), StoreFault> {
        let Some(i) = self.find(number) else {
            return Err(StoreFault::NotHeld { message: number });
        };
        empty_at(&mut self.slots, i);
        self.used -= 1;
        Ok(())
    }

    fn clear(&mut self) {
        empty_all(&mut self.slots, self.used);
        self.used = 0;
    }
}
