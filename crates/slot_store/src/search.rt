// Slots looked for from the lowest on.
ghost use Rattle.std.specs.Prelude.{◌≡◌, position, option_map};
ghost use Rattle.slot_store.specs.Slots.{holds_number, is_free};
ghost use Rattle.slot_store.specs.Held.{contents};

use crate::table::SlotStore;

impl SlotStore {
    // The slot that holds a number.
    pub(crate) fn find(&self, number: u32) -> Option<usize>
        ensures { result ≡ position (holds_number number) self.now.slots }
    {
        self.slots.iter().position(|slot| matches!(slot, Some(message) if message.number == number))
    }

    pub(crate) fn lowest_free(&self) -> Option<usize>
        ensures { result ≡ position is_free self.now.slots }
    {
        self.slots.iter().position(|slot| slot.is_none())
    }

    // The bytes of a number's message.
    pub(crate) fn message(&self, number: u32) -> Option<&[u8]>
        ensures { option_map (λ b. b.now) result ≡ contents self.now number }
    {
        let i = self.find(number)?;
        self.slots[i].as_ref().map(|message| message.bytes())
    }
}
