// The slots, and the count of those that hold a message.
ghost use Rattle.std.specs.Prelude.{◌≡◌, true, length};
ghost use Rattle.store.specs.Listing.{distinct, total};
ghost use Rattle.slot_store.specs.Slots.{messages, one_unit};

use crate::slot::Message;

pub(crate) const SLOTS: usize = 64;

#[derive(Drop)]
pub struct SlotStore {
    pub(crate) slots: [Option<Message>; SLOTS],
    // Kept beside the slots: to count them, each `used` would look at all 64, and `clear` stops once it has freed so many.
    pub(crate) used: u32,
    ghost whole: { length slots ≡ 64 },
    ghost once: { distinct (messages slots) ≡ true },
    ghost counted: { used ≡ total one_unit (messages slots) },
}
