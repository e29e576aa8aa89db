// Changes of slots in a row. They are no methods of the store: a method ends with `used` counted, by the store's
// invariant, and these leave it to their caller.
ghost use Rattle.std.specs.Prelude.{◌≡◌, ◌<◌, [], length};
ghost use Rattle.store.specs.Meaning.{Allowed};
ghost use Rattle.store.specs.Listing.{total};
ghost use Rattle.slot_store.specs.Slots.{Changed, messages, one_unit, only};

use crate::slot::Message;

pub(crate) fn fill_at(slots: &mut [Option<Message>], i: usize, number: u32, message: &[u8])
    requires within { i < length slots.old }
    requires allowed { Allowed (length message.now) }
    ensures { Changed slots.old i (only number message.now) slots.new }
{
    slots[i] = Some(Message::new(number, message));
}

pub(crate) fn empty_at(slots: &mut [Option<Message>], i: usize)
    requires { i < length slots.old }
    ensures { Changed slots.old i [] slots.new }
{
    slots[i] = None;
}

// Frees the slots that hold a message, from the lowest on, until as many as there are have been freed: behind the last of them
// none is looked at. A `None` is written over its whole slot, so a slot that is free already is left as it is.
pub(crate) fn empty_all(slots: &mut [Option<Message>], held: u32)
    requires { held ≡ total one_unit (messages slots.old) }
    ensures { messages slots.new ≡ [] }
{
    let mut left = held;
    for slot in slots.iter_mut() {
        if left == 0 {
            return;
        }
        if slot.is_some() {
            *slot = None;
            left -= 1;
        }
    }
}
