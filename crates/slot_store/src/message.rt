// What a message is made of, and the bytes that it gives. Not beside the struct: the file of a struct with ghost fields
// may name no spec that leads back to the struct, as `Slots` does.
ghost use Rattle.std.specs.Prelude.{◌≡◌, length};
ghost use Rattle.store.specs.Meaning.{Allowed};
ghost use Rattle.slot_store.specs.Slots.{bytes_of};

use crate::slot::Message;
use store::{MAX_LENGTH, copy_front};

impl Message {
    pub(crate) fn new(number: u32, message: &[u8]) -> Message
        requires { Allowed (length message.now) }
        ensures numbered { result.number ≡ number }
        ensures holds { bytes_of result ≡ message.now }
    {
        let mut bytes = [0; MAX_LENGTH];
        copy_front(&mut bytes, message);
        Message {
            number,
            length: message.len(),
            bytes,
        }
    }

    pub(crate) fn bytes(&self) -> &[u8]
        ensures { result.now ≡ bytes_of self.now }
    {
        &self.bytes[..self.length]
    }
}
