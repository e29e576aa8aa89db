// A message as a slot holds it, in fixed memory with no heap. A slot that holds none is free.
ghost use Rattle.std.specs.Prelude.{◌≡◌, ◌≤◌, length as long};

use store::MAX_LENGTH;

// Not a `FixedList` of bytes (crate `fixed`): that is filled item by item, and a message comes and goes as a whole.
#[derive(Clone, Copy)]
pub(crate) struct Message {
    pub(crate) number: u32,
    pub(crate) length: usize,
    pub(crate) bytes: [u8; MAX_LENGTH],
    ghost small: { number ≤ 4294967295 },
    ghost some: { 1 ≤ length },
    ghost short: { length ≤ 128 },
    ghost whole: { long bytes ≡ 128 },
}
