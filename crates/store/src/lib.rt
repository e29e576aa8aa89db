// A message store: for each 32-bit message number the bytes held under it, or nothing.
// Whoever writes a store shows the laws below of it; code above one knows no more than this trait says.
#![tactic(auto)]

ghost use Rattle.std.specs.Prelude.{◌≡◌, ℕ, ◌+◌, ◌≤◌, List, length as long, Some};
ghost use Rattle.store.specs.Listing.{Entry, Lists, total};
ghost use Rattle.store.specs.Meaning.{Allowed, Contents, CostRules, buffer_after_copy, bytes_in, copy_answer, discard_answer, held_after_discard, held_after_put, nothing, put_answer, units_in, used_after_put};
ghost use Rattle.store.specs.Refusal.{outcome};

mod copies;
mod fault;

pub use copies::{check_length, close_gap, copy_front, copy_out};
pub use fault::{Layer, Particulars, StoreFault, Units};

// The longest message, in bytes.
pub const MAX_LENGTH: usize = 128;

pub trait Store {
    // The bytes held under each message number, or nothing.
    ghost held: { Self → Contents };

    // The units in use.
    ghost used: { Self → ℕ };

    // The units that there are.
    ghost capacity: { ℕ };

    // The units that a message takes, by its length alone.
    ghost cost: { ℕ → ℕ };

    fn capacity() -> u32
        ensures { result ≡ capacity };

    fn cost(length: u8) -> u32
        ensures { result ≡ cost length };

    fn used(&self) -> u32
        ensures { result ≡ used self.now };

    // Holds bytes under a number.
    fn put(&mut self, number: u32, bytes: &[u8]) -> Result<(), StoreFault>
        ensures answer { outcome result ≡ put_answer capacity cost (held self.old) (used self.old) number bytes.now }
        ensures holds { held self.new ≡ held_after_put result (held self.old) number bytes.now }
        ensures counts { used self.new ≡ used_after_put cost result (used self.old) bytes.now };

    // Copies the bytes held under a number to the front of a buffer, and answers their length.
    fn copy(&self, number: u32, buffer: &mut [u8]) -> Result<usize, StoreFault>
        ensures answer { outcome result ≡ copy_answer (held self.now) number buffer.old }
        ensures writes { buffer.new ≡ buffer_after_copy result (bytes_in (held self.now number)) buffer.old };

    // Makes a number hold nothing.
    fn discard(&mut self, number: u32) -> Result<(), StoreFault>
        ensures answer { outcome result ≡ discard_answer (held self.old) number }
        ensures holds { held self.new ≡ held_after_discard result (held self.old) number }
        ensures counts { used self.new + units_in cost (held self.old number) ≡ used self.old };

    // Makes every number hold nothing.
    fn clear(&mut self)
        ensures holds { held self.new ≡ nothing }
        ensures counts { used self.new ≡ 0 };

    // A cost is at least 1 and never falls as the length grows; the longest message fits an empty store.
    ghost costs: { CostRules capacity cost };

    ghost within: { (s : Self) → used s ≤ capacity };

    // Only numbers of 32 bits hold bytes, and what they hold has a length that is allowed.
    ghost numbers: { (s : Self) (n : ℕ) (b : List ℕ) → held s n ≡ Some b → n ≤ 4294967295 };

    ghost lengths: { (s : Self) (n : ℕ) (b : List ℕ) → held s n ≡ Some b → Allowed (long b) };

    // What is held can be listed ..
    ghost listed: { (s : Self) → (es : List Entry) × Lists es (held s) };

    // .. and by any listing, without repetition, used units are the sum of the costs of all that is held.
    ghost tally: { (s : Self) (es : List Entry) → Lists es (held s) → used s ≡ total cost es };
}
