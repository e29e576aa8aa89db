// What stores share: the test of a message's length, and copies of bytes.
ghost use Rattle.std.specs.Prelude.{◌≡◌, length, IfOk, option_map};
ghost use Rattle.store.specs.Copying.{front_copied, gap_closed};
ghost use Rattle.store.specs.Meaning.{Allowed, buffer_after_copy, bytes_in, copy_answer, length_rows};
ghost use Rattle.store.specs.Refusal.{outcome, tried};

use crate::MAX_LENGTH;
use crate::fault::StoreFault;

// Whether a message has a length that is allowed.
pub fn check_length(message: u32, bytes: &[u8]) -> Result<(), StoreFault>
    ensures answer { outcome result ≡ tried (length_rows message bytes.now) tt }
    ensures allowed { IfOk result (λ _. Allowed (length bytes.now)) }
{
    if bytes.is_empty() || bytes.len() > MAX_LENGTH {
        return Err(StoreFault::BadLength { message });
    }
    Ok(())
}

// A store's `copy`, of the bytes that it holds under the number.
pub fn copy_out(held: Option<&[u8]>, number: u32, buffer: &mut [u8]) -> Result<usize, StoreFault>
    ensures answer { outcome result ≡ copy_answer (λ _. option_map (λ b. b.now) held.entry) number buffer.old }
    ensures writes { buffer.new ≡ buffer_after_copy result (bytes_in (option_map (λ b. b.now) held.entry)) buffer.old }
{
    let Some(bytes) = held else {
        return Err(StoreFault::NotHeld { message: number });
    };
    if buffer.len() < bytes.len() {
        return Err(StoreFault::Cramped { message: number });
    }
    copy_front(buffer, bytes);
    Ok(bytes.len())
}

// Copies `from` to the front of `to`, as many bytes as both have; the rest of `to` stays.
pub fn copy_front(to: &mut [u8], from: &[u8])
    ensures { to.new ≡ front_copied to.old from.now }
{
    let count = to.len().min(from.len());
    to[..count].copy_from_slice(&from[..count]);
}

// Takes the `size` bytes at `at` out of `bytes`: what stood behind them moves down over them, and the
// last `size` bytes stay as they are. Nothing moves where nothing stood behind them.
pub fn close_gap(bytes: &mut [u8], at: usize, size: usize)
    ensures { bytes.new ≡ gap_closed bytes.old at size }
{
    let Some(from) = at.checked_add(size) else {
        return;
    };
    if from < bytes.len() {
        bytes.copy_within(from.., at);
    }
}
