// Leaving the store.
ghost use Rattle.std.specs.Prelude.{◌≡◌, ◌-◌};
ghost use Rattle.store.specs.Meaning.{units_in, without};

use store::Store;

// The bytes of a message leave the store.
pub fn release<S: Store>(store: &mut S, message: u32)
    ensures holds { S.Store.held store.new ≡ without (S.Store.held store.old) message }
    ensures counts { S.Store.used store.new ≡ S.Store.used store.old - units_in S.Store.cost (S.Store.held store.old message) }
{
    let _ = store.discard(message);
}
