// What the calls ask before they change anything.
ghost use Rattle.std.specs.Prelude.{◌≡◌, ◌≤◌, true, is_some, Some};
ghost use Rattle.store.specs.Meaning.{discard_rows, put_answer, units_in};
ghost use Rattle.store.specs.Refusal.{outcome, tried};
ghost use Rattle.art.specs.State.{running, top};
ghost use Rattle.art.specs.Verbs.{due_of};
ghost use Rattle.art.specs.Rules.{store_rows};
ghost use Rattle.engine.specs.Model.{kind_of, view};

use crate::tables::Engine;
use art::{Due, Message, Order, TaskNumber};
use store::{MAX_LENGTH, Store, StoreFault, Units, check_length};

impl<S: Store, O: Order> Engine<S, O> {
    pub fn running(&self) -> TaskNumber
        ensures { result ≡ running (view S.Store self.now) }
    {
        self.tables.roster.running()
    }

    // The answer that the running task has yet to collect.
    pub fn due(&self) -> Option<Due>
        ensures { result ≡ due_of ((view S.Store self.now).tasks (running (view S.Store self.now))) }
    {
        self.tables
            .roster
            .task(self.running())
            .and_then(|task| task.due)
    }

    pub fn is_answer_due(&self) -> bool
        ensures { result ≡ is_some (due_of ((view S.Store self.now).tasks (running (view S.Store self.now)))) }
    {
        self.due().is_some()
    }

    // The units that are spent on a message that is held.
    fn units_of(&self, message: u32) -> Result<u32, StoreFault>
        ensures { outcome result ≡ tried (discard_rows (view S.Store self.now).held message) (units_in S.Store.cost ((view S.Store self.now).held message)) }
    {
        let length = self.store.copy(message, &mut [0; MAX_LENGTH])?;
        // A cast that is proved to lose nothing, here and below: no From leads from usize to u8.
        Ok(S::cost(length as u8))
    }

    // What the store's put would answer, if so many units were in use.
    fn would_put(&self, message: u32, bytes: &[u8], used: u32) -> Result<(), StoreFault>
        ensures { outcome result ≡ put_answer S.Store.capacity S.Store.cost (view S.Store self.now).held used message bytes.now }
    {
        check_length(message, bytes)?;
        // A store is not asked whether it holds a number, so a copy that succeeds tells it.
        if self.units_of(message).is_ok() {
            return Err(StoreFault::Held { message });
        }
        let wanted = S::cost(bytes.len() as u8);
        let free = S::capacity().saturating_sub(used);
        if wanted > free {
            return Err(StoreFault::StoreFull {
                message,
                units: Units { wanted, free },
            });
        }
        Ok(())
    }

    // Whether the next message could be put once a displaced one, which has to be held, has gone.
    // It takes no number: the rows speak of the next one, and a number beside them would need a clause that it is that one.
    pub fn could_displace(&self, displaced: Message, bytes: &[u8]) -> Result<(), StoreFault>
        requires { (view S.Store self.now).next ≤ top }
        ensures { outcome result ≡ tried (store_rows (kind_of S.Store O.Order) (view S.Store self.now) bytes.now (Some displaced)) tt }
    {
        let freed = self.units_of(displaced.number)?;
        let used = self.store.used().saturating_sub(freed);
        self.would_put(self.tables.next.unwrap(), bytes, used)
    }
}
