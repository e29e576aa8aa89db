// What a kernel holds: a store and an order by value, and its tables.
use art::{Counts, Order};
use mailboxes::Mailboxes;
use roster::Roster;
use store::Store;

#[derive(Drop)]
pub struct Tables {
    pub counter: u32,
    // The number of the next message; none once the last has been used.
    pub next: Option<u32>,
    pub roster: Roster,
    pub mailboxes: Mailboxes,
    pub counts: Counts,
}

#[derive(Drop)]
pub struct Engine<S: Store, O: Order> {
    pub store: S,
    pub order: O,
    pub tables: Tables,
}
