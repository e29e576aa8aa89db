// The mailboxes of a kernel in a fixed table, with no heap: a row for each number that may be in use.
#![tactic(auto)]

ghost use Rattle.std.specs.Prelude.{◌≤◌};

use art::{LAST_MAILBOX, MOST_ENTRIES, Message, TaskNumber};
use fixed::FixedList;

mod row;
mod table;

// The places of a queue, and of a list of receivers: the most entries that a mailbox may have room for.
const PLACES: usize = MOST_ENTRIES as usize;

// The rows of the table: one for each mailbox number. (Constants call no `usize::from`.)
const ROWS: usize = LAST_MAILBOX as usize + 1;

// One row: a mailbox with its queued messages and its waiting receivers, oldest first.
#[derive(Clone, Copy)]
pub struct Mailbox {
    capacity: u8,
    size: u8,
    messages: FixedList<Message, PLACES>,
    receivers: FixedList<TaskNumber, PLACES>,
    ghost bounded: { capacity ≤ 16 },
}

// A row for each number in use.
#[derive(Drop)]
pub struct Mailboxes {
    rows: [Option<Mailbox>; ROWS],
}
