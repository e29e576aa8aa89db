// The numbers that bound tasks and mailboxes.
// Numbers are aliases and no types of their own, since a call takes any and refuses those out of bounds.

// A task by its number: 1 to LAST_TASK, and 0 for the idle task.
pub type TaskNumber = u8;

pub const LAST_TASK: TaskNumber = 63;

pub const IDLE_TASK: TaskNumber = 0;

// A mailbox by its number: 0 to LAST_MAILBOX.
pub type MailboxNumber = u8;

pub const LAST_MAILBOX: MailboxNumber = 31;

// Levels are 0 to LAST_LEVEL; 0 is the most urgent.
pub const LAST_LEVEL: u8 = 31;

// A mailbox has room for 1 to MOST_ENTRIES messages or receivers.
pub const MOST_ENTRIES: u8 = 16;
