// The calls that make and remove tasks and mailboxes, on an engine: first the refusals, in the order of the table,
// then what is done.
#![tactic(auto)]

mod boxes;
mod tasks;

pub use boxes::{create_mailbox, remove_mailbox};
pub use tasks::{create_task, terminate};
