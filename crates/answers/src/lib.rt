// What the kernel's calls answer, the five counts, and the limits of tasks and mailboxes.
#![tactic(auto)]

mod answer;
mod limits;

pub use answer::{Answer, Counts, Status};
pub use limits::{
    IDLE_TASK, LAST_LEVEL, LAST_MAILBOX, LAST_TASK, MOST_ENTRIES, MailboxNumber, TaskNumber,
};
