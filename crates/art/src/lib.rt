// The interface of the kernel: what its calls answer, why they refuse, and the orders of urgency.
// Answers and limits are those of crate `answers`, refusals those of crate `refusals`.
// The rules that every call keeps are in specs/: State, Verbs, Rules and Record.
#![tactic(auto)]

mod order;
mod task;

pub use answers::{
    Answer, Counts, IDLE_TASK, LAST_LEVEL, LAST_MAILBOX, LAST_TASK, MOST_ENTRIES, MailboxNumber,
    Status, TaskNumber,
};
pub use order::{DeadlineOrder, LevelOrder, Order};
pub use refusals::Refusal;
pub use task::{Activity, Due, Event, Message, Task, Urgency};
