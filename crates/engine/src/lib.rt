// The engine of the kernel: its tables, and what every call reads of them or does with tasks, as the rules have it.
// Its functions may ask something of their callers; the kernel's calls, above it, ask nothing.
#![tactic(auto)]

mod due;
mod forms;
mod gates;
mod leaving;
mod queries;
mod ready;
mod tables;

pub use forms::{about, brought, plainly, sent};
pub use gates::checked_mailbox;
pub use leaving::release;
pub use tables::{Engine, Tables};
