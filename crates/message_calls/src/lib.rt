// The calls that pass messages, on an engine: first the refusals, in the order of the table, then what is done.
#![tactic(auto)]

mod debts;
mod receives;
mod sends;

pub use debts::collect;
pub use receives::{receive_no_wait, receive_wait};
pub use sends::{send_no_wait, send_wait};
