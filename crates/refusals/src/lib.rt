// Why the kernel refuses a call.
#![tactic(auto)]

mod refusal;

pub use refusal::Refusal;
