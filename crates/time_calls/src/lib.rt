// How a kernel begins, the calls on time, and what can be asked at any time, on an engine.
#![tactic(auto)]

mod asks;
mod clock;

pub use asks::{close, deadline, init, run, running, ticks};
pub use clock::{set_deadline, set_ticks, tick, wait};
