// The kernel: init_kernel gives a start-up kernel, and run takes it away and gives the running one.
// Every call carries, by `Takes`, what the rules say of its line, and by `LawfulWith` the law of the record with it;
// nothing is asked of a caller.
#![tactic(auto, using(crate::proofs::Taking::takes))]

mod kernels;
mod making;
mod running;
mod start_up;

pub use kernels::{Kernel, StartUp, Started, Starting};
pub use start_up::init_kernel;
