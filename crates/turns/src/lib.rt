// What the programs that count instructions share: the words of their command lines, and turns taken over and over.
#![tactic(auto)]

mod arguments;
mod repetition;

pub use arguments::{Arguments, NoSuchStore, NoSuchTurn, StoreKind};
pub use repetition::repeat;
