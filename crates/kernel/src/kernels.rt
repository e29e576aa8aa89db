// A kernel over an engine that nobody else reaches. Its stage is a type.
use art::Order;
use engine::Engine;
use store::Store;

// Before run: tasks and mailboxes are made.
#[derive(Drop)]
pub struct Starting;

// After run.
#[derive(Drop)]
pub struct Started;

#[derive(Drop)]
pub struct Kernel<S: Store, O: Order, Stage = Started> {
    pub(crate) engine: Engine<S, O>,
    pub(crate) stage: Stage,
}

pub type StartUp<S, O> = Kernel<S, O, Starting>;
