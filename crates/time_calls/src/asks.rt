// How a kernel begins, and what can be asked of it at any time.
ghost use Rattle.std.specs.Prelude.{[], ◌≡◌};
ghost use Rattle.art.specs.Record.{Close, Deadline, Run, Running, Ticks};
ghost use Rattle.art.specs.Rules.{Counted, Number, Silent};
ghost use Rattle.art.specs.State.{initial};
ghost use Rattle.engine.specs.Model.{Does, view};

use art::{Counts, Order, TaskNumber};
use engine::{Engine, Tables};
use mailboxes::Mailboxes;
use roster::Roster;
use store::Store;

// Task 0 alone, no mailbox, an empty store; the first message will have the number `first`.
pub fn init<S: Store, O: Order>(mut store: S, order: O, first: u32) -> Engine<S, O>
    ensures { view S.Store result ≡ initial first }
{
    store.clear();
    let tables = Tables {
        counter: 0,
        next: Some(first),
        roster: Roster::idle(),
        mailboxes: Mailboxes::none(),
        counts: Counts::none(),
    };
    Engine {
        store,
        order,
        tables,
    }
}

pub fn run<S: Store, O: Order>(engine: &mut Engine<S, O>)
    ensures { Does S.Store O.Order Run engine.old Silent [] engine.new }
{
    let tables = &mut engine.tables;
    tables.counter = 0;
}

pub fn ticks<S: Store, O: Order>(engine: &Engine<S, O>) -> u32
    ensures { Does S.Store O.Order Ticks engine.now (Number result) [] engine.now }
{
    engine.tables.counter
}

// The running task's deadline.
pub fn deadline<S: Store, O: Order>(engine: &Engine<S, O>) -> u32
    ensures { Does S.Store O.Order Deadline engine.now (Number result) [] engine.now }
{
    engine
        .tables
        .roster
        .task(engine.running())
        .map_or(0, |task| task.urgency.deadline)
}

pub fn running<S: Store, O: Order>(engine: &Engine<S, O>) -> TaskNumber
    ensures { Does S.Store O.Order Running engine.now (Number result) [] engine.now }
{
    engine.tables.roster.running()
}

// The five counts.
pub fn close<S: Store, O: Order>(engine: &Engine<S, O>) -> Counts
    ensures { Does S.Store O.Order Close engine.now (Counted result) [] engine.now }
{
    engine.tables.counts
}
