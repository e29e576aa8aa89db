// Sleep, the clock and deadlines.
ghost use Rattle.std.specs.Prelude.{[]};
ghost use Rattle.refusals.specs.Refusals.{outcome};
ghost use Rattle.art.specs.Record.{SetDeadline, SetTicks, Tick, Wait};
ghost use Rattle.art.specs.Rules.{Answered, Ticked};
ghost use Rattle.engine.specs.Model.{Does};

use art::{Activity, Answer, Order, Refusal, Status, TaskNumber};
use engine::{Engine, plainly};
use store::Store;

// Puts the running task to sleep for some ticks.
pub fn wait<S: Store, O: Order>(engine: &mut Engine<S, O>, ticks: u32) -> Result<Answer, Refusal>
    ensures { Does S.Store O.Order (Wait ticks) engine.old (Answered (outcome result)) [] engine.new }
{
    let task = engine.busy_caller()?;
    let until = engine
        .tables
        .counter
        .checked_add(ticks)
        .ok_or(Refusal::TooLong { task })?;
    engine.block(Activity::Asleep { until });
    Ok(plainly(Status::Blocked))
}

// The running task leaves the ready list, and enters it again with its new deadline.
pub fn set_deadline<S: Store, O: Order>(
    engine: &mut Engine<S, O>,
    deadline: u32,
) -> Result<Answer, Refusal>
    ensures { Does S.Store O.Order (SetDeadline deadline) engine.old (Answered (outcome result)) [] engine.new }
{
    engine.busy_caller()?;
    engine.reenter(deadline);
    Ok(plainly(Status::Ok))
}

// Sets the counter alone.
pub fn set_ticks<S: Store, O: Order>(
    engine: &mut Engine<S, O>,
    ticks: u32,
) -> Result<Answer, Refusal>
    ensures { Does S.Store O.Order (SetTicks ticks) engine.old (Answered (outcome result)) [] engine.new }
{
    engine.caller()?;
    engine.tables.counter = ticks;
    Ok(plainly(Status::Ok))
}

// The counter rises by 1, and every task is visited; answers how many were readied, and who runs.
pub fn tick<S: Store, O: Order>(engine: &mut Engine<S, O>) -> (usize, TaskNumber)
    ensures { Does S.Store O.Order Tick engine.old (Ticked result.0 result.1) [] engine.new }
{
    ticking::tick(engine)
}
