// Tasks come and go.
ghost use Rattle.std.specs.Prelude.{[]};
ghost use Rattle.refusals.specs.Refusals.{outcome};
ghost use Rattle.art.specs.Record.{CreateTask, Terminate};
ghost use Rattle.art.specs.Rules.{Answered};
ghost use Rattle.engine.specs.Model.{Does};

use art::{
    Activity, Answer, IDLE_TASK, LAST_LEVEL, LAST_TASK, Order, Refusal, Status, Task, TaskNumber,
    Urgency,
};
use engine::{Engine, plainly};
use store::Store;

// Makes a ready task.
pub fn create_task<S: Store, O: Order>(
    engine: &mut Engine<S, O>,
    number: TaskNumber,
    deadline: u32,
    level: u8,
) -> Result<Answer, Refusal>
    ensures { Does S.Store O.Order (CreateTask number deadline level) engine.old (Answered (outcome result)) [] engine.new }
{
    engine.caller()?;
    if number == IDLE_TASK || number > LAST_TASK {
        return Err(Refusal::BadNumber { given: number });
    }
    if level > LAST_LEVEL {
        return Err(Refusal::BadLevel { given: number });
    }
    if engine.tables.roster.task(number).is_some() {
        return Err(Refusal::Taken { given: number });
    }
    let task = Task {
        urgency: Urgency { deadline, level },
        activity: Activity::Ready,
        due: None,
    };
    engine.admit(number, task);
    Ok(plainly(Status::Ok))
}

// Removes the running task.
pub fn terminate<S: Store, O: Order>(engine: &mut Engine<S, O>) -> Result<Answer, Refusal>
    ensures { Does S.Store O.Order Terminate engine.old (Answered (outcome result)) [] engine.new }
{
    engine.busy_caller()?;
    engine.tables.roster.finish();
    Ok(plainly(Status::Ok))
}
