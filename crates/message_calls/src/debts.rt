// The answer due.
ghost use Rattle.refusals.specs.Refusals.{outcome};
ghost use Rattle.art.specs.Record.{Collect};
ghost use Rattle.art.specs.Rules.{Answered};
ghost use Rattle.engine.specs.Model.{Does};

use art::{Answer, Due, Order, Refusal};
use engine::{Engine, about, plainly};
use message_moves::fetch;
use store::Store;

// Gives the running task the answer due, and ends the debt.
pub fn collect<S: Store, O: Order>(
    engine: &mut Engine<S, O>,
    buffer: &mut [u8],
) -> Result<Answer, Refusal>
    ensures { Does S.Store O.Order (Collect buffer.old) engine.old (Answered (outcome result)) buffer.new engine.new }
{
    match engine.due() {
        None => Err(Refusal::NothingDue {
            task: engine.running(),
        }),
        Some(Due::Sent { status, message }) => {
            engine.tables.roster.settle();
            Ok(about(status, message))
        }
        Some(Due::Plain { status }) => {
            engine.tables.roster.settle();
            Ok(plainly(status))
        }
        Some(Due::Given { message }) => fetch(engine, message, buffer),
    }
}
