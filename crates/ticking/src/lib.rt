// What a tick does.
#![tactic(auto)]

ghost use Rattle.std.specs.Prelude.{[], ◌≡◌, ◌≤◌};
ghost use Rattle.art.specs.Verbs.{edit_mailbox, leave_receivers, wake, withdraw};
ghost use Rattle.art.specs.Rules.{Ticked, numbers_from, tick, tick_task, visited};
ghost use Rattle.art.specs.declared.task.Event.TheVariants.{Withdrawal};
ghost use Rattle.engine.specs.Model.{Gives, kind_of, tick_to, view};

use art::{Activity, Event, LAST_TASK, MailboxNumber, Order, TaskNumber};
use engine::{Engine, release};
use store::Store;

// A receiver's waiting ends at its deadline.
fn withdraw_receiver<S: Store, O: Order>(
    engine: &mut Engine<S, O>,
    t: TaskNumber,
    mailbox: MailboxNumber,
)
    ensures { view S.Store engine.new ≡ wake (kind_of S.Store O.Order) (edit_mailbox (view S.Store engine.old) mailbox (leave_receivers t)) t Withdrawal }
{
    engine.tables.mailboxes.leave_receivers(mailbox, t);
    engine.wake(t, Event::Withdrawal);
}

// A sender's waiting ends at its deadline, and its message is withdrawn.
fn withdraw_message<S: Store, O: Order>(
    engine: &mut Engine<S, O>,
    t: TaskNumber,
    mailbox: MailboxNumber,
    message: u32,
)
    ensures { view S.Store engine.new ≡ wake (kind_of S.Store O.Order) (withdraw (kind_of S.Store O.Order) (view S.Store engine.old) mailbox message) t Withdrawal }
{
    engine.tables.mailboxes.unqueue(mailbox, message);
    engine.tables.counts.withdraw();
    release(&mut engine.store, message);
    engine.wake(t, Event::Withdrawal);
}

// What a tick does to one task.
#[tactic(auto, unfolding(art::specs::Verbs::choose))]
fn visit<S: Store, O: Order>(engine: &mut Engine<S, O>, t: TaskNumber)
    ensures { view S.Store engine.new ≡ tick_task (kind_of S.Store O.Order) (view S.Store engine.old) t ((view S.Store engine.old).tasks t) }
{
    let Some(task) = engine.tables.roster.task(t) else {
        return;
    };
    let counter = engine.tables.counter;
    let reached = task.urgency.deadline <= counter;
    match task.activity {
        Activity::Receiving { mailbox } if reached => withdraw_receiver(engine, t, mailbox),
        Activity::Sending { mailbox, message } if reached => {
            withdraw_message(engine, t, mailbox, message)
        }
        Activity::Asleep { .. } => engine.wake(t, Event::Tick { counter }),
        _ => {}
    }
}

// Tasks 1 to `last` are visited, by rising number.
fn visit_all<S: Store, O: Order>(engine: &mut Engine<S, O>, last: TaskNumber)
    requires { last ≤ 63 }
    ensures { view S.Store engine.new ≡ visited (kind_of S.Store O.Order) (view S.Store engine.old) (numbers_from 1 last) }
{
    for t in 1..=last {
        visit(engine, t);
    }
}

// A tick that visits tasks 1 to `last`.
fn tick_to<S: Store, O: Order>(engine: &mut Engine<S, O>, last: TaskNumber) -> (usize, TaskNumber)
    requires { last ≤ 63 }
    ensures { Gives (tick_to (kind_of S.Store O.Order) (view S.Store engine.old) last) (Ticked result.0 result.1) [] (view S.Store engine.new) }
{
    let before = engine.tables.roster.ready_len();
    engine.tables.counter = engine.tables.counter.saturating_add(1);
    visit_all(engine, last);
    let readied = engine.tables.roster.ready_len().saturating_sub(before);
    (readied, engine.tables.roster.running())
}

// The counter rises by 1, up to its largest value, and every task is visited by rising number.
// Answers how many tasks were readied, and who runs.
pub fn tick<S: Store, O: Order>(engine: &mut Engine<S, O>) -> (usize, TaskNumber)
    ensures { Gives (tick (kind_of S.Store O.Order) (view S.Store engine.old)) (Ticked result.0 result.1) [] (view S.Store engine.new) }
{
    tick_to(engine, LAST_TASK)
}
