// What an event makes due to a task, by the task's own state and the event together.
ghost use Rattle.std.specs.Prelude.{◌≡◌, true, false, is_some};
ghost use Rattle.art.specs.Verbs.{due_after, wakes};
ghost use Rattle.roster.specs.Places.{is_ready};

use art::{Activity, Due, Event, Status, Task};

// The answer due once the event has made the task ready; nothing where it does not.
pub(crate) fn due_after(task: Task, event: Event) -> Option<Due>
    ensures value { result ≡ due_after task.urgency.deadline task.activity event }
    ensures idle { is_some result ≡ true → is_ready task.activity ≡ false }
{
    match (task.activity, event) {
        (Activity::Receiving { .. }, Event::HandOver { message }) => Some(Due::Given { message }),
        (Activity::Receiving { .. }, Event::Withdrawal) => Some(Due::Plain {
            status: Status::DeadlineReached,
        }),
        (Activity::Sending { message, .. }, Event::HandOver { .. }) => Some(Due::Sent {
            status: Status::Ok,
            message,
        }),
        (Activity::Sending { message, .. }, Event::Withdrawal) => Some(Due::Sent {
            status: Status::DeadlineReached,
            message,
        }),
        (Activity::Asleep { until }, Event::Tick { counter }) => {
            waking(task.urgency.deadline, until, counter)
        }
        _ => None,
    }
}

// What a tick makes due to a sleeper: its deadline ends the sleep first, else its wake tick.
fn waking(deadline: u32, until: u32, counter: u32) -> Option<Due>
    ensures { result ≡ wakes deadline until counter }
{
    let status = if deadline <= counter {
        Status::DeadlineReached
    } else if until <= counter {
        Status::Ok
    } else {
        return None;
    };
    Some(Due::Plain { status })
}
