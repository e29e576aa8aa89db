// What stands in the first place of the table.
ghost use Rattle.std.specs.Prelude.{◌≡◌};
ghost use Rattle.art.specs.State.{idle_task};

use art::{Activity, LAST_LEVEL, Task, Urgency};

// Task 0: always ready, with the last deadline and level.
pub(crate) fn idle_task() -> Task
    ensures { result ≡ idle_task }
{
    Task {
        urgency: Urgency {
            deadline: u32::MAX,
            level: LAST_LEVEL,
        },
        activity: Activity::Ready,
        due: None,
    }
}
