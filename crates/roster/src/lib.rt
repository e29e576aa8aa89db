// The tasks by number, and the list of those that are ready, in fixed memory.
#![tactic(auto)]

ghost use Rattle.std.specs.Prelude.{◌≡◌, ◌≤◌, length};
ghost use Rattle.fixed.specs.Items.{items};
ghost use Rattle.roster.specs.Places.{ready_count};

use art::{LAST_TASK, Task, TaskNumber};
use fixed::FixedList;

mod moves;
mod place;
mod views;

// A place for each task number. (A constant calls no `usize::from`.)
const PLACES: usize = LAST_TASK as usize + 1;

#[derive(Drop)]
pub struct Roster {
    tasks: [Option<Task>; PLACES],
    // The running task first.
    ready: FixedList<TaskNumber, PLACES>,
    ghost whole: { length tasks ≡ 64 },
    // No more numbers in the list than tasks that are ready.
    ghost covered: { length (items ready) ≤ ready_count tasks },
}
