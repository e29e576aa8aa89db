// What a roster tells.
ghost use Rattle.std.specs.Prelude.{◌≡◌, ◌<◌, true, length, is_some, slice_index};
ghost use Rattle.art.specs.State.{first};
ghost use Rattle.roster.specs.View.{ready_in, tasks_in};

use crate::Roster;
use art::{IDLE_TASK, Task, TaskNumber};

impl Roster {
    // The task of a number, if one lives.
    pub fn task(&self, t: TaskNumber) -> Option<Task>
        ensures value { result ≡ tasks_in self.now t }
        ensures below { is_some result ≡ true → t < 64 }
    {
        *self.tasks.get(usize::from(t))?
    }

    // The running task: the first of the ready list, or else the idle task, as the rules have it.
    pub fn running(&self) -> TaskNumber
        ensures { result ≡ first (ready_in self.now) }
    {
        self.ready().first().copied().unwrap_or(IDLE_TASK)
    }

    // The numbers of the ready list, the running task first.
    pub fn ready(&self) -> &[TaskNumber]
        ensures { result.now ≡ ready_in self.now }
    {
        self.ready.as_slice()
    }

    // How many numbers the ready list has.
    pub fn ready_len(&self) -> usize
        ensures { result ≡ length (ready_in self.now) }
    {
        self.ready.len()
    }

    // The number at a place of the ready list. No crate here calls it any more: it is public, so it stays.
    pub fn ready_at(&self, i: usize) -> TaskNumber
        requires { i < length (ready_in self.now) }
        ensures { result ≡ slice_index (ready_in self.now) i }
    {
        self.ready.at(i)
    }
}
