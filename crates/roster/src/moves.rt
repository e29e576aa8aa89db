// What changes a roster: tasks start, stop and end, and numbers enter and leave the ready list.
ghost use Rattle.std.specs.Prelude.{◌≡◌, ◌-◌, ◌<◌, ◌≤◌, true, false, [], ◌∷◌, length, is_some, Some, None, IfSome, MatchOption, slice_index_or, slice_set};
ghost use Rattle.std.specs.Fn.{FnOnceReturnsAtMut, FnOnceTakesAtMut};
ghost use Rattle.art.specs.declared.task.Task.{Task};
ghost use Rattle.std.specs.List.{insert};
ghost use Rattle.art.specs.State.{changed, first, idle_task};
ghost use Rattle.art.specs.Verbs.{doing, removed, settled, with_deadline};
ghost use Rattle.roster.specs.Places.{is_ready, ready_count, stands_ready};
ghost use Rattle.roster.specs.View.{HasRoom, ready_in, tasks_in};

use crate::place::idle_task;
use crate::{PLACES, Roster};
use art::{Activity, IDLE_TASK, Task, TaskNumber};
use fixed::{FixedList, edit, write};

impl Roster {
    // The idle task alone, which runs.
    pub fn idle() -> Roster
        ensures tasks { tasks_in result ≡ changed (λ _. None) 0 (Some idle_task) }
        ensures list { ready_in result ≡ 0 ∷ [] }
    {
        let mut roster = Roster {
            tasks: [None; PLACES],
            ready: FixedList::empty(IDLE_TASK),
        };
        roster.start(IDLE_TASK, idle_task());
        roster.insert(0, IDLE_TASK);
        roster
    }

    // A task that is not ready becomes the ready task x, and has yet to enter the list.
    // It asks for a number that has a place, since x is there afterwards. A type of bounded numbers would ask the same where one
    // is made, and callers have a `TaskNumber`.
    #[tactic(auto, using(crate::proofs::Counting::count_more))]
    pub fn start(&mut self, t: TaskNumber, x: Task)
        requires number { t < 64 }
        requires before { stands_ready (tasks_in self.old t) ≡ false }
        requires after { is_ready x.activity ≡ true }
        ensures tasks { tasks_in self.new ≡ changed (tasks_in self.old) t (Some x) }
        ensures list { ready_in self.new ≡ ready_in self.old }
        ensures room { HasRoom self.new }
    {
        self.replace(t, Some(x));
    }

    // A number enters the list at a place; those from there on move up. `HasRoom` is defined once, and asked only here, where a
    // number enters: `start` and `defer` promise it.
    #[tactic(auto, using(crate::proofs::Counting::count_le))]
    pub fn insert(&mut self, i: usize, t: TaskNumber)
        requires place { i ≤ length (ready_in self.old) }
        requires room { HasRoom self.old }
        ensures tasks { tasks_in self.new ≡ tasks_in self.old }
        ensures list { ready_in self.new ≡ insert (ready_in self.old) i t }
    {
        self.ready.insert(i, t);
    }

    // The running task leaves the list to wait or to sleep.
    #[tactic(auto, using(crate::proofs::Counting::count_less))]
    pub fn stop(&mut self, a: Activity)
        ensures tasks { tasks_in self.new ≡ changed (tasks_in self.old) (first (ready_in self.old)) (doing a (tasks_in self.old (first (ready_in self.old)))) }
        ensures list { ready_in self.new ≡ removed (first (ready_in self.old)) (ready_in self.old) }
    {
        let t = self.leave();
        self.edit(t, |x| x.activity = a);
    }

    // The running task ends.
    #[tactic(auto, using(crate::proofs::Counting::count_less))]
    pub fn finish(&mut self)
        ensures tasks { tasks_in self.new ≡ changed (tasks_in self.old) (first (ready_in self.old)) None }
        ensures list { ready_in self.new ≡ removed (first (ready_in self.old)) (ready_in self.old) }
    {
        let t = self.leave();
        self.replace(t, None);
    }

    // The running task has collected its answer.
    #[tactic(auto, using(crate::proofs::Counting::count_same))]
    pub fn settle(&mut self)
        ensures tasks { tasks_in self.new ≡ changed (tasks_in self.old) (first (ready_in self.old)) (settled (tasks_in self.old (first (ready_in self.old)))) }
        ensures list { ready_in self.new ≡ ready_in self.old }
    {
        let t = self.running();
        self.edit(t, |x| x.due = None);
    }

    // The running task leaves the list with another deadline, and has yet to enter it again.
    // It asks for a task that runs, since the room is that of the number that leaves.
    #[tactic(auto, using(crate::proofs::Counting::count_same))]
    pub fn defer(&mut self, deadline: u32)
        requires { 0 < first (ready_in self.old) }
        ensures tasks { tasks_in self.new ≡ changed (tasks_in self.old) (first (ready_in self.old)) (with_deadline deadline (tasks_in self.old (first (ready_in self.old)))) }
        ensures list { ready_in self.new ≡ removed (first (ready_in self.old)) (ready_in self.old) }
        ensures room { HasRoom self.new }
    {
        let t = self.leave();
        self.edit(t, |x| x.urgency.deadline = deadline);
    }

    // The running task leaves the list, if one stands there; its number.
    fn leave(&mut self) -> TaskNumber
        ensures number { result ≡ first (ready_in self.old) }
        ensures table { self.new.tasks ≡ self.old.tasks }
        ensures list { ready_in self.new ≡ removed (first (ready_in self.old)) (ready_in self.old) }
        ensures length { length (ready_in self.new) ≡ length (ready_in self.old) - 1 }
    {
        let t = self.running();
        self.ready.remove_first();
        t
    }

    // A task changes, if it lives, where the list stays covered.
    fn edit<F: FnOnce(&mut Task)>(&mut self, t: TaskNumber, change: F)
        requires callable { IfSome (slice_index_or self.old.tasks t None) (λ x. FnOnceTakesAtMut F.FnOnce change x) }
        requires covered { IfSome (slice_index_or self.old.tasks t None) (λ x. (y : Task) → FnOnceReturnsAtMut F.FnOnce change x tt y → length (ready_in self.old) ≤ ready_count (slice_set self.old.tasks t (Some y))) }
        ensures table { MatchOption (slice_index_or self.old.tasks t None) (self.new.tasks ≡ self.old.tasks) (λ x. (y : Task) × FnOnceReturnsAtMut F.FnOnce change x tt y × (self.new.tasks ≡ slice_set self.old.tasks t (Some y))) }
        ensures list { ready_in self.new ≡ ready_in self.old }
    {
        edit(&mut self.tasks, usize::from(t), change);
    }

    // Whatever becomes of a task, where the list stays covered. One line over `write`, as in the table of mailboxes: each table
    // has its own meaning to tell of.
    fn replace(&mut self, t: TaskNumber, x: Option<Task>)
        requires number { is_some x ≡ true → t < 64 }
        requires covered { length (ready_in self.old) ≤ ready_count (slice_set self.old.tasks t x) }
        ensures table { self.new.tasks ≡ slice_set self.old.tasks t x }
        ensures tasks { tasks_in self.new ≡ changed (tasks_in self.old) t x }
        ensures list { ready_in self.new ≡ ready_in self.old }
    {
        write(&mut self.tasks, usize::from(t), x);
    }
}
