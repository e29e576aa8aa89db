// Who runs, who is ready, and how a task comes to be ready or ceases to be.
ghost use Rattle.std.specs.Prelude.{◌≡◌, ◌<◌, ◌≤◌, true, false, ◌||◌, length, Some, ◌==◌};
ghost use Rattle.std.specs.List.{insert, position};
ghost use Rattle.art.specs.State.{running, with_task};
ghost use Rattle.art.specs.Verbs.{block, due_of, enter, entered, urgent, wake, with_deadline, removed, settle};
ghost use Rattle.art.specs.Rules.{after_set_deadline};
ghost use Rattle.roster.specs.Places.{is_ready, stands_ready};
ghost use Rattle.roster.specs.View.{HasRoom};
ghost use Rattle.engine.specs.Model.{kind_of, view};

use crate::due::due_after;
use crate::tables::Engine;
use art::{Activity, Event, IDLE_TASK, Order, Task, TaskNumber};
use store::Store;

impl<S: Store, O: Order> Engine<S, O> {
    // Whether task t enters the ready list in front of u: task 0 stays last.
    fn passes(&self, t: TaskNumber, u: TaskNumber) -> bool
        ensures { result ≡ (u == 0 || urgent (kind_of S.Store O.Order) ((view S.Store self.now).tasks t) ((view S.Store self.now).tasks u)) }
    {
        if u == IDLE_TASK {
            return true;
        }
        let roster = &self.tables.roster;
        match (roster.task(t), roster.task(u)) {
            (Some(first), Some(second)) => { self.order.goes_before(first.urgency, second.urgency) }
            _ => false,
        }
    }

    // Where the first stands that task t passes, if there is one.
    fn first_passed(&self, t: TaskNumber) -> Option<usize>
        ensures { result ≡ position (λ u. u == 0 || urgent (kind_of S.Store O.Order) ((view S.Store self.now).tasks t) ((view S.Store self.now).tasks u)) (view S.Store self.now).ready }
    {
        self.tables
            .roster
            .ready()
            .iter()
            .position(|u| self.passes(t, *u))
    }

    // Where task t enters the ready list.
    fn place(&self, t: TaskNumber) -> usize
        ensures within { result ≤ length (view S.Store self.now).ready }
        ensures enters { insert (view S.Store self.now).ready result t ≡ entered (kind_of S.Store O.Order) (view S.Store self.now).tasks t (view S.Store self.now).ready }
    {
        self.first_passed(t)
            .unwrap_or(self.tables.roster.ready_len())
    }

    // A ready task enters the ready list, which has room for it.
    fn enter(&mut self, t: TaskNumber)
        requires { HasRoom self.old.tables.roster }
        ensures { view S.Store self.new ≡ enter (kind_of S.Store O.Order) (view S.Store self.old) t }
    {
        let at = self.place(t);
        self.tables.roster.insert(at, t);
    }

    // A task that is not ready becomes the ready task x, and enters the ready list. It asks for a number that has a place, since
    // x is there afterwards.
    pub fn admit(&mut self, t: TaskNumber, x: Task)
        requires number { t < 64 }
        requires before { stands_ready ((view S.Store self.old).tasks t) ≡ false }
        requires after { is_ready x.activity ≡ true }
        ensures { view S.Store self.new ≡ enter (kind_of S.Store O.Order) (with_task (view S.Store self.old) t (Some x)) t }
    {
        self.tables.roster.start(t, x);
        self.enter(t);
    }

    // A task that the event concerns becomes ready, with its answer due.
    pub fn wake(&mut self, t: TaskNumber, event: Event)
        ensures { view S.Store self.new ≡ wake (kind_of S.Store O.Order) (view S.Store self.old) t event }
    {
        let Some(task) = self.tables.roster.task(t) else {
            return;
        };
        let Some(due) = due_after(task, event) else {
            return;
        };
        let woken = Task {
            activity: Activity::Ready,
            due: Some(due),
            ..task
        };
        self.admit(t, woken);
    }

    // The running task leaves the ready list to wait or to sleep.
    pub fn block(&mut self, activity: Activity)
        ensures { view S.Store self.new ≡ block (view S.Store self.old) activity }
    {
        self.tables.roster.stop(activity);
    }

    // The running task leaves the ready list, and enters it again with another deadline. It asks for a task that runs, since the
    // list has room for the number that leaves it.
    pub fn reenter(&mut self, deadline: u32)
        requires { 0 < running (view S.Store self.old) }
        ensures { view S.Store self.new ≡ after_set_deadline (kind_of S.Store O.Order) (view S.Store self.old) deadline }
    {
        let t = self.tables.roster.running();
        self.tables.roster.defer(deadline);
        self.enter(t);
    }
}
