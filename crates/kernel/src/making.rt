// What a kernel does at every stage: tasks and mailboxes are made.
ghost use Rattle.std.specs.Prelude.{[]};
ghost use Rattle.refusals.specs.Refusals.{outcome};
ghost use Rattle.art.specs.Record.{CreateMailbox, CreateTask};
ghost use Rattle.art.specs.Rules.{Answered};
ghost use Rattle.kernel.specs.Takes.{LawfulWith, Takes};

use crate::kernels::Kernel;
use art::{Answer, MailboxNumber, Order, Refusal, TaskNumber};
use store::Store;

impl<S: Store, O: Order, Stage> Kernel<S, O, Stage> {
    // Makes a ready task.
    pub fn create_task(
        &mut self,
        number: TaskNumber,
        deadline: u32,
        level: u8,
    ) -> Result<Answer, Refusal>
        ensures takes { Takes S.Store O.Order (CreateTask number deadline level) self.old.engine (Answered (outcome result)) [] self.new.engine }
        ensures lawful { LawfulWith S.Store O.Order (CreateTask number deadline level) self.old.engine }
    {
        task_calls::create_task(&mut self.engine, number, deadline, level)
    }

    // Makes an empty mailbox.
    pub fn create_mailbox(
        &mut self,
        number: MailboxNumber,
        capacity: u8,
        size: u8,
    ) -> Result<Answer, Refusal>
        ensures takes { Takes S.Store O.Order (CreateMailbox number capacity size) self.old.engine (Answered (outcome result)) [] self.new.engine }
        ensures lawful { LawfulWith S.Store O.Order (CreateMailbox number capacity size) self.old.engine }
    {
        task_calls::create_mailbox(&mut self.engine, number, capacity, size)
    }
}
