// The running kernel.
ghost use Rattle.std.specs.Prelude.{[]};
ghost use Rattle.refusals.specs.Refusals.{outcome};
ghost use Rattle.art.specs.Record.{Close, Collect, Deadline, ReceiveNoWait, ReceiveWait, RemoveMailbox, Running, SendNoWait, SendWait, SetDeadline, SetTicks, Terminate, Tick, Ticks, Wait};
ghost use Rattle.art.specs.Rules.{Answered, Counted, Number, Ticked};
ghost use Rattle.kernel.specs.Takes.{LawfulWith, Takes};

use crate::kernels::Kernel;
use art::{Answer, Counts, MailboxNumber, Order, Refusal, TaskNumber};
use store::Store;

impl<S: Store, O: Order> Kernel<S, O> {
    // Removes the running task.
    pub fn terminate(&mut self) -> Result<Answer, Refusal>
        ensures takes { Takes S.Store O.Order Terminate self.old.engine (Answered (outcome result)) [] self.new.engine }
        ensures lawful { LawfulWith S.Store O.Order Terminate self.old.engine }
    {
        task_calls::terminate(&mut self.engine)
    }

    // Removes a mailbox that holds nothing.
    pub fn remove_mailbox(&mut self, mailbox: MailboxNumber) -> Result<Answer, Refusal>
        ensures takes { Takes S.Store O.Order (RemoveMailbox mailbox) self.old.engine (Answered (outcome result)) [] self.new.engine }
        ensures lawful { LawfulWith S.Store O.Order (RemoveMailbox mailbox) self.old.engine }
    {
        task_calls::remove_mailbox(&mut self.engine, mailbox)
    }

    // Sends a message, and waits with it where no receiver waits for it.
    pub fn send_wait(&mut self, mailbox: MailboxNumber, bytes: &[u8]) -> Result<Answer, Refusal>
        ensures takes { Takes S.Store O.Order (SendWait mailbox bytes.now) self.old.engine (Answered (outcome result)) [] self.new.engine }
        ensures lawful { LawfulWith S.Store O.Order (SendWait mailbox bytes.now) self.old.engine }
    {
        message_calls::send_wait(&mut self.engine, mailbox, bytes)
    }

    // Sends a message and goes on; at a full mailbox the oldest message makes room.
    pub fn send_no_wait(&mut self, mailbox: MailboxNumber, bytes: &[u8]) -> Result<Answer, Refusal>
        ensures takes { Takes S.Store O.Order (SendNoWait mailbox bytes.now) self.old.engine (Answered (outcome result)) [] self.new.engine }
        ensures lawful { LawfulWith S.Store O.Order (SendNoWait mailbox bytes.now) self.old.engine }
    {
        message_calls::send_no_wait(&mut self.engine, mailbox, bytes)
    }

    // Takes the oldest message, or waits for one.
    pub fn receive_wait(
        &mut self,
        mailbox: MailboxNumber,
        buffer: &mut [u8],
    ) -> Result<Answer, Refusal>
        ensures takes { Takes S.Store O.Order (ReceiveWait mailbox buffer.old) self.old.engine (Answered (outcome result)) buffer.new self.new.engine }
        ensures lawful { LawfulWith S.Store O.Order (ReceiveWait mailbox buffer.old) self.old.engine }
    {
        message_calls::receive_wait(&mut self.engine, mailbox, buffer)
    }

    // Takes the oldest message, if there is one.
    pub fn receive_no_wait(
        &mut self,
        mailbox: MailboxNumber,
        buffer: &mut [u8],
    ) -> Result<Answer, Refusal>
        ensures takes { Takes S.Store O.Order (ReceiveNoWait mailbox buffer.old) self.old.engine (Answered (outcome result)) buffer.new self.new.engine }
        ensures lawful { LawfulWith S.Store O.Order (ReceiveNoWait mailbox buffer.old) self.old.engine }
    {
        message_calls::receive_no_wait(&mut self.engine, mailbox, buffer)
    }

    // Puts the running task to sleep for some ticks.
    pub fn wait(&mut self, ticks: u32) -> Result<Answer, Refusal>
        ensures takes { Takes S.Store O.Order (Wait ticks) self.old.engine (Answered (outcome result)) [] self.new.engine }
        ensures lawful { LawfulWith S.Store O.Order (Wait ticks) self.old.engine }
    {
        time_calls::wait(&mut self.engine, ticks)
    }

    // Gives the running task the answer due, and ends the debt.
    pub fn collect(&mut self, buffer: &mut [u8]) -> Result<Answer, Refusal>
        ensures takes { Takes S.Store O.Order (Collect buffer.old) self.old.engine (Answered (outcome result)) buffer.new self.new.engine }
        ensures lawful { LawfulWith S.Store O.Order (Collect buffer.old) self.old.engine }
    {
        message_calls::collect(&mut self.engine, buffer)
    }

    // The running task leaves the ready list, and enters it again with its new deadline.
    pub fn set_deadline(&mut self, deadline: u32) -> Result<Answer, Refusal>
        ensures takes { Takes S.Store O.Order (SetDeadline deadline) self.old.engine (Answered (outcome result)) [] self.new.engine }
        ensures lawful { LawfulWith S.Store O.Order (SetDeadline deadline) self.old.engine }
    {
        time_calls::set_deadline(&mut self.engine, deadline)
    }

    // Sets the counter alone.
    pub fn set_ticks(&mut self, ticks: u32) -> Result<Answer, Refusal>
        ensures takes { Takes S.Store O.Order (SetTicks ticks) self.old.engine (Answered (outcome result)) [] self.new.engine }
        ensures lawful { LawfulWith S.Store O.Order (SetTicks ticks) self.old.engine }
    {
        time_calls::set_ticks(&mut self.engine, ticks)
    }

    // The counter.
    pub fn ticks(&self) -> u32
        ensures takes { Takes S.Store O.Order Ticks self.now.engine (Number result) [] self.now.engine }
        ensures lawful { LawfulWith S.Store O.Order Ticks self.now.engine }
    {
        time_calls::ticks(&self.engine)
    }

    // The running task's deadline.
    pub fn deadline(&self) -> u32
        ensures takes { Takes S.Store O.Order Deadline self.now.engine (Number result) [] self.now.engine }
        ensures lawful { LawfulWith S.Store O.Order Deadline self.now.engine }
    {
        time_calls::deadline(&self.engine)
    }

    // The running task's number.
    pub fn running(&self) -> TaskNumber
        ensures takes { Takes S.Store O.Order Running self.now.engine (Number result) [] self.now.engine }
        ensures lawful { LawfulWith S.Store O.Order Running self.now.engine }
    {
        time_calls::running(&self.engine)
    }

    // The counter rises by 1, and every task is visited; answers how many were readied, and who runs.
    pub fn tick(&mut self) -> (usize, TaskNumber)
        ensures takes { Takes S.Store O.Order Tick self.old.engine (Ticked result.0 result.1) [] self.new.engine }
        ensures lawful { LawfulWith S.Store O.Order Tick self.old.engine }
    {
        time_calls::tick(&mut self.engine)
    }
}

impl<S: Store + Drop, O: Order + Drop> Kernel<S, O> {
    // Takes the kernel away, store and order with it, and answers the five counts.
    pub fn close(self) -> Counts
        ensures takes { Takes S.Store O.Order Close self.engine (Counted result) [] self.engine }
        ensures lawful { LawfulWith S.Store O.Order Close self.engine }
    {
        time_calls::close(&self.engine)
    }
}
