// The gates that most calls go through first: who calls, which mailbox is named, whether a number is left for a message.
ghost use Rattle.std.specs.Prelude.{◌≡◌, ◌<◌, true, [], ◌∷◌, is_ok, Some, Ok, Err, MatchResult};
ghost use Rattle.store.specs.Refusal.{tried};
ghost use Rattle.refusals.specs.Refusals.{outcome, told};
ghost use Rattle.art.specs.State.{running};
ghost use Rattle.art.specs.Rules.{answer_due, bad_mailbox, idle_calls, no_mailbox, numbers_spent};
ghost use Rattle.mailboxes.specs.Meaning.{meaning};
ghost use Rattle.engine.specs.Model.{view};

use crate::tables::Engine;
use art::{IDLE_TASK, LAST_MAILBOX, MailboxNumber, Order, Refusal, TaskNumber};
use mailboxes::Mailbox;
use store::Store;

// A number that a mailbox can have.
pub fn checked_mailbox(number: MailboxNumber) -> Result<MailboxNumber, Refusal>
    ensures { outcome result ≡ tried (bad_mailbox number ∷ []) number }
{
    if number > LAST_MAILBOX {
        return Err(Refusal::BadNumber { given: number });
    }
    Ok(number)
}

impl<S: Store, O: Order> Engine<S, O> {
    // The running task, unless an answer is due to it.
    pub fn caller(&self) -> Result<TaskNumber, Refusal>
        ensures { outcome result ≡ tried (answer_due (view S.Store self.now) ∷ []) (running (view S.Store self.now)) }
    {
        let task = self.running();
        if self.is_answer_due() {
            return Err(Refusal::AnswerDue { task });
        }
        Ok(task)
    }

    // The same where the idle task is refused too.
    pub fn busy_caller(&self) -> Result<TaskNumber, Refusal>
        ensures { outcome result ≡ tried (answer_due (view S.Store self.now) ∷ idle_calls (view S.Store self.now) ∷ []) (running (view S.Store self.now)) }
    {
        let task = self.caller()?;
        if task == IDLE_TASK {
            return Err(Refusal::IdleTask { task });
        }
        Ok(task)
    }

    // The mailbox of a number.
    pub fn mailbox(&self, mailbox: MailboxNumber) -> Result<&Mailbox, Refusal>
        ensures value { MatchResult result (λ row. (view S.Store self.now).mailboxes mailbox ≡ Some (meaning row.now)) (λ refusal. Err (told refusal) ≡ tried (bad_mailbox mailbox ∷ no_mailbox (view S.Store self.now) mailbox ∷ []) mailbox) }
        ensures below { is_ok result ≡ true → mailbox < 32 }
    {
        checked_mailbox(mailbox)?;
        self.tables
            .mailboxes
            .find(mailbox)
            .ok_or(Refusal::NoMailbox { mailbox })
    }

    // The number of the next message.
    pub fn next_number(&self) -> Result<u32, Refusal>
        ensures { outcome result ≡ tried (numbers_spent (view S.Store self.now) ∷ []) (view S.Store self.now).next }
    {
        self.tables.next.ok_or(Refusal::NumbersSpent {
            task: self.running(),
        })
    }
}
