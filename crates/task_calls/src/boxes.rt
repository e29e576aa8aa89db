// Mailboxes come and go.
ghost use Rattle.std.specs.Prelude.{[]};
ghost use Rattle.refusals.specs.Refusals.{outcome};
ghost use Rattle.art.specs.Record.{CreateMailbox, RemoveMailbox};
ghost use Rattle.art.specs.Rules.{Answered};
ghost use Rattle.engine.specs.Model.{Does};

use art::{Answer, MOST_ENTRIES, MailboxNumber, Order, Refusal, Status};
use engine::{Engine, checked_mailbox, plainly};
use store::{MAX_LENGTH, Store};

// Makes an empty mailbox.
pub fn create_mailbox<S: Store, O: Order>(
    engine: &mut Engine<S, O>,
    number: MailboxNumber,
    capacity: u8,
    size: u8,
) -> Result<Answer, Refusal>
    ensures { Does S.Store O.Order (CreateMailbox number capacity size) engine.old (Answered (outcome result)) [] engine.new }
{
    engine.caller()?;
    checked_mailbox(number)?;
    if capacity == 0 || capacity > MOST_ENTRIES || size == 0 || usize::from(size) > MAX_LENGTH {
        return Err(Refusal::BadShape { given: number });
    }
    if engine.tables.mailboxes.find(number).is_some() {
        return Err(Refusal::Taken { given: number });
    }
    engine.tables.mailboxes.open(number, capacity, size);
    Ok(plainly(Status::Ok))
}

// Removes a mailbox that holds nothing.
pub fn remove_mailbox<S: Store, O: Order>(
    engine: &mut Engine<S, O>,
    mailbox: MailboxNumber,
) -> Result<Answer, Refusal>
    ensures { Does S.Store O.Order (RemoveMailbox mailbox) engine.old (Answered (outcome result)) [] engine.new }
{
    engine.caller()?;
    if !engine.mailbox(mailbox)?.is_empty() {
        return Err(Refusal::NotEmpty { mailbox });
    }
    engine.tables.mailboxes.close(mailbox);
    Ok(plainly(Status::Ok))
}
