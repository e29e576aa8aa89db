// The two receives. Each tests its buffer itself: a function for that one test, with its contract, would be longer than both.
// Engine, mailbox and buffer are a call's own arguments, passed on as they came; functions, as the sends are.
ghost use Rattle.refusals.specs.Refusals.{outcome};
ghost use Rattle.art.specs.Record.{ReceiveNoWait, ReceiveWait};
ghost use Rattle.art.specs.Rules.{Answered};
ghost use Rattle.engine.specs.Model.{Does};

use art::{Activity, Answer, MailboxNumber, Order, Refusal, Status};
use engine::{Engine, plainly};
use message_moves::take;
use store::Store;

// Takes the oldest message, or waits for one.
pub fn receive_wait<S: Store, O: Order>(
    engine: &mut Engine<S, O>,
    mailbox: MailboxNumber,
    buffer: &mut [u8],
) -> Result<Answer, Refusal>
    ensures { Does S.Store O.Order (ReceiveWait mailbox buffer.old) engine.old (Answered (outcome result)) buffer.new engine.new }
{
    let task = engine.busy_caller()?;
    let row = engine.mailbox(mailbox)?;
    if buffer.len() < usize::from(row.size()) {
        return Err(Refusal::ShortBuffer { mailbox });
    }
    if row.receivers_fill() {
        return Err(Refusal::Full { mailbox });
    }
    if let Some(message) = row.oldest() {
        return take(engine, mailbox, message, buffer);
    }
    engine.tables.mailboxes.join_receivers(mailbox, task);
    engine.block(Activity::Receiving { mailbox });
    Ok(plainly(Status::Blocked))
}

// Takes the oldest message, if there is one.
pub fn receive_no_wait<S: Store, O: Order>(
    engine: &mut Engine<S, O>,
    mailbox: MailboxNumber,
    buffer: &mut [u8],
) -> Result<Answer, Refusal>
    ensures { Does S.Store O.Order (ReceiveNoWait mailbox buffer.old) engine.old (Answered (outcome result)) buffer.new engine.new }
{
    engine.caller()?;
    let row = engine.mailbox(mailbox)?;
    if buffer.len() < usize::from(row.size()) {
        return Err(Refusal::ShortBuffer { mailbox });
    }
    let message = row.oldest().ok_or(Refusal::Empty { mailbox })?;
    take(engine, mailbox, message, buffer)
}
