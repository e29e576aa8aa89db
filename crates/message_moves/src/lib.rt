// How messages come and go, each step as the rules have it: functions on an engine, which may ask something of
// their callers.
#![tactic(auto)]

ghost use Rattle.std.specs.Prelude.{◌≡◌, true, [], is_some, Some, None, Ok};
ghost use Rattle.refusals.specs.Refusals.{outcome};
ghost use Rattle.art.specs.Verbs.{mailbox_at, oldest, use_number, wake_sender};
ghost use Rattle.art.specs.Rules.{Answered, arrive};
ghost use Rattle.mailboxes.specs.Meaning.{room_for_message};
ghost use Rattle.engine.specs.Model.{Gives, fetched, kind_of, numbered, taken, view};

use art::{Activity, Answer, Event, MailboxNumber, Message, Order, Refusal, Status, TaskNumber};
use engine::{Engine, brought, release, sent};
use store::{Store, StoreFault};

// An accepted message uses up the next number, and goes to the oldest receiver, or to the end of the queue, where
// its sender may wait.
fn arrive<S: Store, O: Order>(
    engine: &mut Engine<S, O>,
    mailbox: MailboxNumber,
    message: u32,
    sender: Option<TaskNumber>,
    displaced: Option<u32>,
) -> Answer
    requires next { message ≡ (view S.Store engine.old).next }
    requires room { room_for_message ((view S.Store engine.old).mailboxes mailbox) }
    ensures { Gives (arrive (kind_of S.Store O.Order) (use_number (view S.Store engine.old)) mailbox message sender displaced (oldest (mailbox_at (view S.Store engine.old) mailbox).receivers)) (Answered (Ok result)) [] (view S.Store engine.new) }
{
    engine.tables.next = message.checked_add(1);
    engine.tables.counts.accept();
    if let Some(receiver) = engine.tables.mailboxes.oldest_receiver(mailbox) {
        engine.tables.mailboxes.leave_oldest(mailbox);
        engine.tables.counts.hand_over();
        engine.wake(receiver, Event::HandOver { message });
        return sent(Status::Ok, message, displaced);
    }
    let number = message;
    engine
        .tables
        .mailboxes
        .queue(mailbox, Message { number, sender });
    match sender {
        Some(_) => {
            engine.block(Activity::Sending { mailbox, message });
            sent(Status::Blocked, message, None)
        }
        None => sent(Status::Ok, message, displaced),
    }
}

// The store takes the bytes under the next number, and the message arrives.
pub fn post<S: Store, O: Order>(
    engine: &mut Engine<S, O>,
    mailbox: MailboxNumber,
    bytes: &[u8],
    sender: Option<TaskNumber>,
) -> Result<Answer, Refusal>
    requires room { room_for_message ((view S.Store engine.old).mailboxes mailbox) }
    ensures { Gives (numbered (kind_of S.Store O.Order) (view S.Store engine.old) mailbox bytes.now sender None) (Answered (outcome result)) [] (view S.Store engine.new) }
{
    let message = engine.next_number()?;
    engine.store.put(message, bytes)?;
    Ok(arrive(engine, mailbox, message, sender, None))
}

// The same as post at a mailbox that is full, whose oldest message makes room. Nothing changes before
// the store is known to take the bytes then.
pub fn post_displacing<S: Store, O: Order>(
    engine: &mut Engine<S, O>,
    mailbox: MailboxNumber,
    bytes: &[u8],
    oldest: Message,
) -> Result<Answer, Refusal>
    requires { is_some ((view S.Store engine.old).mailboxes mailbox) ≡ true }
    ensures { Gives (numbered (kind_of S.Store O.Order) (view S.Store engine.old) mailbox bytes.now None (Some oldest)) (Answered (outcome result)) [] (view S.Store engine.new) }
{
    let message = engine.next_number()?;
    engine.could_displace(oldest, bytes)?;
    engine.tables.mailboxes.unqueue_oldest(mailbox);
    engine.tables.counts.displace();
    release(&mut engine.store, oldest.number);
    let _ = engine.store.put(message, bytes);
    Ok(arrive(engine, mailbox, message, None, Some(oldest.number)))
}

// The sender that waited with a message is told of its hand-over.
fn wake_sender<S: Store, O: Order>(engine: &mut Engine<S, O>, message: Message)
    ensures { view S.Store engine.new ≡ wake_sender (kind_of S.Store O.Order) (view S.Store engine.old) message message.sender }
{
    if let Some(sender) = message.sender {
        let message = message.number;
        engine.wake(sender, Event::HandOver { message });
    }
}

// The oldest message of a mailbox is handed over: its bytes go to the buffer and leave the store.
pub fn take<S: Store, O: Order>(
    engine: &mut Engine<S, O>,
    mailbox: MailboxNumber,
    message: Message,
    buffer: &mut [u8],
) -> Result<Answer, Refusal>
    ensures { Gives (taken (kind_of S.Store O.Order) (view S.Store engine.old) mailbox buffer.old message) (Answered (outcome result)) buffer.new (view S.Store engine.new) }
{
    let length = engine.store.copy(message.number, buffer)?;
    engine.tables.mailboxes.unqueue_oldest(mailbox);
    engine.tables.counts.hand_over();
    release(&mut engine.store, message.number);
    wake_sender(engine, message);
    Ok(brought(message.number, length))
}

// The message that the running task was given comes into its buffer, and its bytes leave the store.
pub fn fetch<S: Store, O: Order>(
    engine: &mut Engine<S, O>,
    message: u32,
    buffer: &mut [u8],
) -> Result<Answer, Refusal>
    ensures { Gives (fetched (kind_of S.Store O.Order) (view S.Store engine.old) buffer.old message) (Answered (outcome result)) buffer.new (view S.Store engine.new) }
{
    match engine.store.copy(message, buffer) {
        Ok(length) => {
            release(&mut engine.store, message);
            engine.tables.roster.settle();
            Ok(brought(message, length))
        }
        Err(StoreFault::Cramped { .. }) => Err(Refusal::ShortCollect {
            task: engine.running(),
        }),
        Err(fault) => Err(Refusal::from(fault)),
    }
}
