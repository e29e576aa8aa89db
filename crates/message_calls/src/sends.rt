// The two sends. Engine, mailbox and bytes are a call's own arguments, passed on as they came; the calls are functions, since a
// method stands in its type's own crate.
ghost use Rattle.std.specs.Prelude.{◌≡◌, [], ◌∷◌, cond, Some, None, Ok, Err, MatchResult};
ghost use Rattle.store.specs.Refusal.{tried};
ghost use Rattle.refusals.specs.Refusals.{outcome, told};
ghost use Rattle.art.specs.Record.{SendNoWait, SendWait};
ghost use Rattle.art.specs.Rules.{Answered, bad_mailbox, mixed, no_mailbox, wrong_size};
ghost use Rattle.art.specs.Verbs.{fills, oldest};
ghost use Rattle.mailboxes.specs.Meaning.{meaning, room_for_message};
ghost use Rattle.engine.specs.Model.{Does, Gives, kind_of, numbered, view};

use art::{Answer, MailboxNumber, Message, Order, Refusal, TaskNumber};
use engine::Engine;
use mailboxes::Mailbox;
use message_moves::{post, post_displacing};
use store::Store;

// The mailbox of a number, where messages of this length come in this mode, which is a bool as in the rules.
fn open_to<'a, S: Store, O: Order>(
    engine: &'a Engine<S, O>,
    mailbox: MailboxNumber,
    bytes: &[u8],
    waiting: bool,
) -> Result<&'a Mailbox, Refusal>
    ensures { let rows = bad_mailbox mailbox ∷ no_mailbox (view S.Store engine.now) mailbox ∷ wrong_size (view S.Store engine.now) mailbox bytes.now ∷ mixed (view S.Store engine.now) mailbox waiting ∷ [] in MatchResult result (λ row. (Ok mailbox ≡ tried rows mailbox) × ((view S.Store engine.now).mailboxes mailbox ≡ Some (meaning row.now))) (λ refusal. Err (told refusal) ≡ tried rows mailbox) }
{
    let row = engine.mailbox(mailbox)?;
    if bytes.len() != usize::from(row.size()) {
        return Err(Refusal::WrongSize { mailbox });
    }
    if row.is_other_mode(waiting) {
        return Err(Refusal::Mixed { mailbox });
    }
    Ok(row)
}

// The message comes with its sender, which waits with it where no receiver does. A step of its own: the check proves it alone,
// and refuses here a call without the sender; the last step of send_wait needs an answer, and search did not find it.
fn post_from<S: Store, O: Order>(
    engine: &mut Engine<S, O>,
    mailbox: MailboxNumber,
    bytes: &[u8],
    task: TaskNumber,
) -> Result<Answer, Refusal>
    requires { room_for_message ((view S.Store engine.old).mailboxes mailbox) }
    ensures { Gives (numbered (kind_of S.Store O.Order) (view S.Store engine.old) mailbox bytes.now (Some task) None) (Answered (outcome result)) [] (view S.Store engine.new) }
{
    post(engine, mailbox, bytes, Some(task))
}

// Sends a message, and waits with it where no receiver waits for it.
pub fn send_wait<S: Store, O: Order>(
    engine: &mut Engine<S, O>,
    mailbox: MailboxNumber,
    bytes: &[u8],
) -> Result<Answer, Refusal>
    ensures { Does S.Store O.Order (SendWait mailbox bytes.now) engine.old (Answered (outcome result)) [] engine.new }
{
    let task = engine.busy_caller()?;
    if open_to(engine, mailbox, bytes, true)?.messages_fill() {
        return Err(Refusal::Full { mailbox });
    }
    post_from(engine, mailbox, bytes, task)
}

// The message that a send displaces: the oldest where messages fill the mailbox.
fn displaced_at(mailbox: &Mailbox) -> Option<Message>
    ensures value { result ≡ cond (fills (meaning mailbox.now) (meaning mailbox.now).messages) (oldest (meaning mailbox.now).messages) None }
    ensures room { result ≡ None → room_for_message (Some (meaning mailbox.now)) }
{
    if mailbox.messages_fill() {
        mailbox.oldest()
    } else {
        None
    }
}

// Sends a message and goes on; at a full mailbox the oldest message makes room.
pub fn send_no_wait<S: Store, O: Order>(
    engine: &mut Engine<S, O>,
    mailbox: MailboxNumber,
    bytes: &[u8],
) -> Result<Answer, Refusal>
    ensures { Does S.Store O.Order (SendNoWait mailbox bytes.now) engine.old (Answered (outcome result)) [] engine.new }
{
    engine.caller()?;
    match displaced_at(open_to(engine, mailbox, bytes, false)?) {
        Some(oldest) => post_displacing(engine, mailbox, bytes, oldest),
        None => post(engine, mailbox, bytes, None),
    }
}
