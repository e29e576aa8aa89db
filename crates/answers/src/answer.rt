// What an accepted call answers, and the five counts.
ghost use Rattle.std.specs.Prelude.{◌≡◌, ◌-◌, Some};
ghost use Rattle.answers.specs.Answers.{status_text, answer_text, counts_text, field_text};
ghost use Rattle.answers.specs.Counts.{count_accepted, count_displaced, count_handed_over, count_withdrawn, no_message, one_more};

use std::fmt::{self, Display};

#[derive(Clone, Copy, Debug, PartialEq, Eq)]
pub enum Status {
    Ok,
    // The task waits or sleeps; its answer will be due once it is ready again.
    Blocked,
    DeadlineReached,
}

// What an accepted call answers. A field that does not apply is absent.
#[derive(Clone, Copy, Debug, PartialEq, Eq)]
pub struct Answer {
    pub status: Status,
    // The message that was sent, or brought.
    pub message: Option<u32>,
    // The length of the message that was brought.
    pub length: Option<usize>,
    // The message that a send to a full mailbox displaced.
    pub displaced: Option<u32>,
}

// How many messages had each fate; a count stays at its largest value once it is reached.
#[derive(Clone, Copy, Debug, Default, PartialEq, Eq)]
pub struct Counts {
    pub accepted: u64,
    pub queued: u64,
    pub handed_over: u64,
    pub withdrawn: u64,
    pub displaced: u64,
}

impl Status {
    pub fn name(&self) -> &'static str
        ensures { result.now ≡ status_text self.now }
    {
        match self {
            Self::Ok => "OK",
            Self::Blocked => "BLOCKED",
            Self::DeadlineReached => "DEADLINE_REACHED",
        }
    }
}

impl Counts {
    // Before the first message.
    pub fn none() -> Counts
        ensures { result ≡ no_message }
    {
        Counts::default()
    }

    // A message is accepted, and queued until it has another fate.
    pub fn accept(&mut self)
        ensures { self.new ≡ count_accepted self.old }
    {
        self.accepted = self.accepted.saturating_add(1);
        self.queued = self.queued.saturating_add(1);
    }

    // A queued message is handed over.
    pub fn hand_over(&mut self)
        ensures { self.new ≡ count_handed_over self.old }
    {
        move_one(&mut self.queued, &mut self.handed_over);
    }

    // A queued message is withdrawn.
    pub fn withdraw(&mut self)
        ensures { self.new ≡ count_withdrawn self.old }
    {
        move_one(&mut self.queued, &mut self.withdrawn);
    }

    // A queued message is displaced.
    pub fn displace(&mut self)
        ensures { self.new ≡ count_displaced self.old }
    {
        move_one(&mut self.queued, &mut self.displaced);
    }
}

// One message leaves a count and joins another.
fn move_one(from: &mut u64, to: &mut u64)
    ensures from { from.new ≡ from.old - 1 }
    ensures to { to.new ≡ one_more to.old }
{
    *from = from.saturating_sub(1);
    *to = to.saturating_add(1);
}

impl fmt::Display for Status {
    ghost output = { λ x. Some (status_text x) };

    fn fmt<W: fmt::Write>(&self, f: &mut fmt::Formatter<W>) -> fmt::Result {
        f.write_str(self.name())
    }
}

// A field of an answer and its number, or nothing where it is absent. Always inlined, as the print of a refusal is (crate
// `store`): where the caller's formatter isn't known, each piece costs some three times as much.
#[derive(Clone, Copy)]
struct Field(&'static str, Option<u64>);

impl fmt::Display for Field {
    ghost output = { λ x. Some (field_text x.0.now x.1) };

    #[inline(always)]
    fn fmt<W: fmt::Write>(&self, f: &mut fmt::Formatter<W>) -> fmt::Result {
        match self.1 {
            Some(number) => write!(f, "{}{number}", self.0),
            None => Ok(()),
        }
    }
}

impl fmt::Display for Answer {
    ghost output = { λ x. Some (answer_text x) };

    fn fmt<W: fmt::Write>(&self, f: &mut fmt::Formatter<W>) -> fmt::Result {
        self.status.fmt(f)?;
        Field(" message=", self.message.map(u64::from)).fmt(f)?;
        // A cast, since from usize there is no `From`, and `try_from(..).unwrap()` is no plainer.
        Field(" length=", self.length.map(|n| n as u64)).fmt(f)?;
        Field(" displaced=", self.displaced.map(u64::from)).fmt(f)
    }
}

impl fmt::Display for Counts {
    ghost output = { λ x. Some (counts_text x) };

    fn fmt<W: fmt::Write>(&self, f: &mut fmt::Formatter<W>) -> fmt::Result {
        let Counts {
            accepted,
            queued,
            handed_over,
            withdrawn,
            displaced,
        } = *self;
        write!(
            f,
            "accepted={accepted} queued={queued} handed_over={handed_over} withdrawn={withdrawn} displaced={displaced}"
        )
    }
}
