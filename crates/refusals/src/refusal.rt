// Why the kernel refuses a call, and what the refusal tells: number, name, layer and place.
ghost use Rattle.std.specs.Prelude.{◌≡◌, Some};
ghost use Rattle.refusals.specs.Refusals.{number_of, name_of, layer_of, place_of, units_of, printed, told, store_told};

use answers::{MailboxNumber, TaskNumber};
use std::error::Error;
use std::fmt::{self, Display};
use store::{Layer, Particulars, StoreFault, Units};

// One case for each row of the table of refusals; SHORT_BUFFER has two, since its place differs.
#[derive(Clone, Copy, Debug, PartialEq, Eq)]
pub enum Refusal {
    AnswerDue { task: TaskNumber },
    NothingDue { task: TaskNumber },
    IdleTask { task: TaskNumber },
    // The number of a task or a mailbox, as it was given.
    BadNumber { given: u8 },
    BadLevel { given: u8 },
    BadShape { given: u8 },
    Taken { given: u8 },
    NoMailbox { mailbox: MailboxNumber },
    NotEmpty { mailbox: MailboxNumber },
    WrongSize { mailbox: MailboxNumber },
    // A receive's buffer.
    ShortBuffer { mailbox: MailboxNumber },
    // A collect's buffer.
    ShortCollect { task: TaskNumber },
    Mixed { mailbox: MailboxNumber },
    Empty { mailbox: MailboxNumber },
    Full { mailbox: MailboxNumber },
    TooLong { task: TaskNumber },
    NumbersSpent { task: TaskNumber },
    // The store's own refusal, whole.
    Store(StoreFault),
}

impl Refusal {
    // The table of refusals.
    pub fn particulars(&self) -> Particulars
        ensures number { result.number ≡ number_of self.now }
        ensures name { result.name.now ≡ name_of self.now }
        ensures layer { result.layer ≡ layer_of self.now }
        ensures place { result.place ≡ place_of self.now }
        ensures units { result.units ≡ units_of self.now }
    {
        let (number, name, layer, place) = match *self {
            Refusal::AnswerDue { task } => (1, "ANSWER_DUE", Layer::Kernel, task),
            Refusal::NothingDue { task } => (2, "NOTHING_DUE", Layer::Kernel, task),
            Refusal::IdleTask { task } => (3, "IDLE_TASK", Layer::Kernel, task),
            Refusal::BadNumber { given } => (4, "BAD_NUMBER", Layer::Kernel, given),
            Refusal::BadLevel { given } => (5, "BAD_LEVEL", Layer::Kernel, given),
            Refusal::BadShape { given } => (6, "BAD_SHAPE", Layer::Kernel, given),
            Refusal::Taken { given } => (7, "TAKEN", Layer::Kernel, given),
            Refusal::NoMailbox { mailbox } => (8, "NO_MAILBOX", Layer::Mailbox, mailbox),
            Refusal::NotEmpty { mailbox } => (9, "NOT_EMPTY", Layer::Mailbox, mailbox),
            Refusal::WrongSize { mailbox } => (10, "WRONG_SIZE", Layer::Mailbox, mailbox),
            Refusal::ShortBuffer { mailbox } => (11, "SHORT_BUFFER", Layer::Mailbox, mailbox),
            Refusal::ShortCollect { task } => (11, "SHORT_BUFFER", Layer::Kernel, task),
            Refusal::Mixed { mailbox } => (12, "MIXED", Layer::Mailbox, mailbox),
            Refusal::Empty { mailbox } => (13, "EMPTY", Layer::Mailbox, mailbox),
            Refusal::Full { mailbox } => (14, "FULL", Layer::Mailbox, mailbox),
            Refusal::TooLong { task } => (15, "TOO_LONG", Layer::Kernel, task),
            Refusal::NumbersSpent { task } => (16, "NUMBERS_SPENT", Layer::Kernel, task),
            Refusal::Store(fault) => return fault.particulars(),
        };
        Particulars {
            number,
            name,
            layer,
            place: u32::from(place),
            units: None,
        }
    }

    // The columns by their names, on both types alike: a method of a trait would ask callers to import it.
    pub fn number(&self) -> u8
        ensures { result ≡ number_of self.now }
    {
        self.particulars().number
    }

    pub fn name(&self) -> &'static str
        ensures { result.now ≡ name_of self.now }
    {
        self.particulars().name
    }

    pub fn layer(&self) -> Layer
        ensures { result ≡ layer_of self.now }
    {
        self.particulars().layer
    }

    // The running task, the number given, the mailbox or the message.
    pub fn place(&self) -> u32
        ensures { result ≡ place_of self.now }
    {
        self.particulars().place
    }

    // The units wanted and free, which STORE_FULL alone tells.
    pub fn units(&self) -> Option<Units>
        ensures { result ≡ units_of self.now }
    {
        self.particulars().units
    }
}

// Written out, since contracts above name `from_gives`: a derived impl would promise nothing.
impl From<StoreFault> for Refusal {
    ghost from_gives = { λ fault r. told r ≡ store_told fault };

    fn from(refused: StoreFault) -> Refusal {
        Refusal::Store(refused)
    }
}

impl fmt::Display for Refusal {
    ghost output = { λ x. Some (printed x) };

    fn fmt<W: fmt::Write>(&self, f: &mut fmt::Formatter<W>) -> fmt::Result {
        self.particulars().fmt(f)
    }
}

impl Error for Refusal {}
