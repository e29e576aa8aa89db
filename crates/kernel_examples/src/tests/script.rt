// An example as a list of lines: each is a call and what it is to answer.
use art::{Answer, Counts, Refusal, Status};

pub(crate) type Bytes = &'static [u8];

// A call that can be refused. An example is data, played over four kinds of kernel: so these are cases and no closures.
#[derive(Clone, Copy)]
pub(crate) enum Call {
    CreateTask(u8, u32, u8),
    CreateMailbox(u8, u8, u8),
    Terminate,
    RemoveMailbox(u8),
    SendWait(u8, Bytes),
    SendNoWait(u8, Bytes),
    ReceiveWait(u8),
    ReceiveNoWait(u8),
    Wait(u32),
    Collect,
    // With a buffer of no bytes.
    CollectBare,
    SetDeadline(u32),
    SetTicks(u32),
}

// Its answer; what is brought stands in the buffer of four bytes.
#[derive(Clone, Copy)]
pub(crate) enum Says {
    Plainly(Status),
    Naming(Status, u32),
    Displacing(u32, u32),
    Brings(u32, usize, [u8; 4]),
}

// Call and Refused are two cases and no Result: so an example's lines read shorter, without Ok(..) and Err(..) in each.
#[derive(Clone, Copy)]
pub(crate) enum Line {
    // With a buffer of four bytes.
    Call(Call, Says),
    // The same, and nothing is brought.
    Refused(Call, Refusal),
    // With a buffer of one byte.
    Short(Call, Refusal),
    // As many times, each accepted.
    Repeat(u8, Call),
    // How many were readied, and who runs.
    Tick(usize, u8),
    Running(u8),
    Ticks(u32),
    Deadline(u32),
}

#[derive(Clone, Copy)]
pub(crate) struct Example {
    pub(crate) name: &'static str,
    // The first message number.
    pub(crate) first: u32,
    // Number, deadline and level of each.
    pub(crate) tasks: &'static [(u8, u32, u8)],
    pub(crate) lines: &'static [Line],
    // Accepted, queued, handed over, withdrawn, displaced: five numbers in a row, where a Counts would take seven lines.
    pub(crate) counts: [u64; 5],
}

// What a buffer holds before every call.
pub(crate) const DOTS: [u8; 4] = *b"....";

// Task 1 goes before task 2 under both orders.
pub(crate) const PAIR: [(u8, u32, u8); 2] = [(1, 10, 1), (2, 20, 2)];

pub(crate) const OK: Says = Says::Plainly(Status::Ok);

pub(crate) const BLOCKED: Says = Says::Plainly(Status::Blocked);

pub(crate) const DEADLINE_REACHED: Says = Says::Plainly(Status::DeadlineReached);

impl Says {
    // What the buffer holds after the call.
    pub(crate) fn buffer(self) -> [u8; 4] {
        match self {
            Says::Brings(_, _, bytes) => bytes,
            _ => DOTS,
        }
    }
}

impl From<Says> for Answer {
    fn from(says: Says) -> Answer {
        let (status, message, length, displaced) = match says {
            Says::Plainly(status) => (status, None, None, None),
            Says::Naming(status, n) => (status, Some(n), None, None),
            Says::Displacing(n, d) => (Status::Ok, Some(n), None, Some(d)),
            Says::Brings(n, l, _) => (Status::Ok, Some(n), Some(l), None),
        };
        Answer {
            status,
            message,
            length,
            displaced,
        }
    }
}

// No From: neither the counts nor arrays are this crate's own.
pub(crate) fn counts_of([accepted, queued, handed_over, withdrawn, displaced]: [u64; 5]) -> Counts {
    Counts {
        accepted,
        queued,
        handed_over,
        withdrawn,
        displaced,
    }
}
