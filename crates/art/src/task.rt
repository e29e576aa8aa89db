// What the kernel knows of a task and of a queued message.
use answers::{MailboxNumber, Status, TaskNumber};

// What an order of urgency goes by.
#[derive(Clone, Copy, Debug, PartialEq, Eq)]
pub struct Urgency {
    pub deadline: u32,
    pub level: u8,
}

// What a task does.
#[derive(Clone, Copy, Debug, PartialEq, Eq)]
pub enum Activity {
    // Stands in the ready list.
    Ready,
    // Waits at a mailbox for a message.
    Receiving {
        mailbox: MailboxNumber,
    },
    // Waits with a message that is queued at a mailbox.
    Sending {
        mailbox: MailboxNumber,
        message: u32,
    },
    // Sleeps until the counter reaches a tick.
    Asleep {
        until: u32,
    },
}

// The answer that a task has yet to collect.
#[derive(Clone, Copy, Debug, PartialEq, Eq)]
pub enum Due {
    // A sender's, for the message that it waited with.
    Sent { status: Status, message: u32 },
    // A receiver's, with the message that it was given; the store still holds its bytes.
    Given { message: u32 },
    // A receiver's or a sleeper's that brings no message.
    Plain { status: Status },
}

// What can end a task's waiting or sleep.
#[derive(Clone, Copy, Debug, PartialEq, Eq)]
pub enum Event {
    // A message is handed over: the one that a receiver is given, or the one that a sender waits with.
    HandOver { message: u32 },
    // A waiting task leaves its mailbox, since its deadline is reached.
    Withdrawal,
    // The counter has come to this tick.
    Tick { counter: u32 },
}

#[derive(Clone, Copy, Debug, PartialEq, Eq)]
pub struct Task {
    pub urgency: Urgency,
    pub activity: Activity,
    pub due: Option<Due>,
}

// A queued message, and the task that waits with it, if one does.
#[derive(Clone, Copy, Debug, PartialEq, Eq)]
pub struct Message {
    pub number: u32,
    pub sender: Option<TaskNumber>,
}
