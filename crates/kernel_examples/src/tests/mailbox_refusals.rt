// Refusals of a mailbox.
use crate::tests::script::{BLOCKED, Call, Example, Line, OK, PAIR, Says};
use art::{Refusal, Status};

pub(crate) const MAILBOX_REFUSALS: [Example; 4] = [
    // No mailbox, wrong size, short buffer, empty: rows 8, 10, 11 and 13, in this order.
    Example {
        name: "mailbox rows",
        first: 7,
        tasks: &PAIR,
        lines: &[
            Line::Refused(Call::SendWait(9, b""), Refusal::NoMailbox { mailbox: 9 }),
            Line::Short(Call::ReceiveWait(9), Refusal::NoMailbox { mailbox: 9 }),
            Line::Refused(Call::RemoveMailbox(9), Refusal::NoMailbox { mailbox: 9 }),
            Line::Refused(Call::SendWait(3, b""), Refusal::WrongSize { mailbox: 3 }),
            Line::Refused(
                Call::SendNoWait(3, b"hid"),
                Refusal::WrongSize { mailbox: 3 },
            ),
            Line::Short(Call::ReceiveNoWait(3), Refusal::ShortBuffer { mailbox: 3 }),
            Line::Short(Call::ReceiveWait(3), Refusal::ShortBuffer { mailbox: 3 }),
            Line::Refused(Call::ReceiveNoWait(3), Refusal::Empty { mailbox: 3 }),
        ],
        counts: [0, 0, 0, 0, 0],
    },
    // A collect into a buffer that is too short: row 11, and the message stays due.
    Example {
        name: "short collect",
        first: 7,
        tasks: &PAIR,
        lines: &[
            Line::Call(Call::ReceiveWait(3), BLOCKED),
            Line::Call(Call::SendWait(3, b"hi"), Says::Naming(Status::Ok, 7)),
            Line::Short(Call::Collect, Refusal::ShortCollect { task: 1 }),
            Line::Call(Call::Collect, Says::Brings(7, 2, *b"hi..")),
            Line::Refused(Call::Collect, Refusal::NothingDue { task: 1 }),
        ],
        counts: [1, 0, 1, 0, 0],
    },
    // Messages of one mode refuse the other, full or not: rows 9, 12 and 14.
    Example {
        name: "full of messages",
        first: 7,
        tasks: &PAIR,
        lines: &[
            Line::Call(Call::CreateMailbox(4, 1, 1), OK),
            Line::Call(Call::SendNoWait(3, b"hi"), Says::Naming(Status::Ok, 7)),
            Line::Refused(Call::SendWait(3, b"ho"), Refusal::Mixed { mailbox: 3 }),
            Line::Refused(Call::RemoveMailbox(3), Refusal::NotEmpty { mailbox: 3 }),
            Line::Call(Call::SendWait(4, b"x"), Says::Naming(Status::Blocked, 8)),
            Line::Refused(Call::SendWait(4, b"y"), Refusal::Full { mailbox: 4 }),
            Line::Refused(Call::SendNoWait(4, b"y"), Refusal::Mixed { mailbox: 4 }),
            Line::Running(2),
        ],
        counts: [2, 2, 0, 0, 0],
    },
    // As many receivers as the capacity: rows 9 and 14.
    Example {
        name: "full of receivers",
        first: 7,
        tasks: &PAIR,
        lines: &[
            Line::Call(Call::CreateMailbox(4, 1, 1), OK),
            Line::Call(Call::ReceiveWait(4), BLOCKED),
            Line::Refused(Call::ReceiveWait(4), Refusal::Full { mailbox: 4 }),
            Line::Refused(Call::RemoveMailbox(4), Refusal::NotEmpty { mailbox: 4 }),
            Line::Refused(Call::ReceiveNoWait(4), Refusal::Empty { mailbox: 4 }),
            Line::Running(2),
        ],
        counts: [0, 0, 0, 0, 0],
    },
];
