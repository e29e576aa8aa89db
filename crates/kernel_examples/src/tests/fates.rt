// Messages that are displaced, withdrawn, or received just in time.
use crate::tests::script::{BLOCKED, Call, Example, Line, OK, PAIR, Says};
use art::{Refusal, Status};

pub(crate) const FATES: [Example; 4] = [
    // The third message at capacity 2 displaces the oldest, and the second is taken.
    Example {
        name: "displaced",
        first: 7,
        tasks: &PAIR,
        lines: &[
            Line::Call(Call::SendNoWait(3, b"hi"), Says::Naming(Status::Ok, 7)),
            Line::Call(Call::SendNoWait(3, b"ho"), Says::Naming(Status::Ok, 8)),
            Line::Call(Call::SendNoWait(3, b"hu"), Says::Displacing(9, 7)),
            Line::Call(Call::ReceiveNoWait(3), Says::Brings(8, 2, *b"ho..")),
        ],
        counts: [3, 1, 1, 0, 1],
    },
    // The deadline of a sender, 10, is reached while it waits: its message is withdrawn.
    Example {
        name: "withdrawn",
        first: 7,
        tasks: &PAIR,
        lines: &[
            Line::Call(Call::SendWait(3, b"hi"), Says::Naming(Status::Blocked, 7)),
            Line::Call(Call::SetTicks(8), OK),
            Line::Tick(0, 2),
            Line::Tick(1, 1),
            Line::Call(Call::Collect, Says::Naming(Status::DeadlineReached, 7)),
            Line::Refused(Call::ReceiveNoWait(3), Refusal::Empty { mailbox: 3 }),
        ],
        counts: [1, 0, 0, 1, 0],
    },
    // The older of two waiting messages is withdrawn, and the other is received.
    Example {
        name: "the other stays",
        first: 7,
        tasks: &PAIR,
        lines: &[
            Line::Call(Call::SendWait(3, b"hi"), Says::Naming(Status::Blocked, 7)),
            Line::Call(Call::SendWait(3, b"ho"), Says::Naming(Status::Blocked, 8)),
            Line::Call(Call::SetTicks(9), OK),
            Line::Tick(1, 1),
            Line::Call(Call::Collect, Says::Naming(Status::DeadlineReached, 7)),
            Line::Call(Call::ReceiveNoWait(3), Says::Brings(8, 2, *b"ho..")),
            Line::Call(Call::Terminate, OK),
            Line::Call(Call::Collect, Says::Naming(Status::Ok, 8)),
        ],
        counts: [2, 0, 1, 1, 0],
    },
    // The sender with deadline 20, received at 19, runs only at 31, and is told OK.
    Example {
        name: "told late",
        first: 7,
        tasks: &PAIR,
        lines: &[
            Line::Call(Call::Wait(0), BLOCKED),
            Line::Call(Call::SendWait(3, b"hi"), Says::Naming(Status::Blocked, 7)),
            Line::Tick(1, 1),
            Line::Call(Call::Collect, OK),
            Line::Call(Call::SetTicks(19), OK),
            Line::Call(Call::ReceiveWait(3), Says::Brings(7, 2, *b"hi..")),
            Line::Tick(0, 1),
            Line::Call(Call::SetTicks(30), OK),
            Line::Tick(0, 1),
            Line::Ticks(31),
            Line::Call(Call::Terminate, OK),
            Line::Call(Call::Collect, Says::Naming(Status::Ok, 7)),
        ],
        counts: [1, 0, 1, 0, 0],
    },
];
