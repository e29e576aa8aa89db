// Messages that are handed over, by each pair of a send and a receive.
use crate::tests::script::{BLOCKED, Call, Example, Line, OK, PAIR, Says};
use art::Status;

pub(crate) const SENDERS_WAIT: [Example; 4] = [
    // The receiver waits first: the send hands over, and collect brings the bytes.
    Example {
        name: "receiver first",
        first: 7,
        tasks: &PAIR,
        lines: &[
            Line::Call(Call::ReceiveWait(3), BLOCKED),
            Line::Running(2),
            Line::Call(Call::SendWait(3, b"hi"), Says::Naming(Status::Ok, 7)),
            Line::Running(1),
            Line::Call(Call::Collect, Says::Brings(7, 2, *b"hi..")),
        ],
        counts: [1, 0, 1, 0, 0],
    },
    // The sender waits first: the receive takes its message, and its collect says so.
    Example {
        name: "sender first",
        first: 7,
        tasks: &PAIR,
        lines: &[
            Line::Call(Call::SendWait(3, b"hi"), Says::Naming(Status::Blocked, 7)),
            Line::Running(2),
            Line::Call(Call::ReceiveWait(3), Says::Brings(7, 2, *b"hi..")),
            Line::Running(1),
            Line::Call(Call::Collect, Says::Naming(Status::Ok, 7)),
        ],
        counts: [1, 0, 1, 0, 0],
    },
    // The sender waits, and a receiver that does not wait takes its message.
    Example {
        name: "sender polled",
        first: 7,
        tasks: &PAIR,
        lines: &[
            Line::Call(Call::SendWait(3, b"hi"), Says::Naming(Status::Blocked, 7)),
            Line::Call(Call::ReceiveNoWait(3), Says::Brings(7, 2, *b"hi..")),
            Line::Running(1),
            Line::Call(Call::CollectBare, Says::Naming(Status::Ok, 7)),
        ],
        counts: [1, 0, 1, 0, 0],
    },
    // A message that was handed over is collected after its mailbox is gone.
    Example {
        name: "mailbox gone",
        first: 7,
        tasks: &PAIR,
        lines: &[
            Line::Call(Call::Wait(0), BLOCKED),
            Line::Call(Call::ReceiveWait(3), BLOCKED),
            Line::Tick(1, 1),
            Line::Call(Call::Collect, OK),
            Line::Call(Call::SendWait(3, b"hi"), Says::Naming(Status::Ok, 7)),
            Line::Call(Call::RemoveMailbox(3), OK),
            Line::Call(Call::Terminate, OK),
            Line::Call(Call::Collect, Says::Brings(7, 2, *b"hi..")),
        ],
        counts: [1, 0, 1, 0, 0],
    },
];

pub(crate) const SENDERS_GO_ON: [Example; 3] = [
    // The receiver waits, and a sender that does not wait hands over.
    Example {
        name: "receiver given",
        first: 7,
        tasks: &PAIR,
        lines: &[
            Line::Call(Call::ReceiveWait(3), BLOCKED),
            Line::Call(Call::SendNoWait(3, b"hi"), Says::Naming(Status::Ok, 7)),
            Line::Running(1),
            Line::Call(Call::Collect, Says::Brings(7, 2, *b"hi..")),
        ],
        counts: [1, 0, 1, 0, 0],
    },
    // The message outlives its sender, and a receiver that may wait takes it at once.
    Example {
        name: "sender gone",
        first: 7,
        tasks: &PAIR,
        lines: &[
            Line::Call(Call::SendNoWait(3, b"hi"), Says::Naming(Status::Ok, 7)),
            Line::Call(Call::Terminate, OK),
            Line::Call(Call::ReceiveWait(3), Says::Brings(7, 2, *b"hi..")),
            Line::Running(2),
        ],
        counts: [1, 0, 1, 0, 0],
    },
    // Nobody waits: messages are taken oldest first.
    Example {
        name: "nobody waits",
        first: 7,
        tasks: &PAIR,
        lines: &[
            Line::Call(Call::SendNoWait(3, b"hi"), Says::Naming(Status::Ok, 7)),
            Line::Call(Call::SendNoWait(3, b"ho"), Says::Naming(Status::Ok, 8)),
            Line::Running(1),
            Line::Call(Call::ReceiveNoWait(3), Says::Brings(7, 2, *b"hi..")),
            Line::Call(Call::ReceiveNoWait(3), Says::Brings(8, 2, *b"ho..")),
        ],
        counts: [2, 0, 2, 0, 0],
    },
];
