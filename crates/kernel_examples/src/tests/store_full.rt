// The refusal of a store that is full, carried whole.
use crate::tests::script::{BLOCKED, Call, Example, Line, OK, PAIR, Says};
use art::{Refusal, Status};
use store::{StoreFault, Units};

const NO_SLOT: Refusal = Refusal::Store(StoreFault::StoreFull {
    message: 71,
    units: Units { wanted: 1, free: 0 },
});

const NO_ROOM: Refusal = Refusal::Store(StoreFault::StoreFull {
    message: 35,
    units: Units {
        wanted: 65,
        free: 64,
    },
});

pub(crate) const SLOTS_FULL: [Example; 2] = [
    // 64 messages of two bytes fill the slots; a displaced or a received one makes room.
    Example {
        name: "slots full",
        first: 7,
        tasks: &PAIR,
        lines: &[
            Line::Call(Call::CreateMailbox(0, 16, 2), OK),
            Line::Call(Call::CreateMailbox(1, 16, 2), OK),
            Line::Call(Call::CreateMailbox(2, 16, 2), OK),
            Line::Call(Call::CreateMailbox(4, 16, 2), OK),
            Line::Repeat(16, Call::SendNoWait(0, b"hi")),
            Line::Repeat(16, Call::SendNoWait(1, b"hi")),
            Line::Repeat(16, Call::SendNoWait(2, b"hi")),
            Line::Repeat(16, Call::SendNoWait(4, b"hi")),
            Line::Refused(Call::SendNoWait(3, b"ho"), NO_SLOT),
            Line::Call(Call::SendNoWait(0, b"ho"), Says::Displacing(71, 7)),
            Line::Call(Call::ReceiveNoWait(0), Says::Brings(8, 2, *b"hi..")),
            Line::Call(Call::SendNoWait(3, b"ho"), Says::Naming(Status::Ok, 72)),
        ],
        counts: [66, 64, 1, 0, 1],
    },
    // A message that is due holds its slot until it is collected.
    Example {
        name: "slot due",
        first: 7,
        tasks: &PAIR,
        lines: &[
            Line::Call(Call::Wait(0), BLOCKED),
            Line::Call(Call::ReceiveWait(3), BLOCKED),
            Line::Tick(1, 1),
            Line::Call(Call::Collect, OK),
            Line::Call(Call::SendNoWait(3, b"hi"), Says::Naming(Status::Ok, 7)),
            Line::Call(Call::CreateMailbox(0, 16, 2), OK),
            Line::Call(Call::CreateMailbox(1, 16, 2), OK),
            Line::Call(Call::CreateMailbox(2, 16, 2), OK),
            Line::Call(Call::CreateMailbox(4, 16, 2), OK),
            Line::Repeat(16, Call::SendNoWait(0, b"hi")),
            Line::Repeat(16, Call::SendNoWait(1, b"hi")),
            Line::Repeat(16, Call::SendNoWait(2, b"hi")),
            Line::Repeat(15, Call::SendNoWait(4, b"hi")),
            Line::Refused(Call::SendNoWait(4, b"ho"), NO_SLOT),
            Line::Call(Call::Terminate, OK),
            Line::Call(Call::Collect, Says::Brings(7, 2, *b"hi..")),
            Line::Call(Call::SendNoWait(4, b"ho"), Says::Naming(Status::Ok, 71)),
        ],
        counts: [65, 64, 1, 0, 0],
    },
];

pub(crate) const MEMORY_FULL: [Example; 1] = [
    // 28 messages of 128 bytes leave 64 units: 49 bytes are refused, and 48 are taken.
    Example {
        name: "memory full",
        first: 7,
        tasks: &PAIR,
        lines: &[
            Line::Call(Call::CreateMailbox(0, 14, 128), OK),
            Line::Call(Call::CreateMailbox(1, 14, 128), OK),
            Line::Call(Call::CreateMailbox(2, 1, 49), OK),
            Line::Call(Call::CreateMailbox(4, 1, 48), OK),
            Line::Repeat(14, Call::SendNoWait(0, &[1; 128])),
            Line::Repeat(14, Call::SendNoWait(1, &[1; 128])),
            Line::Refused(Call::SendNoWait(2, &[1; 49]), NO_ROOM),
            Line::Call(Call::SendNoWait(4, &[1; 48]), Says::Naming(Status::Ok, 35)),
        ],
        counts: [29, 29, 0, 0, 0],
    },
];
