// Refusals of the kernel itself.
use crate::tests::script::{BLOCKED, Call, Example, Line, OK, PAIR, Says};
use art::{Refusal, Status};

pub(crate) const KERNEL_REFUSALS: [Example; 4] = [
    // An answer is due to the running task: row 1 comes before all others.
    Example {
        name: "answer due",
        first: 7,
        tasks: &PAIR,
        lines: &[
            Line::Call(Call::Wait(0), BLOCKED),
            Line::Tick(1, 1),
            Line::Refused(Call::CreateTask(0, 0, 32), Refusal::AnswerDue { task: 1 }),
            Line::Refused(Call::SendWait(32, b""), Refusal::AnswerDue { task: 1 }),
            Line::Refused(Call::SendNoWait(3, b"hi"), Refusal::AnswerDue { task: 1 }),
            Line::Refused(Call::ReceiveWait(3), Refusal::AnswerDue { task: 1 }),
            Line::Refused(Call::SetTicks(9), Refusal::AnswerDue { task: 1 }),
            Line::Tick(0, 1),
            Line::Call(Call::Collect, OK),
        ],
        counts: [0, 0, 0, 0, 0],
    },
    // Nothing is due, row 2; the idle task neither waits, sleeps nor ends, row 3.
    Example {
        name: "idle task",
        first: 7,
        tasks: &[],
        lines: &[
            Line::Refused(Call::Collect, Refusal::NothingDue { task: 0 }),
            Line::Refused(Call::SendWait(32, b"hi"), Refusal::IdleTask { task: 0 }),
            Line::Refused(Call::ReceiveWait(32), Refusal::IdleTask { task: 0 }),
            Line::Refused(Call::Wait(0), Refusal::IdleTask { task: 0 }),
            Line::Refused(Call::Terminate, Refusal::IdleTask { task: 0 }),
            Line::Refused(Call::SetDeadline(5), Refusal::IdleTask { task: 0 }),
            Line::Deadline(4294967295),
        ],
        counts: [0, 0, 0, 0, 0],
    },
    // A number, level or shape that is not allowed, or a number in use: rows 4 to 7.
    Example {
        name: "numbers and shapes",
        first: 7,
        tasks: &PAIR,
        lines: &[
            Line::Refused(
                Call::CreateTask(64, 5, 32),
                Refusal::BadNumber { given: 64 },
            ),
            Line::Refused(Call::CreateTask(2, 5, 32), Refusal::BadLevel { given: 2 }),
            Line::Refused(Call::CreateTask(2, 5, 31), Refusal::Taken { given: 2 }),
            Line::Refused(
                Call::CreateMailbox(32, 0, 0),
                Refusal::BadNumber { given: 32 },
            ),
            Line::Refused(
                Call::CreateMailbox(3, 17, 1),
                Refusal::BadShape { given: 3 },
            ),
            Line::Refused(Call::CreateMailbox(3, 1, 0), Refusal::BadShape { given: 3 }),
            Line::Refused(
                Call::CreateMailbox(3, 1, 129),
                Refusal::BadShape { given: 3 },
            ),
            Line::Refused(Call::CreateMailbox(3, 16, 128), Refusal::Taken { given: 3 }),
            Line::Call(Call::CreateMailbox(31, 16, 128), OK),
            Line::Refused(Call::ReceiveNoWait(32), Refusal::BadNumber { given: 32 }),
        ],
        counts: [0, 0, 0, 0, 0],
    },
    // The last number is used once: row 16, and a refused send displaces nothing.
    Example {
        name: "numbers spent",
        first: 4294967295,
        tasks: &PAIR,
        lines: &[
            Line::Call(Call::CreateMailbox(4, 1, 2), OK),
            Line::Call(
                Call::SendNoWait(4, b"hi"),
                Says::Naming(Status::Ok, 4294967295),
            ),
            Line::Refused(
                Call::SendNoWait(4, b"ho"),
                Refusal::NumbersSpent { task: 1 },
            ),
            Line::Call(
                Call::ReceiveNoWait(4),
                Says::Brings(4294967295, 2, *b"hi.."),
            ),
            Line::Refused(Call::SendWait(4, b"ho"), Refusal::NumbersSpent { task: 1 }),
        ],
        counts: [1, 0, 1, 0, 0],
    },
];
