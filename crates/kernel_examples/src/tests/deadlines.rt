// Deadlines, sleep and ticks, at their edges.
use crate::tests::script::{BLOCKED, Call, DEADLINE_REACHED, Example, Line, OK, PAIR};
use art::Refusal;

pub(crate) const DEADLINES: [Example; 3] = [
    // A receiver with deadline 5 waits on at 4, and is readied by the tick to 5.
    Example {
        name: "receiver at its deadline",
        first: 7,
        tasks: &[(1, 5, 1)],
        lines: &[
            Line::Call(Call::ReceiveWait(3), BLOCKED),
            Line::Call(Call::SetTicks(3), OK),
            Line::Tick(0, 0),
            Line::Tick(1, 1),
            Line::Ticks(5),
            Line::Call(Call::Collect, DEADLINE_REACHED),
            Line::Call(Call::RemoveMailbox(3), OK),
        ],
        counts: [0, 0, 0, 0, 0],
    },
    // A sleeper whose wake tick is its deadline, 3, is told of the deadline.
    Example {
        name: "sleeper at its deadline",
        first: 7,
        tasks: &[(1, 3, 1)],
        lines: &[
            Line::Call(Call::Wait(3), BLOCKED),
            Line::Tick(0, 0),
            Line::Tick(0, 0),
            Line::Tick(1, 1),
            Line::Call(Call::Collect, DEADLINE_REACHED),
            Line::Call(Call::Wait(0), BLOCKED),
            Line::Tick(1, 1),
            Line::Call(Call::Collect, DEADLINE_REACHED),
        ],
        counts: [0, 0, 0, 0, 0],
    },
    // At its last value the counter stays, and a tick readies all that wait or sleep.
    Example {
        name: "last tick",
        first: 7,
        tasks: &PAIR,
        lines: &[
            Line::Call(Call::SetTicks(4294967295), OK),
            Line::Call(Call::Wait(0), BLOCKED),
            Line::Call(Call::ReceiveWait(3), BLOCKED),
            Line::Tick(2, 1),
            Line::Ticks(4294967295),
            Line::Call(Call::Collect, DEADLINE_REACHED),
            Line::Call(Call::Terminate, OK),
            Line::Call(Call::Collect, DEADLINE_REACHED),
        ],
        counts: [0, 0, 0, 0, 0],
    },
];

pub(crate) const SLEEPS: [Example; 3] = [
    // A sleep of 0 ticks ends at the next tick, as one of 1 does.
    Example {
        name: "shortest sleeps",
        first: 7,
        tasks: &PAIR,
        lines: &[
            Line::Call(Call::Wait(0), BLOCKED),
            Line::Tick(1, 1),
            Line::Call(Call::Collect, OK),
            Line::Call(Call::Wait(1), BLOCKED),
            Line::Tick(1, 1),
            Line::Call(Call::Collect, OK),
        ],
        counts: [0, 0, 0, 0, 0],
    },
    // The longest sleep is taken at counter 0, and at counter 1 it is too long: row 15.
    Example {
        name: "longest sleeps",
        first: 7,
        tasks: &PAIR,
        lines: &[
            Line::Call(Call::Wait(4294967295), BLOCKED),
            Line::Tick(0, 2),
            Line::Refused(Call::Wait(4294967295), Refusal::TooLong { task: 2 }),
            Line::Call(Call::Wait(4294967294), BLOCKED),
            Line::Running(0),
        ],
        counts: [0, 0, 0, 0, 0],
    },
    // Setting the counter wakes nobody; the tick after it does, past the wake tick of 5.
    Example {
        name: "counter set",
        first: 7,
        tasks: &[(1, 50, 1)],
        lines: &[
            Line::Call(Call::Wait(5), BLOCKED),
            Line::Call(Call::SetTicks(40), OK),
            Line::Ticks(40),
            Line::Running(0),
            Line::Tick(1, 1),
            Line::Ticks(41),
            Line::Call(Call::Collect, OK),
        ],
        counts: [0, 0, 0, 0, 0],
    },
];
