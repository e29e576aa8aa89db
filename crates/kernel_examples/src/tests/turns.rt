// Which task runs: what the orders share, and where they differ.
use crate::tests::script::{BLOCKED, Call, Example, Line, OK, PAIR};

// Deadlines rise as levels fall.
const CROSSED: [(u8, u32, u8); 3] = [(1, 10, 3), (2, 20, 2), (3, 30, 1)];

pub(crate) const EQUALS: [Example; 1] = [
    // Equally urgent tasks: by a tick the smaller number in front, otherwise the later behind.
    Example {
        name: "equally urgent",
        first: 7,
        tasks: &[(7, 4294967295, 31), (3, 4294967295, 31)],
        lines: &[
            Line::Running(7),
            Line::Call(Call::SetDeadline(4294967295), OK),
            Line::Running(3),
            Line::Call(Call::Wait(0), BLOCKED),
            Line::Call(Call::Wait(0), BLOCKED),
            Line::Running(0),
            Line::Tick(2, 3),
            Line::Call(Call::Collect, OK),
            Line::Call(Call::CreateTask(1, 4294967295, 31), OK),
            Line::Call(Call::Terminate, OK),
            Line::Running(7),
        ],
        counts: [0, 0, 0, 0, 0],
    },
];

pub(crate) const DEADLINE_TURNS: [Example; 3] = [
    // The smaller deadline runs first, whatever the levels.
    Example {
        name: "smaller deadline",
        first: 7,
        tasks: &CROSSED,
        lines: &[
            Line::Running(1),
            Line::Call(Call::Terminate, OK),
            Line::Running(2),
            Line::Call(Call::Terminate, OK),
            Line::Running(3),
            Line::Call(Call::Terminate, OK),
            Line::Running(0),
        ],
        counts: [0, 0, 0, 0, 0],
    },
    // Sleepers are readied by one tick, and the most urgent runs.
    Example {
        name: "smaller deadline, readied",
        first: 7,
        tasks: &CROSSED,
        lines: &[
            Line::Call(Call::Wait(3), BLOCKED),
            Line::Call(Call::Wait(3), BLOCKED),
            Line::Call(Call::Wait(3), BLOCKED),
            Line::Call(Call::SetTicks(2), OK),
            Line::Tick(3, 1),
            Line::Call(Call::Collect, OK),
            Line::Running(1),
        ],
        counts: [0, 0, 0, 0, 0],
    },
    // A later deadline lets the other task run, and its own later one the first again.
    Example {
        name: "smaller deadline, set",
        first: 7,
        tasks: &PAIR,
        lines: &[
            Line::Deadline(10),
            Line::Call(Call::SetDeadline(21), OK),
            Line::Running(2),
            Line::Call(Call::SetDeadline(22), OK),
            Line::Running(1),
            Line::Deadline(21),
        ],
        counts: [0, 0, 0, 0, 0],
    },
];

pub(crate) const LEVEL_TURNS: [Example; 3] = [
    // The smaller level runs first, whatever the deadlines.
    Example {
        name: "smaller level",
        first: 7,
        tasks: &CROSSED,
        lines: &[
            Line::Running(3),
            Line::Call(Call::Terminate, OK),
            Line::Running(2),
            Line::Call(Call::Terminate, OK),
            Line::Running(1),
            Line::Call(Call::Terminate, OK),
            Line::Running(0),
        ],
        counts: [0, 0, 0, 0, 0],
    },
    // Sleepers are readied by one tick, and the most urgent runs.
    Example {
        name: "smaller level, readied",
        first: 7,
        tasks: &CROSSED,
        lines: &[
            Line::Call(Call::Wait(3), BLOCKED),
            Line::Call(Call::Wait(3), BLOCKED),
            Line::Call(Call::Wait(3), BLOCKED),
            Line::Call(Call::SetTicks(2), OK),
            Line::Tick(3, 3),
            Line::Call(Call::Collect, OK),
            Line::Running(3),
        ],
        counts: [0, 0, 0, 0, 0],
    },
    // A new deadline is kept, and the smaller level runs on.
    Example {
        name: "smaller level, set",
        first: 7,
        tasks: &PAIR,
        lines: &[
            Line::Deadline(10),
            Line::Call(Call::SetDeadline(21), OK),
            Line::Running(1),
            Line::Call(Call::SetDeadline(22), OK),
            Line::Running(1),
            Line::Deadline(22),
        ],
        counts: [0, 0, 0, 0, 0],
    },
];
