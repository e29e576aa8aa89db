// Who works in the unit, and how far each has come.
use crate::paper::{Paper, SUBJECTS};
use art::{MailboxNumber, TaskNumber};
use std::alloc::{AllocError, Global};

// Orders go from intake to signers, certificates to inspectors, and from there to the directory.
pub const ORDERS: MailboxNumber = 0;

pub const SIGNED: MailboxNumber = 1;

pub const INSPECTED: MailboxNumber = 2;

// What a desk does. The desks stand in one Vec and act alike but for a few calls, so these are cases and no trait.
#[derive(Clone, Copy)]
pub enum Role {
    // Files orders, for these subjects yet.
    Intake(&'static [&'static str]),
    Signer,
    Inspector,
    Clerk,
    Clock,
}

// What a desk does when its task runs next: it is kept from call to call, so it is a case and no closure.
#[derive(Clone, Copy)]
pub enum Step {
    // Sets the deadline of the next wait.
    Prepare,
    // Files an order, or receives.
    Call,
    // Collects the answer due.
    Collect,
    // Passes on what it has made.
    Pass,
    // Sleeps for a while.
    Rest,
    // Collects the answer of the sleep.
    Wake,
}

#[derive(Clone, Copy)]
pub struct Desk {
    pub name: &'static str,
    pub task: TaskNumber,
    pub level: u8,
    pub role: Role,
    // How many ticks the desk waits at most.
    pub patience: u32,
    // How many ticks it rests after its work.
    pub rest: u32,
    pub step: Step,
    // Until when it waits now.
    pub deadline: u32,
    // The paper in hand.
    pub paper: Paper,
}

// A dozen tasks, by rising number from 1.
pub(crate) fn staff(heap: Global) -> Result<Vec<Desk>, AllocError> {
    [
        ("intake-1", 20, Role::Intake(&SUBJECTS[0..2]), 5, 1),
        ("intake-2", 20, Role::Intake(&SUBJECTS[2..4]), 5, 1),
        ("intake-3", 20, Role::Intake(&SUBJECTS[4..6]), 5, 1),
        ("intake-4", 20, Role::Intake(&SUBJECTS[6..8]), 4, 1),
        ("signer-1", 10, Role::Signer, 60, 6),
        ("signer-2", 10, Role::Signer, 60, 9),
        ("inspector-1", 12, Role::Inspector, 60, 0),
        ("inspector-2", 12, Role::Inspector, 60, 0),
        ("inspector-3", 12, Role::Inspector, 60, 0),
        ("directory", 14, Role::Clerk, 80, 0),
        ("archive", 14, Role::Clerk, 80, 0),
        ("clock", 2, Role::Clock, 0, 10),
    ]
    .into_iter()
    .zip(1..)
    .map(|((name, level, role, patience, rest), task)| Desk {
        name,
        task,
        level,
        role,
        patience,
        rest,
        step: Step::Prepare,
        deadline: 0,
        paper: Paper::BLANK,
    })
    .collect(heap)
}
