// Orders of urgency: which of two tasks goes before the other, by their deadlines and levels alone.
ghost use Rattle.std.specs.Prelude.{◌≡◌, Bool};
ghost use Rattle.art.specs.State.{OrderRules, by_deadline, by_level};
ghost use Rattle.art.specs.declared.task.Urgency.{Urgency as Urgencies};
ghost use Rattle.std.proofs.Common.{rules};

use crate::task::Urgency;

pub trait Order {
    // Whether the first of two tasks goes before the second.
    ghost before: { Urgencies → Urgencies → Bool };

    fn goes_before(&self, first: Urgency, second: Urgency) -> bool
        ensures { result ≡ before first second };

    // No task goes before itself, and so on: whoever writes an order shows these of it.
    ghost rules: { OrderRules before };
}

// The smaller deadline goes before.
#[derive(Clone, Copy, Debug, Default, PartialEq, Eq)]
pub struct DeadlineOrder;

// The smaller level goes before.
#[derive(Clone, Copy, Debug, Default, PartialEq, Eq)]
pub struct LevelOrder;

// Two impls that differ in a field: a trait that tells the field, with its ghost member, would be longer than they are.
impl Order for DeadlineOrder {
    ghost before = { by_deadline };

    ghost rules = { Prim.search rules };

    fn goes_before(&self, first: Urgency, second: Urgency) -> bool {
        first.deadline < second.deadline
    }
}

impl Order for LevelOrder {
    ghost before = { by_level };

    ghost rules = { Prim.search rules };

    fn goes_before(&self, first: Urgency, second: Urgency) -> bool {
        first.level < second.level
    }
}
