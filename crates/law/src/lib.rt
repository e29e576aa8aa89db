// The law of the record, over the rules of crate `art`: specs/History gathers what has happened on a record,
// specs/Law says what holds at each of its lines, and proofs/ shows it for every record.
#![tactic(auto)]

ghost use Rattle.std.specs.Prelude.{ℕ};
ghost use Rattle.art.specs.Record.{Record};
ghost use Rattle.art.specs.State.{Kind, OrderRules};
ghost use Rattle.law.specs.Law.{Lawful};

// Every record of a kernel is lawful. It has no work to do: its contract is the theorem.
pub fn every_record_is_lawful()
    ensures { (kind : Kind) (rules : OrderRules kind.before) (n : ℕ) (r : Record) → Lawful kind n r }
{}
