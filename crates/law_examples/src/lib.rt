// Examples of histories, as theorems: the order that is taken just ahead of the tick, and others.
#![tactic(auto)]

ghost use Rattle.law_examples.specs.Histories.{Histories};

// Each record has the history that it is said to have, by the definitions of the crate `law`.
pub fn histories_stand()
    ensures { Histories }
{}
