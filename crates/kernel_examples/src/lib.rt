// Examples of what a kernel does, run over both stores and both orders by the same functions.
#![tactic(auto)]

#[cfg(test)]
mod tests;
