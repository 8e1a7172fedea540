//! Known values of the crates that use `num_modular`, and callers of its laws.
#![tactic(auto)]

// rattle: line
mod law_callers;
#[cfg(test)]
mod tests;
