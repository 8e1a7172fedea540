//! Known powers to secret exponents, and inverses of secret numbers, at each width.
#![tactic(auto)]

#[cfg(test)]
mod tests;
