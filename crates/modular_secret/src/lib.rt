//! Powers to secret exponents, and inverses of secret numbers: the same steps whatever the secret is.
#![tactic(auto)]

pub mod forms;
pub mod inverse;
pub mod secret_word;
