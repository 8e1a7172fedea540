//! Powers to secret exponents, and inverses of secret numbers: the same steps whatever the secret is.
//!
//! Their masks take no branch on the secret. That is only tested, on the machine code; the number of products or steps is
//! proved. Over words, a power to a secret exponent is `pow_secret` over `Montgomery`.

pub use modular_secret::forms::{inv_secret, pow_secret, pow_secret_counted};
pub use modular_secret::inverse::{invm_secret, invm_secret_counted};
pub use modular_secret::secret_word::SecretWord;
