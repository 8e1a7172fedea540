//! Why a correction fails.

use super::RestoreError;

/// Why `correct` returns no message.
///
/// # Examples
///
/// ```
/// use num_modular::applications::ring_codes::erasure::CorrectError;
///
/// assert_eq!(CorrectError::NoInverse(15u8).to_string(), "15 has no inverse");
/// ```
// rust: #[derive(Hash)]
#[derive(Clone, Copy, Debug, PartialEq, Eq)]
pub enum CorrectError<T> {
    /// The places or the points don't fit.
    Restore(RestoreError),
    /// No word is near enough to the symbols.
    TooManyErrors,
    /// A number without an inverse modulo m: above 0 and below m, it has a common factor with m.
    ///
    /// It never comes where m is a prime, or where no symbol is wrong.
    NoInverse(T),
}
