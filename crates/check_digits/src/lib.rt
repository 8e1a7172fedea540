//! Check digits: which words a code accepts, which of their changes it detects, and how it restores an erased symbol.
//!
//! A code (`Code`) is a modulus m, a residue, and for each place a weight and the symbols that are allowed there.
//! Its words have an allowed symbol at each place, and their weighted sum is congruent to the residue modulo m.
//! The constants, as `ISBN_10`, are the codes of ISBN, EAN, UPC, ISSN, ORCID and of routing numbers. `accepts_iban` tests
//! an IBAN, `accepts_luhn` the digits of a payment card, and `accepts_verhoeff` and `accepts_damm` digits by stronger
//! codes. For each there is a function that returns the check digits, and `read_symbols` reads texts with hyphens and
//! spaces.
#![tactic(auto)]

ghost use Rattle.std.specs.Prelude.{◌≡◌, ◌≤◌, ◌↔◌, IsTrue, All, length};

mod checks;
mod damm;
mod iban;
mod luhn;
mod standards;
mod texts;
mod verhoeff;

pub use damm::{accepts_damm, damm_check_digit};
pub use iban::{
    accepts_iban, accepts_iban_text, has_iban_form, iban_check_digits, iban_code, iban_digits,
};
pub use luhn::{accepts_luhn, luhn_check_digit};
pub use standards::{
    ABA_RTN, EAN_8, EAN_13, ISBN_10, ISBN_13, ISSN, ORCID, UPC_A, standard_codes, standard_finds,
};
pub use texts::{is_symbol_text, read_symbols};
pub use verhoeff::{accepts_verhoeff, verhoeff_check_digit};

/// A code with one check equation: its words have an allowed symbol for each weight, and their weighted sum is
/// congruent to `residue` modulo the modulus.
///
/// A residue that is at least the modulus counts as its own residue.
///
/// # Examples
///
/// ```
/// use num_modular::applications::check_digits::Code;
///
/// let code = Code { modulus: 7, residue: 0, weights: &[3, 1], least: &[0, 0], greatest: &[6, 6] };
/// assert!(code.accepts(&[5, 6])); // 21
/// ```
// rust: #[derive(Debug, PartialEq, Eq, Hash)]
#[derive(Clone, Copy)]
// rust: #[must_use]
pub struct Code<'a> {
    /// The modulus, at least 1.
    pub modulus: u64,
    /// The residue of the weighted sum of a word.
    pub residue: u64,
    /// The weight of each place.
    pub weights: &'a [u64],
    /// The least symbol of each place.
    pub least: &'a [u64],
    /// The greatest symbol of each place.
    pub greatest: &'a [u64],
    pub ghost positive: { 1 ≤ modulus },
    pub ghost each_least: { length least.now ≡ length weights.now },
    pub ghost each_greatest: { length greatest.now ≡ length weights.now },
}

// Whether each symbol is at most 9.
fn are_digits(word: &[u64]) -> bool
    ensures { IsTrue result ↔ All (λ d. d ≤ 9) word.now }
{
    word.iter().all(|d| *d <= 9)
}
