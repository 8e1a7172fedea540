//! The codes of the standards.

ghost use Rattle.std.specs.Prelude.{◌≡◌, ℕ, ◌≤◌, [], ◌∷◌, map};
ghost use Rattle.check_digits.specs.Codes.{code_of, IsCodeword, FindsEachChange, FindsEachExchange, FindsAllButFives};
ghost use Rattle.check_digits.specs.Damm.{IsDamm};
ghost use Rattle.check_digits.specs.Ibans.{FindsEachCharacter, FindsAllButElevenfold};
ghost use Rattle.check_digits.specs.Luhn.{IsLuhn, LuhnFindsAllButNines};
ghost use Rattle.check_digits.specs.Standards.{ean_8, ean_13, isbn_10, isbn_13, issn, upc_a, orcid, aba_rtn, mod_97_10};
ghost use Rattle.check_digits.specs.Verhoeff.{IsVerhoeff};

use crate::Code;

/// The code of a standard: ISBN-10 (ISO 2108, first to third edition).
///
/// The symbol X, which is allowed only at the last place, is 10.
pub const ISBN_10: Code<'static> = Code {
    modulus: 11,
    residue: 0,
    weights: &[10, 9, 8, 7, 6, 5, 4, 3, 2, 1],
    least: &[0; 10],
    greatest: &[9, 9, 9, 9, 9, 9, 9, 9, 9, 10],
};

/// The code of a standard: ISBN-13 is an EAN-13 that begins with 978 or 979 (ISO 2108:2017).
///
/// Those that begin with 9790 are ISMN, numbers of printed music (ISO 10957), which this code accepts too.
pub const ISBN_13: Code<'static> = Code {
    modulus: 10,
    residue: 0,
    weights: &[1, 3, 1, 3, 1, 3, 1, 3, 1, 3, 1, 3, 1],
    least: &[9, 7, 8, 0, 0, 0, 0, 0, 0, 0, 0, 0, 0],
    greatest: &[9, 7, 9, 9, 9, 9, 9, 9, 9, 9, 9, 9, 9],
};

/// The code of a standard: EAN-13 is GTIN-13 (GS1 General Specifications, section 7.9.1).
pub const EAN_13: Code<'static> = Code {
    modulus: 10,
    residue: 0,
    weights: &[1, 3, 1, 3, 1, 3, 1, 3, 1, 3, 1, 3, 1],
    least: &[0; 13],
    greatest: &[9; 13],
};

/// The code of a standard: EAN-8 is GTIN-8 (GS1 General Specifications, section 7.9.1).
pub const EAN_8: Code<'static> = Code {
    modulus: 10,
    residue: 0,
    weights: &[3, 1, 3, 1, 3, 1, 3, 1],
    least: &[0; 8],
    greatest: &[9; 8],
};

/// The code of a standard: UPC-A is GTIN-12 (GS1 General Specifications, section 7.9.1).
pub const UPC_A: Code<'static> = Code {
    modulus: 10,
    residue: 0,
    weights: &[3, 1, 3, 1, 3, 1, 3, 1, 3, 1, 3, 1],
    least: &[0; 12],
    greatest: &[9; 12],
};

/// The code of a standard: ISSN without its hyphen (ISO 3297).
///
/// The symbol X, which is allowed only at the last place, is 10.
pub const ISSN: Code<'static> = Code {
    modulus: 11,
    residue: 0,
    weights: &[8, 7, 6, 5, 4, 3, 2, 1],
    least: &[0; 8],
    greatest: &[9, 9, 9, 9, 9, 9, 9, 10],
};

/// The code of a standard: ORCID without its hyphens (ISO/IEC 7064, MOD 11-2).
///
/// The symbol X, which is allowed only at the last place, is 10. ISNI (ISO 27729) has the same code.
pub const ORCID: Code<'static> = Code {
    modulus: 11,
    residue: 1,
    weights: &[10, 5, 8, 4, 2, 1, 6, 3, 7, 9, 10, 5, 8, 4, 2, 1],
    least: &[0; 16],
    greatest: &[9, 9, 9, 9, 9, 9, 9, 9, 9, 9, 9, 9, 9, 9, 9, 10],
};

/// The code of a standard: the routing number of a bank in the United States (American Bankers Association).
pub const ABA_RTN: Code<'static> = Code {
    modulus: 10,
    residue: 0,
    weights: &[3, 7, 1, 3, 7, 1, 3, 7, 1],
    least: &[0; 9],
    greatest: &[9; 9],
};

/// All eight codes: those of ISBN-10, ISBN-13, EAN-13, EAN-8, UPC-A, ISSN, ORCID and routing numbers, in this order,
/// each as its standard defines it.
///
/// # Examples
///
/// ```
/// use num_modular::applications::check_digits::standard_codes;
///
/// let found: Vec<usize> = standard_codes().iter().map(|code| code.weights.len()).collect();
/// assert_eq!(found, [10, 13, 13, 8, 12, 8, 16, 9]);
/// ```
// rust instead: pub const fn standard_codes() -> [Code<'static>; 8]
pub fn standard_codes() -> [Code<'static>; 8]
    ensures { map code_of result ≡ isbn_10 ∷ isbn_13 ∷ ean_13 ∷ ean_8 ∷ upc_a ∷ issn ∷ orcid ∷ aba_rtn ∷ [] }
{
    [ISBN_10, ISBN_13, EAN_13, EAN_8, UPC_A, ISSN, ORCID, ABA_RTN]
}

/// A law: what these codes detect. All: every change of one symbol. ISBN-10, ISSN, ORCID, the digits of an IBAN, and
/// Verhoeff's and Damm's check digits: every exchange of two neighbours that differ. ISBN-13, EAN, UPC and routing
/// numbers: every such exchange, except of symbols that differ by 5. An IBAN as text: every change of one character to
/// another of its kind, digit or letter, and every exchange of two neighbours that differ, except of 1 and B, of 2 and
/// M, and of 3 and X after the check digits; none of these is detected. Luhn's check digit: every such exchange, except
/// 09 and 90.
#[tactic(auto, using(crate::proofs::Finds::found_by_standards))]
pub fn standard_finds()
    ensures changes_modulo_11 { FindsEachChange (IsCodeword isbn_10) × FindsEachChange (IsCodeword issn)
        × FindsEachChange (IsCodeword orcid) }
    ensures changes_modulo_10 { FindsEachChange (IsCodeword isbn_13) × FindsEachChange (IsCodeword ean_13)
        × FindsEachChange (IsCodeword ean_8) × FindsEachChange (IsCodeword upc_a)
        × FindsEachChange (IsCodeword aba_rtn) }
    ensures exchanges { FindsEachExchange (IsCodeword isbn_10) × FindsEachExchange (IsCodeword issn)
        × FindsEachExchange (IsCodeword orcid) }
    ensures fives { FindsAllButFives isbn_13 × FindsAllButFives ean_13 × FindsAllButFives ean_8
        × FindsAllButFives upc_a × FindsAllButFives aba_rtn }
    ensures iban { (n : ℕ) → n ≤ 68
        → FindsEachChange (IsCodeword (mod_97_10 n)) × FindsEachExchange (IsCodeword (mod_97_10 n)) }
    ensures characters { FindsEachCharacter }
    ensures neighbours { FindsAllButElevenfold }
    ensures luhn { FindsEachChange IsLuhn × LuhnFindsAllButNines }
    ensures verhoeff { FindsEachChange IsVerhoeff × FindsEachExchange IsVerhoeff }
    ensures damm { FindsEachChange IsDamm × FindsEachExchange IsDamm }
{}
