//! Check digits: of standards, by texts, and of codes of one's own, by lists of symbols.

ghost use Rattle.std.specs.Prelude.{◌≡◌, ◌-◌, ◌<◌, ◌≤◌, ◌↔◌, ◌⊎◌, Option, Some, None, MatchOption, IsTrue};
ghost use Rattle.std.specs.Prelude.{length, slice_index};
ghost use Rattle.check_digits.specs.Codes.{CheckCode, IsCodeword, IsRestored, code_of};
ghost use Rattle.check_digits.specs.Ibans.{IsIbanForm, AreCheckDigits};
ghost use Rattle.check_digits.specs.Texts.{IsSymbolText, symbols_of};
ghost use Rattle.num_modular.specs.Inverses.{HasInverse};
ghost use Rattle.num_modular_c.specs.CheckCodes.{standard_of, code_of_standard, check_code, IsWord, IsCompleted, IsNumber};
ghost use Rattle.num_modular_c.specs.CheckCodes.{IsAnyIban, IsCheckCode, HasPlace, IsWritten, Wrote};
ghost use Rattle.num_modular_c.specs.Codes.{Did, Refused};
ghost use Rattle.num_modular_c.specs.declared.check_codes.Standard.{Standard};

use crate::codes::{NM_BAD_ARGUMENT, NM_NO_INVERSE, NM_NOT_ACCEPTED, NM_OK};
use check_digits::{
    ABA_RTN, Code, EAN_8, EAN_13, ISBN_10, ISBN_13, ISSN, ORCID, UPC_A, accepts_damm, accepts_iban,
    accepts_iban_text, accepts_luhn, accepts_verhoeff, damm_check_digit, iban_check_digits,
    luhn_check_digit, read_symbols, verhoeff_check_digit,
};

/// The standard of numbers of books until 2006, with ten symbols.
pub const NM_ISBN_10: u32 = 0;
/// The standard of numbers of books, with thirteen digits.
pub const NM_ISBN_13: u32 = 1;
/// The standard of numbers of articles, with thirteen digits.
pub const NM_EAN_13: u32 = 2;
/// The standard of numbers of articles, with eight digits.
pub const NM_EAN_8: u32 = 3;
/// The standard of numbers of articles, with twelve digits.
pub const NM_UPC_A: u32 = 4;
/// The standard of numbers of periodicals.
pub const NM_ISSN: u32 = 5;
/// The standard of numbers of authors.
pub const NM_ORCID: u32 = 6;
/// The standard of routing numbers of banks in the United States.
pub const NM_ABA_RTN: u32 = 7;
/// Luhn's method, as for payment cards.
pub const NM_LUHN: u32 = 8;
/// Verhoeff's method.
pub const NM_VERHOEFF: u32 = 9;
/// Damm's method.
pub const NM_DAMM: u32 = 10;

// The most characters of a text.
const MOST_CHARACTERS: usize = 128;

/// A code with one check equation: a word has an allowed symbol for each weight, and their weighted sum is congruent to
/// `residue` modulo the modulus.
#[repr(C)]
#[derive(Clone, Copy)]
// rust: #[must_use]
pub struct NmCheckCode<'a> {
    /// The modulus, at least 1.
    pub modulus: u64,
    /// The residue of the weighted sum of a word.
    pub residue: u64,
    /// The weight of each place.
    pub weights: &'a [u64],
    /// The least symbol of each place.
    pub least: &'a [u64],
    /// The greatest symbol of each place.
    pub greatest: &'a [u64],
}

// The standards.
#[derive(Clone, Copy)]
enum Standard {
    Isbn10,
    Isbn13,
    Ean13,
    Ean8,
    UpcA,
    Issn,
    Orcid,
    AbaRtn,
    Luhn,
    Verhoeff,
    Damm,
}

// The standard with this number.
fn standard_of(number: u32) -> Option<Standard>
    ensures { result ≡ standard_of number }
{
    match number {
        NM_ISBN_10 => Some(Standard::Isbn10),
        NM_ISBN_13 => Some(Standard::Isbn13),
        NM_EAN_13 => Some(Standard::Ean13),
        NM_EAN_8 => Some(Standard::Ean8),
        NM_UPC_A => Some(Standard::UpcA),
        NM_ISSN => Some(Standard::Issn),
        NM_ORCID => Some(Standard::Orcid),
        NM_ABA_RTN => Some(Standard::AbaRtn),
        NM_LUHN => Some(Standard::Luhn),
        NM_VERHOEFF => Some(Standard::Verhoeff),
        NM_DAMM => Some(Standard::Damm),
        _ => None,
    }
}

// The code of the standard, if it has one. Its last weight is 1.
#[tactic(auto, unfolding(check_digits::specs::Standards::from_right))]
fn code_of_standard(standard: Standard) -> Option<Code<'static>>
    ensures code { MatchOption result (code_of_standard standard ≡ None)
        (λ code. code_of_standard standard ≡ Some (code_of code)) }
    ensures last { MatchOption result (code_of_standard standard ≡ None)
        (λ code. slice_index code.weights.now (length code.weights.now - 1) ≡ 1) }
{
    match standard {
        Standard::Isbn10 => Some(ISBN_10),
        Standard::Isbn13 => Some(ISBN_13),
        Standard::Ean13 => Some(EAN_13),
        Standard::Ean8 => Some(EAN_8),
        Standard::UpcA => Some(UPC_A),
        Standard::Issn => Some(ISSN),
        Standard::Orcid => Some(ORCID),
        Standard::AbaRtn => Some(ABA_RTN),
        _ => None,
    }
}

// Whether the word is one of the standard.
fn accepts_word(standard: Standard, word: &[u64]) -> bool
    ensures { IsTrue result ↔ IsWord standard word.now }
{
    if let Some(code) = code_of_standard(standard) {
        return code.accepts(word);
    }
    match standard {
        Standard::Luhn => accepts_luhn(word),
        Standard::Verhoeff => accepts_verhoeff(word),
        _ => accepts_damm(word),
    }
}

// The symbol that, behind the word, makes it one of the standard.
fn completed(standard: Standard, word: &[u64]) -> Option<u64>
    ensures { IsCompleted standard word.now result }
{
    if let Some(code) = code_of_standard(standard) {
        return code.check_digit(word);
    }
    match standard {
        Standard::Luhn => luhn_check_digit(word),
        Standard::Verhoeff => verhoeff_check_digit(word),
        _ => damm_check_digit(word),
    }
}

// Writes a symbol where one was found, and returns the code.
fn write_found(found: Option<u64>, symbol: &mut u64) -> u32
    ensures { IsWritten found result symbol.old symbol.new }
{
    match found {
        Some(value) => {
            *symbol = value;
            NM_OK
        }
        None => NM_NOT_ACCEPTED,
    }
}

/// Tests whether a text is a number of a standard, `NM_ISBN_10` to `NM_DAMM`. The text has digits and X, for 10, in
/// ASCII, and between two of them at most one hyphen or space. `NM_NOT_ACCEPTED`: it isn't such a number.
/// `NM_BAD_ARGUMENT`: no standard has the number `standard`, or the text has more than 128 characters.
#[unsafe(no_mangle)]
#[tactic(auto, using(crate::proofs::CheckTexts::few_symbols))]
pub extern "C" fn nm_check_accepts(standard: u32, text: &[u8]) -> u32
    ensures accepted { (s : Standard) → standard_of standard ≡ Some s → length text.now ≤ 128
        → IsNumber s text.now → result ≡ NM_OK }
    ensures not_accepted { (s : Standard) → standard_of standard ≡ Some s → length text.now ≤ 128
        → (IsNumber s text.now → ⊥) → result ≡ NM_NOT_ACCEPTED }
    ensures bad_argument { (standard_of standard ≡ None) ⊎ (128 < length text.now) → result ≡ NM_BAD_ARGUMENT }
{
    let Some(standard) = standard_of(standard) else {
        return NM_BAD_ARGUMENT;
    };
    if text.len() > MOST_CHARACTERS {
        return NM_BAD_ARGUMENT;
    }
    let mut symbols = [0; MOST_CHARACTERS];
    let Some(count) = read_symbols(text, &mut symbols) else {
        return NM_NOT_ACCEPTED;
    };
    if accepts_word(standard, &symbols[..count]) {
        NM_OK
    } else {
        NM_NOT_ACCEPTED
    }
}

/// Writes the check digit behind a text of the symbols before it: the only symbol, 10 for X, that behind these makes a
/// number of the standard. `NM_NOT_ACCEPTED`: no symbol does, or the text isn't one that `nm_check_accepts` reads, as
/// one without a symbol or with a hyphen at its end. `NM_BAD_ARGUMENT`: as for `nm_check_accepts`.
#[unsafe(no_mangle)]
#[tactic(auto, using(crate::proofs::CheckTexts::few_symbols))]
pub extern "C" fn nm_check_digit(standard: u32, text: &[u8], digit: &mut u64) -> u32
    ensures digit { (s : Standard) → standard_of standard ≡ Some s → length text.now ≤ 128 → IsSymbolText text.now
        → Wrote (IsCompleted s (symbols_of text.now)) result digit.old digit.new }
    ensures not_accepted { (s : Standard) → standard_of standard ≡ Some s → length text.now ≤ 128
        → (IsSymbolText text.now → ⊥) → Refused NM_NOT_ACCEPTED result digit.old digit.new }
    ensures bad_argument { (standard_of standard ≡ None) ⊎ (128 < length text.now)
        → Refused NM_BAD_ARGUMENT result digit.old digit.new }
{
    let Some(standard) = standard_of(standard) else {
        return NM_BAD_ARGUMENT;
    };
    if text.len() > MOST_CHARACTERS {
        return NM_BAD_ARGUMENT;
    }
    let mut symbols = [0; MOST_CHARACTERS];
    let Some(count) = read_symbols(text, &mut symbols) else {
        return NM_NOT_ACCEPTED;
    };
    write_found(completed(standard, &symbols[..count]), digit)
}

/// Tests whether a text is an IBAN, without spaces or as its standard prints it: in groups of four characters, with a
/// space between two groups. The length, which depends on the country, isn't tested. `NM_NOT_ACCEPTED`: it isn't one.
#[unsafe(no_mangle)]
pub extern "C" fn nm_iban_accepts(text: &[u8]) -> u32
    ensures accepted { IsAnyIban text.now → result ≡ NM_OK }
    ensures not_accepted { (IsAnyIban text.now → ⊥) → result ≡ NM_NOT_ACCEPTED }
{
    if accepts_iban(text) || accepts_iban_text(text) {
        NM_OK
    } else {
        NM_NOT_ACCEPTED
    }
}

/// Writes the two check digits of an IBAN, as characters: the only ones that, after those of the country, make the
/// text an IBAN. Those in the text are ignored, and may be 00. `NM_NOT_ACCEPTED`: the text, which has no spaces,
/// hasn't the form of an IBAN. `NM_BAD_ARGUMENT`: `digits` hasn't two entries.
#[unsafe(no_mangle)]
pub extern "C" fn nm_iban_check_digits(text: &[u8], digits: &mut [u8]) -> u32
    ensures did { IsIbanForm text.now → length digits.old ≡ 2 → Did result (AreCheckDigits text.now digits.new) }
    ensures not_accepted { (IsIbanForm text.now → ⊥) → length digits.old ≡ 2
        → Refused NM_NOT_ACCEPTED result digits.old digits.new }
    ensures bad_argument { (length digits.old ≡ 2 → ⊥) → Refused NM_BAD_ARGUMENT result digits.old digits.new }
{
    if digits.len() != 2 {
        return NM_BAD_ARGUMENT;
    }
    let Some(found) = iban_check_digits(text) else {
        return NM_NOT_ACCEPTED;
    };
    digits.copy_from_slice(&found);
    NM_OK
}

/// Writes the code of a standard, `NM_ISBN_10` to `NM_ABA_RTN`, whose lists are the library's. `NM_BAD_ARGUMENT`: no
/// such standard has the number `standard`.
#[unsafe(no_mangle)]
pub extern "C" fn nm_check_code(standard: u32, code: &mut NmCheckCode<'static>) -> u32
    ensures did { (s : Standard) (c : CheckCode) → standard_of standard ≡ Some s → code_of_standard s ≡ Some c
        → Did result (check_code code.new ≡ c) }
    ensures bad_argument { ((s : Standard) (c : CheckCode) → standard_of standard ≡ Some s
        → code_of_standard s ≡ Some c → ⊥) → Refused NM_BAD_ARGUMENT result code.old code.new }
{
    let Some(standard) = standard_of(standard) else {
        return NM_BAD_ARGUMENT;
    };
    let Some(found) = code_of_standard(standard) else {
        return NM_BAD_ARGUMENT;
    };
    *code = NmCheckCode {
        modulus: found.modulus,
        residue: found.residue,
        weights: found.weights,
        least: found.least,
        greatest: found.greatest,
    };
    NM_OK
}

// The code that C has, if it is one.
fn tested<'a>(code: &NmCheckCode<'a>) -> Option<Code<'a>>
    ensures { let own = check_code code.now in
        MatchOption result (IsCheckCode own → ⊥) (λ found. IsCheckCode own × (code_of found ≡ own)) }
{
    let places = code.weights.len();
    if code.modulus == 0 || code.least.len() != places || code.greatest.len() != places {
        return None;
    }
    Some(Code {
        modulus: code.modulus,
        residue: code.residue,
        weights: code.weights,
        least: code.least,
        greatest: code.greatest,
    })
}

/// Tests whether a list of symbols is a word of a code. `NM_NOT_ACCEPTED`: it isn't. `NM_BAD_ARGUMENT`: the modulus of
/// the code is 0, or it hasn't one least and one greatest symbol for each weight.
#[unsafe(no_mangle)]
pub extern "C" fn nm_check_code_accepts(code: &NmCheckCode, word: &[u64]) -> u32
    ensures accepted { let own = check_code code.now in IsCheckCode own → IsCodeword own word.now → result ≡ NM_OK }
    ensures not_accepted { let own = check_code code.now in
        IsCheckCode own → (IsCodeword own word.now → ⊥) → result ≡ NM_NOT_ACCEPTED }
    ensures bad_argument { (IsCheckCode (check_code code.now) → ⊥) → result ≡ NM_BAD_ARGUMENT }
{
    let Some(found) = tested(code) else {
        return NM_BAD_ARGUMENT;
    };
    if found.accepts(word) {
        NM_OK
    } else {
        NM_NOT_ACCEPTED
    }
}

/// Writes the symbol that completes a word at a place: the only one below the modulus that makes it one of the code, in
/// place of an erased one. At the last place that is the check digit. The symbol that stands there is ignored.
/// `NM_NO_INVERSE`: the weight of the place has no inverse modulo the modulus. `NM_NOT_ACCEPTED`: no symbol does.
/// `NM_BAD_ARGUMENT`: as for `nm_check_code_accepts`, or the word hasn't one symbol for each weight, or not the place.
#[unsafe(no_mangle)]
pub extern "C" fn nm_check_code_restore(
    code: &NmCheckCode,
    word: &[u64],
    place: usize,
    symbol: &mut u64,
) -> u32
    ensures symbol { let own = check_code code.now in HasPlace own word.now place
        → HasInverse own.modulus (slice_index own.weights place)
        → Wrote (IsRestored own word.now place) result symbol.old symbol.new }
    ensures no_inverse { let own = check_code code.now in HasPlace own word.now place
        → (HasInverse own.modulus (slice_index own.weights place) → ⊥)
        → Refused NM_NO_INVERSE result symbol.old symbol.new }
    ensures bad_argument { (HasPlace (check_code code.now) word.now place → ⊥)
        → Refused NM_BAD_ARGUMENT result symbol.old symbol.new }
{
    let Some(found) = tested(code) else {
        return NM_BAD_ARGUMENT;
    };
    if word.len() != code.weights.len() || place >= word.len() {
        return NM_BAD_ARGUMENT;
    }
    if !found.can_restore(code.weights[place]) {
        return NM_NO_INVERSE;
    }
    write_found(found.restore(word, place), symbol)
}
