//! IBANs, as their standard defines them.
//!
//! The symbols of their code are digits. So the laws on the change of one symbol hold for one digit, and the change
//! of a letter is that of its two digits.

ghost use Rattle.std.specs.Prelude.{◌≡◌, ℕ, suc, ◌+◌, ◌-◌, ◌*◌, ◌%◌, ◌^◌, ◌<◌, ◌≤◌, ◌↔◌};
ghost use Rattle.std.specs.Prelude.{◌≢◌, ◌⊎◌, ◌++◌, IsTrue, All, MatchOption, length, slice_index, take};
ghost use Rattle.std.specs.Prelude.{if◌then◌else◌, nat_eq, [], ◌∷◌};
ghost use Rattle.std.specs.List.{flat_map};
ghost use Rattle.check_digits.specs.Codes.{code_of};
ghost use Rattle.check_digits.specs.Ibans.{IsDigit, IsLetter, IsIbanForm, digits_of, iban_digits, check_number, IsIban};
ghost use Rattle.check_digits.specs.Ibans.{AreCheckDigits, unspaced, without_spaces, IsGrouped};
ghost use Rattle.check_digits.specs.Standards.{mod_97_10};

use crate::Code;
use num_modular::ModularInteger;

const LEAST: [u64; 68] = [0; 68];

const GREATEST: [u64; 68] = [9; 68];

// The powers of ten from 10^67 down to 1, modulo 97: a text of 34 characters has at most 68 digits.
const POWERS: [u64; 68] = [
    80, 8, 59, 35, 52, 44, 82, 47, 92, 48, 63, 16, 21, 70, 7, 88, 67, 94, 87, 96, 29, 32, 42, 43,
    14, 79, 37, 91, 77, 95, 58, 64, 84, 86, 28, 61, 74, 85, 57, 93, 19, 31, 71, 75, 56, 25, 51, 73,
    17, 89, 38, 62, 45, 53, 15, 50, 5, 49, 34, 81, 76, 27, 90, 9, 30, 3, 10, 1,
];

/// The code of IBANs with `count` digits: the modulus is 97, the weights are the powers of ten, and the weighted
/// sum of a word is 1 modulo 97 (ISO/IEC 7064, MOD 97-10).
///
/// # Conditions
///
/// - there are at most 68 digits
///
/// # Examples
///
/// ```
/// use num_modular::applications::check_digits::iban_code;
///
/// assert_eq!(iban_code(4).weights, [30, 3, 10, 1]); // 1000 is 30 modulo 97
/// ```
// rust: #[track_caller]
pub fn iban_code(count: usize) -> Code<'static>
    requires { count ≤ 68 }
    ensures modulus { result.modulus ≡ 97 }
    ensures residue { result.residue ≡ 1 }
    ensures count { length result.weights.now ≡ count }
    ensures weights { (i : ℕ) → i < count → slice_index result.weights.now i ≡ 10 ^ (count - 1 - i) % 97 }
    ensures code { code_of result ≡ mod_97_10 count }
{
    prove!(count <= 68);
    // rust: assert!(count <= 68, "there must be at most 68 digits");
    let powers: &'static [u64] = &POWERS;
    let least: &'static [u64] = &LEAST;
    let greatest: &'static [u64] = &GREATEST;
    Code {
        modulus: 97,
        residue: 1,
        weights: &powers[powers.len() - count..],
        least: &least[..count],
        greatest: &greatest[..count],
    }
}

// Whether a character is a digit 0 to 9.
fn is_digit(c: u8) -> bool
    ensures { IsTrue result ↔ IsDigit c }
{
    c >= b'0' && c <= b'9'
}

// Whether a character is a letter A to Z.
fn is_letter(c: u8) -> bool
    ensures { IsTrue result ↔ IsLetter c }
{
    c >= b'A' && c <= b'Z'
}

// Whether each character is a digit 0 to 9 or a letter A to Z.
fn all_characters(text: &[u8]) -> bool
    ensures { IsTrue result ↔ All (λ c. IsDigit c ⊎ IsLetter c) text.now }
{
    text.iter().all(|c| is_digit(*c) || is_letter(*c))
}

/// Whether the text has the form of an IBAN: it has two letters A to Z, two digits, and one to thirty letters and
/// digits, in ASCII, with no space.
///
/// # Examples
///
/// ```
/// use num_modular::applications::check_digits::has_iban_form;
///
/// assert!(has_iban_form(b"GB00WEST12345698765432"));
/// assert!(!has_iban_form(b"GB00 WEST"));
/// ```
pub fn has_iban_form(text: &[u8]) -> bool
    ensures { IsTrue result ↔ IsIbanForm text.now }
{
    if text.len() < 5 || text.len() > 34 {
        return false;
    }
    let country = is_letter(text[0]) && is_letter(text[1]);
    let check = is_digit(text[2]) && is_digit(text[3]);
    country && check && all_characters(text)
}

// Writes the digits of a character from the index `end` on, and returns the index after them.
fn write_character(c: u8, digits: &mut [u64], end: usize) -> usize
    requires character { IsDigit c ⊎ IsLetter c }
    requires room { end + 2 ≤ length digits.old }
    ensures room { result ≤ end + 2 }
    ensures length { length digits.new ≡ length digits.old }
    ensures digits { take result digits.new ≡ take end digits.old ++ digits_of c }
{
    if c <= b'9' {
        digits[end] = (c - b'0') as u64;
        return end + 1;
    }
    let number = (c - b'A') as u64 + 10;
    digits[end] = number / 10;
    digits[end + 1] = number % 10;
    end + 2
}

// Writes the digits of each character of a text, and returns the index after them.
#[tactic(auto, using(crate::proofs::Ibans::room_left, crate::proofs::Ibans::room_within))]
fn write_text(text: &[u8], digits: &mut [u64], start: usize) -> usize
    requires characters { All (λ c. IsDigit c ⊎ IsLetter c) text.now }
    requires room { start + 2 * length text.now ≤ length digits.old }
    ensures room { result ≤ start + 2 * length text.now }
    ensures length { length digits.new ≡ length digits.old }
    ensures digits { take result digits.new ≡ take start digits.old ++ flat_map digits_of text.now }
{
    let mut end = start;
    'characters: for c in text {
        end = write_character(*c, digits, end);
    }
    end
}

/// Writes the digits, and returns their number: as the standard converts it, the first four characters are moved to the
/// end, and a letter is replaced by two digits, 10 for A to 35 for Z.
///
/// # Conditions
///
/// - (debug) the text has the form of an IBAN ([`has_iban_form`] tells), and there is room for 68 digits
///
/// # Examples
///
/// ```
/// use num_modular::applications::check_digits::iban_digits;
///
/// let mut digits = [0; 68];
/// let count = iban_digits(b"GB82W7", &mut digits);
/// assert_eq!(digits[..count], [3, 2, 7, 1, 6, 1, 1, 8, 2]); // W, 7, G, B and 82
/// ```
// rust: #[cfg_attr(debug_assertions, track_caller)]
#[tactic(auto, using(crate::proofs::Ibans::first_room, crate::proofs::Ibans::both_rooms, crate::proofs::Ibans::rest_after_four_is_whole))]
pub fn iban_digits(text: &[u8], digits: &mut [u64]) -> usize
    requires form { IsIbanForm text.now }
    requires room { 68 ≤ length digits.old }
    ensures count { result ≤ 68 }
    ensures digits { take result digits.new ≡ iban_digits text.now }
{
    // rust: debug_assert!(crate::applications::check_digits::has_iban_form(text) && digits.len() >= 68,
    // rust:     "the text must have the form of an IBAN, and there must be room for 68 digits");
    let end = write_text(&text[4..], digits, 0);
    write_text(&text[..4], digits, end)
}

// The number that the check digits form.
fn check_number(text: &[u8]) -> u8
    requires { IsIbanForm text.now }
    ensures { result ≡ check_number text.now }
{
    10 * (text[2] - b'0') + (text[3] - b'0')
}

/// Whether the text is an IBAN: it has the form of one, its check digits are 02 to 98, and the number that its digits
/// form in decimal is 1 modulo 97.
///
/// The length, which depends on the country, isn't tested.
///
/// It detects every change of one character to another of its kind, digit or letter, and every exchange of two
/// neighbours that differ, except of 1 and B, of 2 and M, and of 3 and X after the check digits. A text with the form
/// and such check digits is an IBAN exactly where its digits are a word of [`iban_code`]; so every change of one of
/// these digits and every exchange of two neighbouring digits that differ is detected too.
///
/// # Examples
///
/// ```
/// use num_modular::applications::check_digits::accepts_iban;
///
/// assert!(accepts_iban(b"GB82WEST12345698765432"));
/// ```
pub fn accepts_iban(text: &[u8]) -> bool
    ensures { IsTrue result ↔ IsIban text.now }
{
    if !has_iban_form(text) {
        return false;
    }
    let check = check_number(text);
    if check < 2 || check > 98 {
        return false;
    }
    let mut digits = [0; 68];
    let count = iban_digits(text, &mut digits);
    iban_code(count).accepts(&digits[..count])
}

// Whether the text is in groups of four characters, with a space between two groups.
fn is_grouped(text: &[u8]) -> bool
    ensures { IsTrue result ↔ IsGrouped text.now }
{
    'places: for (place, c) in text.iter().enumerate() {
        if (*c == b' ') != (place % 5 == 4) {
            return false;
        }
    }
    text.len() % 5 != 0
}

// Writes a character that is no space at the index `end`, and returns the index after it.
fn write_unspaced(c: u8, characters: &mut [u8], end: usize) -> usize
    requires { end + length (unspaced c) ≤ length characters.old }
    ensures end { result ≡ end + length (unspaced c) }
    ensures length { length characters.new ≡ length characters.old }
    ensures characters { take result characters.new ≡ take end characters.old ++ unspaced c }
{
    if c == b' ' {
        return end;
    }
    characters[end] = c;
    end + 1
}

// Writes the characters of a text without its spaces, and returns their number.
#[tactic(auto, using(crate::proofs::TextSymbols::fits_before))]
fn write_ungrouped(text: &[u8], characters: &mut [u8]) -> usize
    requires { length (without_spaces text.now) ≤ length characters.old }
    ensures count { result ≡ length (without_spaces text.now) }
    ensures length { length characters.new ≡ length characters.old }
    ensures characters { take result characters.new ≡ without_spaces text.now }
{
    let mut end = 0;
    'characters: for c in text {
        end = write_unspaced(*c, characters, end);
    }
    end
}

/// Whether the text is an IBAN in groups: its standard prints groups of four characters, with a space between two
/// groups and no other.
///
/// For an IBAN without spaces there is [`accepts_iban`].
///
/// # Examples
///
/// ```
/// use num_modular::applications::check_digits::accepts_iban_text;
///
/// assert!(accepts_iban_text(b"GB82 WEST 1234 5698 7654 32"));
/// ```
#[tactic(auto, using(crate::proofs::TextSymbols::ungrouped_length))]
pub fn accepts_iban_text(text: &[u8]) -> bool
    ensures { IsTrue result ↔ IsGrouped text.now × IsIban (without_spaces text.now) }
{
    // 34 characters and 8 spaces
    if text.len() > 42 {
        return false;
    }
    if !is_grouped(text) {
        return false;
    }
    let mut characters = [0; 34];
    let count = write_ungrouped(text, &mut characters);
    accepts_iban(&characters[..count])
}

/// The two check digits of an IBAN: the characters after those of the country, the only ones that make the text an
/// IBAN.
///
/// Those in the text are ignored, and may be 00. `None` exactly where the text hasn't the form of an IBAN.
///
/// # Examples
///
/// ```
/// use num_modular::applications::check_digits::iban_check_digits;
///
/// assert_eq!(iban_check_digits(b"GB00WEST12345698765432"), Some(*b"82"));
/// ```
pub fn iban_check_digits(text: &[u8]) -> Option<[u8; 2]>
    ensures { MatchOption result (¬ IsIbanForm text.now) (AreCheckDigits text.now) }
{
    if !has_iban_form(text) {
        return None;
    }
    let mut digits = [0; 68];
    let count = iban_digits(text, &mut digits);
    let residue = iban_code(count).check_sum(&digits[..count]).residue();
    let others = (residue + 194 - check_number(text) as u64) % 97;
    let check = 98 - others as u8;
    Some([b'0' + check / 10, b'0' + check % 10])
}
