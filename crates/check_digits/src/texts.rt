//! Texts of symbols as people write them, with hyphens or spaces.

ghost use Rattle.std.specs.Prelude.{◌≡◌, ℕ, suc, ◌+◌, ◌<◌, ◌≤◌, ◌↔◌, ◌⊎◌, ◌++◌};
ghost use Rattle.std.specs.Prelude.{IsTrue, All, MatchOption, length, slice_index, take};
ghost use Rattle.std.specs.List.{flat_map};
ghost use Rattle.check_digits.specs.Texts.{IsSymbol, IsSeparator, IsSymbolText, AreSymbols, symbol_of, symbols_of};

// Whether the character is a digit, or X.
fn is_symbol(c: u8) -> bool
    ensures { IsTrue result ↔ IsSymbol c }
{
    (c >= b'0' && c <= b'9') || c == b'X'
}

// Whether the character is a space or a hyphen.
fn is_separator(c: u8) -> bool
    ensures { IsTrue result ↔ IsSeparator c }
{
    c == b' ' || c == b'-'
}

// Whether each character is a symbol or a separator.
fn all_characters(text: &[u8]) -> bool
    ensures { IsTrue result ↔ All (λ c. IsSymbol c ⊎ IsSeparator c) text.now }
{
    text.iter().all(|c| is_symbol(*c) || is_separator(*c))
}

// Whether there is a symbol at the place.
fn has_symbol(text: &[u8], place: usize) -> bool
    ensures { IsTrue result ↔ IsSymbol (slice_index text.now place) }
{
    place < text.len() && is_symbol(text[place])
}

// Whether a symbol is behind each separator.
fn are_between(text: &[u8]) -> bool
    ensures { IsTrue result
        ↔ ((i : ℕ) → i < length text.now
        → IsSeparator (slice_index text.now i) → IsSymbol (slice_index text.now (suc i))) }
{
    'places: for place in 0..text.len() {
        if is_separator(text[place]) && !has_symbol(text, place + 1) {
            return false;
        }
    }
    true
}

/// Whether the text is one of symbols: in ASCII, there is at least one symbol, digits 0 to 9 and X, and between two of
/// them there may be a single hyphen or space.
///
/// # Examples
///
/// ```
/// use num_modular::applications::check_digits::is_symbol_text;
///
/// assert!(is_symbol_text(b"0378-5955"));
/// assert!(!is_symbol_text(b"0378--5955"));
/// ```
pub fn is_symbol_text(text: &[u8]) -> bool
    ensures { IsTrue result ↔ IsSymbolText text.now }
{
    has_symbol(text, 0) && all_characters(text) && are_between(text)
}

// The number of symbols of the text.
fn count_symbols(text: &[u8]) -> usize
    requires { All (λ c. IsSymbol c ⊎ IsSeparator c) text.now }
    ensures { result ≡ length (symbols_of text.now) }
{
    let mut count = 0;
    'characters: for c in text {
        if *c >= b'0' {
            count += 1;
        }
    }
    count
}

// Writes the symbol of a character, if it has one, at the index `end`, and returns the index after it.
fn write_symbol(c: u8, symbols: &mut [u64], end: usize) -> usize
    requires character { IsSymbol c ⊎ IsSeparator c }
    requires room { end + length (symbol_of c) ≤ length symbols.old }
    ensures end { result ≡ end + length (symbol_of c) }
    ensures length { length symbols.new ≡ length symbols.old }
    ensures symbols { take result symbols.new ≡ take end symbols.old ++ symbol_of c }
{
    if c < b'0' {
        return end;
    }
    symbols[end] = if c == b'X' { 10 } else { (c - b'0') as u64 };
    end + 1
}

/// Writes the symbols, and returns their number: X is 10, and single hyphens or spaces may be between symbols.
///
/// `None` exactly where the text isn't such a text, or there is too little room: [`is_symbol_text`] tells, and nothing
/// is written.
///
/// # Examples
///
/// ```
/// use num_modular::applications::check_digits::{accepts_luhn, read_symbols};
///
/// let mut digits = [0; 19];
/// let count = read_symbols(b"4539 5787 6362 1486", &mut digits).unwrap();
/// assert!(accepts_luhn(&digits[..count]));
/// ```
#[tactic(auto, using(crate::proofs::TextSymbols::fits_before))]
pub fn read_symbols(text: &[u8], symbols: &mut [u64]) -> Option<usize>
    ensures length { length symbols.new ≡ length symbols.old }
    ensures read { MatchOption result
        ((IsSymbolText text.now → length symbols.old < length (symbols_of text.now)) × (symbols.new ≡ symbols.old))
        (AreSymbols text.now symbols.new) }
{
    if !is_symbol_text(text) || count_symbols(text) > symbols.len() {
        return None;
    }
    let mut end = 0;
    'characters: for c in text {
        end = write_symbol(*c, symbols, end);
    }
    Some(end)
}
