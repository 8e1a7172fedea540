//! Which words a code accepts, which changes it detects, how it restores an erased symbol, and the check digit.

ghost use Rattle.std.specs.Prelude.{◌≡◌, ◌≢◌, ℕ, suc, ◌+◌, ◌-◌, ◌*◌, ◌%◌, ◌<◌, ◌≤◌, ◌↔◌};
ghost use Rattle.std.specs.Prelude.{IsTrue, length, slice_index, slice_set, pos, ◌-ℤ◌};
ghost use Rattle.num_modular.specs.Integers.{IsReduced};
ghost use Rattle.num_modular.specs.Inverses.{HasInverse};
ghost use Rattle.num_modular.specs.Residues.{residue};
ghost use Rattle.check_digits.specs.Codes.{weighted_sum, code_of, Fits, IsCodeword, exchanged, IsRestored};
ghost use Rattle.check_digits.specs.Codes.{IsCompletion};
ghost use Rattle.check_digits.specs.Texts.{IsSymbolText, symbols_of};

use crate::{Code, read_symbols};
use num_modular::{ModularCoreOps, ModularInteger, ModularUnaryOps, VanillaInt};

// Whether the change of a word is found: if its symbols don't fit, or the weighted sum shows the change.
fn is_found(fit: bool, shown: u64) -> bool
    ensures { IsTrue result ↔ (IsTrue fit → shown ≢ 0) }
{
    shown != 0 || !fit
}

impl<'a> Code<'a> {
    // The residue of the weighted sum of the symbols.
    // rust: #[cfg_attr(debug_assertions, track_caller)]
    fn sum(&self, word: &[u64]) -> u64
        requires { length word.now ≤ length self.now.weights.now }
        ensures { result ≡ weighted_sum self.now.weights.now word.now % self.now.modulus }
    {
        let m = self.modulus;
        // rust: assert!(m > 0, "the modulus must be at least 1");
        let weights = self.weights;
        let mut sum = 0 % m;
        'places: for (place, symbol) in word.iter().enumerate() {
            let product = weights[place].mulm(*symbol, &m);
            sum = sum.addm(product, &m);
        }
        sum
    }

    /// The weighted sum of the symbols: modulo the modulus.
    ///
    /// # Conditions
    ///
    /// - each place has a weight
    ///
    /// # Examples
    ///
    /// ```
    /// use num_modular::applications::check_digits::ISBN_10;
    /// use num_modular::ModularInteger;
    ///
    /// assert_eq!(ISBN_10.check_sum(&[0, 3, 0, 6, 4, 0, 6, 1, 5]).residue(), 9); // the digit 2 is missing
    /// ```
    // rust: #[track_caller]
    pub fn check_sum(&self, word: &[u64]) -> VanillaInt<u64>
        requires { length word.now ≤ length self.now.weights.now }
        ensures { IsReduced self.now.modulus (weighted_sum self.now.weights.now word.now % self.now.modulus) result }
    {
        // rust: assert!(word.len() <= self.weights.len(), "each place must have a weight: {} and {}", word.len(),
        // rust:     self.weights.len());
        VanillaInt::<u64>::new(self.sum(word), &self.modulus)
    }

    /// Whether the symbol is allowed at the place.
    ///
    /// # Conditions
    ///
    /// - the code has the place
    ///
    /// # Examples
    ///
    /// ```
    /// use num_modular::applications::check_digits::ISBN_10;
    ///
    /// assert!(ISBN_10.fits(9, 10)); // X
    /// assert!(!ISBN_10.fits(0, 10));
    /// ```
    // rust: #[track_caller]
    pub fn fits(&self, place: usize, symbol: u64) -> bool
        requires { place < length self.now.weights.now }
        ensures { IsTrue result ↔ Fits (code_of self.now) place symbol }
    {
        // rust: assert!(place < self.weights.len(), "the code must have the place");
        let least = self.least;
        let greatest = self.greatest;
        least[place] <= symbol && symbol <= greatest[place]
    }

    // Whether the symbols at a place and at the next are allowed after an exchange.
    fn fit_exchanged(&self, word: &[u64], place: usize) -> bool
        requires within { suc place < length word.now }
        requires weighted { length word.now ≡ length self.now.weights.now }
        ensures { IsTrue result ↔ Fits (code_of self.now) place (slice_index word.now (suc place))
            × Fits (code_of self.now) (suc place) (slice_index word.now place) }
    {
        self.fits(place, word[place + 1]) && self.fits(place + 1, word[place])
    }

    // Whether each symbol but the one at `erased` is allowed at its place.
    fn fits_but(&self, word: &[u64], erased: usize) -> bool
        requires { length word.now ≤ length self.now.weights.now }
        ensures { IsTrue result
            ↔ ((i : ℕ) → i < length word.now → i ≢ erased → Fits (code_of self.now) i (slice_index word.now i)) }
    {
        'places: for (place, symbol) in word.iter().enumerate() {
            if place != erased && !self.fits(place, *symbol) {
                return false;
            }
        }
        true
    }

    /// Whether the word is one of the code.
    ///
    /// # Conditions
    ///
    /// - (debug) the code has a least and a greatest symbol for each weight
    ///
    /// # Examples
    ///
    /// ```
    /// use num_modular::applications::check_digits::ISBN_10;
    ///
    /// assert!(ISBN_10.accepts(&[0, 3, 0, 6, 4, 0, 6, 1, 5, 2]));
    /// ```
    // rust: #[cfg_attr(debug_assertions, track_caller)]
    pub fn accepts(&self, word: &[u64]) -> bool
        ensures { IsTrue result ↔ IsCodeword (code_of self.now) word.now }
    {
        // rust: debug_assert!(self.least.len() == self.weights.len() && self.greatest.len() == self.weights.len(),
        // rust:     "the code must have a least and a greatest symbol for each weight: {}, {} and {}", self.least.len(),
        // rust:     self.greatest.len(), self.weights.len());
        word.len() == self.weights.len()
            && self.fits_but(word, word.len())
            && self.sum(word) == self.residue % self.modulus
    }

    /// Whether the text is a word of the code.
    ///
    /// It has the word's digits in ASCII, X for 10, and between two of them at most one hyphen or space
    /// (`is_symbol_text` tells). Where these have to be isn't tested, because for an ISBN it depends on the country and
    /// the publisher.
    ///
    /// # Conditions
    ///
    /// - (debug) the code has at most 68 places
    ///
    /// # Examples
    ///
    /// ```
    /// use num_modular::applications::check_digits::{ISBN_13, ORCID};
    ///
    /// assert!(ISBN_13.accepts_text(b"978-0-306-40615-7"));
    /// assert!(ORCID.accepts_text(b"0000-0002-1694-233X"));
    /// assert!(!ORCID.accepts_text(b"0000-0002-1694-2339"));
    /// ```
    // rust: #[cfg_attr(debug_assertions, track_caller)]
    pub fn accepts_text(&self, text: &[u8]) -> bool
        requires { length self.now.weights.now ≤ 68 }
        ensures { IsTrue result ↔ IsSymbolText text.now × IsCodeword (code_of self.now) (symbols_of text.now) }
    {
        prove!(self.weights.len() <= 68);
        // rust: debug_assert!(self.weights.len() <= 68, "the code must have at most 68 places");
        let mut symbols = [0; 68];
        match read_symbols(text, &mut symbols) {
            Some(count) => self.accepts(&symbols[..count]),
            None => false,
        }
    }

    /// Whether the code detects this: the word with `symbol` at `place` isn't accepted.
    ///
    /// It is detected exactly where the symbol isn't allowed at the place, or the weight times the difference of
    /// the symbols isn't 0 modulo m; so always where the weight has an inverse and the symbols differ modulo m.
    ///
    /// Source: Gallian, "The mathematics of identification numbers", theorem 1.
    ///
    /// # Conditions
    ///
    /// - (debug) the word is accepted
    /// - (debug) the word has the place
    ///
    /// # Examples
    ///
    /// ```
    /// use num_modular::applications::check_digits::EAN_8;
    ///
    /// assert!(EAN_8.finds_change(&[7, 3, 5, 1, 3, 5, 3, 7], 0, 2));
    /// ```
    // rust: #[cfg_attr(debug_assertions, track_caller)]
    pub fn finds_change(&self, word: &[u64], place: usize, symbol: u64) -> bool
        requires accepted { IsCodeword (code_of self.now) word.now }
        requires within { place < length word.now }
        ensures refused { IsTrue result ↔ ¬ IsCodeword (code_of self.now) (slice_set word.now place symbol) }
        ensures product { let m = self.now.modulus in
            let difference = residue m (pos symbol -ℤ pos (slice_index word.now place)) in
            IsTrue result ↔ (Fits (code_of self.now) place symbol →
            (slice_index self.now.weights.now place * difference) % m ≢ 0) }
        ensures unit { let m = self.now.modulus in
            HasInverse m (slice_index self.now.weights.now place) →
            symbol % m ≢ slice_index word.now place % m → IsTrue result }
    {
        // rust: debug_assert!(self.accepts(word) && place < word.len(),
        // rust:     "the word must be accepted, and it must have the place");
        let m = self.modulus;
        let weights = self.weights;
        let difference = symbol.subm(word[place], &m);
        let product = weights[place].mulm(difference, &m);
        is_found(self.fits(place, symbol), product)
    }

    /// Whether the code detects this: the word with the symbols at `place` and at the next place exchanged isn't
    /// accepted.
    ///
    /// It is detected exactly where one of them isn't allowed at its new place, or the difference of the weights
    /// times that of the symbols isn't 0 modulo m; so always where the difference of the weights has an inverse and
    /// the symbols differ modulo m.
    ///
    /// Source: Gallian, "The mathematics of identification numbers", theorem 2.
    ///
    /// # Conditions
    ///
    /// - (debug) the word is accepted
    /// - (debug) the word has both places
    ///
    /// # Examples
    ///
    /// ```
    /// use num_modular::applications::check_digits::EAN_8;
    ///
    /// let word = [7, 3, 5, 1, 3, 5, 3, 7];
    /// assert!(EAN_8.finds_exchange(&word, 0));
    /// ```
    // rust: #[cfg_attr(debug_assertions, track_caller)]
    pub fn finds_exchange(&self, word: &[u64], place: usize) -> bool
        requires accepted { IsCodeword (code_of self.now) word.now }
        requires within { suc place < length word.now }
        ensures refused { IsTrue result ↔ ¬ IsCodeword (code_of self.now) (exchanged word.now place) }
        ensures product { let m = self.now.modulus in
            let weights = self.now.weights.now in
            let weight = residue m (pos (slice_index weights place) -ℤ pos (slice_index weights (suc place))) in
            let difference = residue m (pos (slice_index word.now (suc place)) -ℤ pos (slice_index word.now place)) in
            IsTrue result ↔ (Fits (code_of self.now) place (slice_index word.now (suc place))
            × Fits (code_of self.now) (suc place) (slice_index word.now place) → (weight * difference) % m ≢ 0) }
        ensures unit { let m = self.now.modulus in
            let weights = self.now.weights.now in
            HasInverse m (residue m (pos (slice_index weights place) -ℤ pos (slice_index weights (suc place)))) →
            slice_index word.now (suc place) % m ≢ slice_index word.now place % m → IsTrue result }
    {
        // rust: debug_assert!(self.accepts(word) && place < word.len().saturating_sub(1),
        // rust:     "the word must be accepted, and it must have both places");
        let m = self.modulus;
        let weights = self.weights;
        let weight = weights[place].subm(weights[place + 1], &m);
        let difference = word[place + 1].subm(word[place], &m);
        let product = weight.mulm(difference, &m);
        is_found(self.fit_exchanged(word, place), product)
    }

    /// Whether an erased symbol can be restored: that of a weight that has an inverse modulo m.
    ///
    /// # Examples
    ///
    /// ```
    /// use num_modular::applications::check_digits::EAN_8;
    ///
    /// assert!(EAN_8.can_restore(3));
    /// assert!(!EAN_8.can_restore(5)); // 5 and 10 have the divisor 5
    /// ```
    pub fn can_restore(&self, weight: u64) -> bool
        ensures { IsTrue result ↔ HasInverse self.now.modulus weight }
    {
        weight.invm(&self.modulus).is_some()
    }

    // The only number below m that, times the weight, completes the sum to the residue of the code.
    fn complete(&self, sum: u64, weight: u64) -> u64
        requires { HasInverse self.now.modulus weight }
        ensures below { result < self.now.modulus }
        ensures leaves { (sum + weight * result) % self.now.modulus ≡ self.now.residue % self.now.modulus }
        ensures only { (t : ℕ) → t < self.now.modulus →
            (sum + weight * t) % self.now.modulus ≡ self.now.residue % self.now.modulus →
            t ≡ result }
    {
        let m = self.modulus;
        let divisor = VanillaInt::<u64>::new(weight, &m);
        let quotient = divisor.convert(self.residue.subm(sum, &m)) / divisor;
        quotient.residue()
    }

    // The only number below m for which, as the symbol at the place, the weighted sum has the residue of the code.
    fn solve(&self, word: &[u64], place: usize) -> u64
        requires weighted { length word.now ≤ length self.now.weights.now }
        requires within { place < length word.now }
        requires unit { HasInverse self.now.modulus (slice_index self.now.weights.now place) }
        ensures below { result < self.now.modulus }
        ensures leaves { weighted_sum self.now.weights.now (slice_set word.now place result) % self.now.modulus
            ≡ self.now.residue % self.now.modulus }
        ensures only { (t : ℕ) → t < self.now.modulus →
            weighted_sum self.now.weights.now (slice_set word.now place t) % self.now.modulus
            ≡ self.now.residue % self.now.modulus →
            t ≡ result }
    {
        let m = self.modulus;
        let weights = self.weights;
        let others = self
            .sum(word)
            .subm(weights[place].mulm(word[place], &m), &m);
        self.complete(others, weights[place])
    }

    /// The symbol that completes the word there: the only one below m that makes it one of the code, in place of an
    /// erased one.
    ///
    /// `None` exactly where no symbol below m does. The symbol at `place` is ignored.
    ///
    /// # Conditions
    ///
    /// - (debug) the word has the place, and the code has a weight with an inverse modulo m there (`can_restore`
    ///   tells)
    ///
    /// # Examples
    ///
    /// ```
    /// use num_modular::applications::check_digits::EAN_8;
    ///
    /// assert_eq!(EAN_8.restore(&[7, 0, 5, 1, 3, 5, 3, 7], 1), Some(3));
    /// ```
    // rust: #[cfg_attr(debug_assertions, track_caller)]
    pub fn restore(&self, word: &[u64], place: usize) -> Option<u64>
        requires within { place < length word.now }
        requires unit { HasInverse self.now.modulus (slice_index self.now.weights.now place) }
        ensures { IsRestored (code_of self.now) word.now place result }
    {
        // rust: debug_assert!(place < word.len() && place < self.weights.len() && self.can_restore(self.weights[place]),
        // rust:     "the word must have the place, and the code must have a weight with an inverse modulo m there");
        if word.len() != self.weights.len() {
            return None;
        }
        if !self.fits_but(word, place) {
            return None;
        }
        let symbol = self.solve(word, place);
        if self.fits(place, symbol) {
            Some(symbol)
        } else {
            None
        }
    }

    /// The check digit behind the word: the only symbol below m that makes it one of the code, where 10 is X.
    ///
    /// `None` exactly where no symbol below m does. Each code of `standard_codes` has the last weight 1.
    ///
    /// # Conditions
    ///
    /// - (debug) the last weight has an inverse modulo m
    ///
    /// # Examples
    ///
    /// ```
    /// use num_modular::applications::check_digits::{EAN_8, ISBN_10};
    ///
    /// assert_eq!(EAN_8.check_digit(&[7, 3, 5, 1, 3, 5, 3]), Some(7));
    /// assert_eq!(ISBN_10.check_digit(&[0, 8, 0, 4, 4, 2, 9, 5, 7]), Some(10)); // X
    /// ```
    // rust: #[cfg_attr(debug_assertions, track_caller)]
    pub fn check_digit(&self, word: &[u64]) -> Option<u64>
        requires { HasInverse self.now.modulus (slice_index self.now.weights.now (length self.now.weights.now - 1)) }
        ensures { IsCompletion self.now.modulus (IsCodeword (code_of self.now)) word.now result }
    {
        // rust: debug_assert!(self.weights.last().map_or(true, |it| self.can_restore(*it)),
        // rust:     "the last weight must have an inverse modulo m");
        let place = word.len();
        let weights = self.weights;
        if place + 1 != weights.len() {
            return None;
        }
        if !self.fits_but(word, place) {
            return None;
        }
        let symbol = self.complete(self.sum(word), weights[place]);
        if self.fits(place, symbol) {
            Some(symbol)
        } else {
            None
        }
    }
}
