//! The search for the message of a near word: by syndromes, and by the key equation.

ghost use Rattle.std.specs.Prelude.{◌≡◌, ◌≢◌, ℕ, ◌+◌, ◌-◌, ◌*◌, ◌%◌, ◌<◌, ◌≤◌, ◌↔◌};
ghost use Rattle.std.specs.Prelude.{IsTrue, IfOk, IfErr, MatchResult, length};
ghost use Rattle.num_modular.specs.Entries.{entry};
ghost use Rattle.num_modular.specs.Checked.{AreChecked, IsChecked};
ghost use Rattle.num_modular.specs.Polynomials.{polynomial_at, HaveUnitDifferences};
ghost use Rattle.ring_codes.specs.Erasure.{IsErasureCodeword, IsWithoutInverse, distance};
ghost use Rattle.ring_correction.specs.Correction.{IsCandidate, IsSearchFault};

use super::key_equation::solve;
use super::quotients::divide_lighter;
use num_modular::{Reducer, RingWord};
use ring_codes::erasure::{
    CorrectError, RestoreError, evaluate_each, interpolate, is_codeword, points_fit,
};
use ring_decoder::corrector::Corrector;

// Writes the only message that can have a near word, by the key equation. Returns false where there is none. Where a
// number without an inverse modulo m is in the way, it returns that number.
#[tactic(auto, using(crate::proofs::NearPairs::twice_half_within_one, crate::proofs::NearPairs::fit_taken))]
fn decode<T: RingWord, R: Reducer<T>>(
    r: &R,
    points: &[T],
    symbols: &[T],
    scratch: &mut [T],
    message: &mut [T],
) -> Result<bool, T>
    requires points { AreChecked R.Reducer T.number r.now points.now }
    requires symbols { AreChecked R.Reducer T.number r.now symbols.now }
    requires pairs { length symbols.now ≡ length points.now }
    requires some { 0 < length message.old }
    requires few { length message.old ≤ length points.now }
    requires room { 2 * length points.now + 3 * length message.old + 2 ≤ length scratch.old }
    requires fit { let m = R.modulus r.now in
        HaveUnitDifferences m (length points.now) (entry T.number R.value m points.now) }
    ensures inverse { IfErr result (λ a. IsWithoutInverse (R.modulus r.now) (T.number a)) }
    ensures checked { IfOk result (λ b. IsTrue b →
        AreChecked R.Reducer T.number r.now message.new) }
    ensures message { let m = R.modulus r.now in let s = length points.now in let k = length message.old in
        IfOk result (λ b. (sent : ℕ → ℕ) →
        2 * distance s (entry T.number R.value m symbols.now)
        (λ j. polynomial_at k sent (entry T.number R.value m points.now j) % m) ≤ s - k →
        IsTrue b × ((i : ℕ) → i < k → entry T.number R.value m message.new i ≡ sent i % m)) }
{
    let k = message.len();
    let half = (points.len() - k) / 2;
    let count = k + 2 * half;
    let points = &points[..count];
    let symbols = &symbols[..count];
    let (first, rest) = scratch.split_at_mut(count + 1);
    let (second, rest) = rest.split_at_mut(count + 1);
    match solve(r, points, symbols, k, first, second, half + k) {
        Err(a) => Err(a),
        Ok(weights) => divide_lighter(r, points, weights, first, second, half + k, rest, message),
    }
}

// Does as `find_message`, by the key equation alone, where the points fit and some symbol is wrong.
fn find_by_key_equation<T: RingWord, R: Reducer<T>>(
    r: &R,
    points: &[T],
    symbols: &[T],
    scratch: &mut [T],
    word: &mut [T],
    message: &mut [T],
) -> Result<(), CorrectError<T>>
    requires points { AreChecked R.Reducer T.number r.now points.now }
    requires symbols { AreChecked R.Reducer T.number r.now symbols.now }
    requires pairs { length symbols.now ≡ length points.now }
    requires some { 0 < length message.old }
    requires few { length message.old ≤ length points.now }
    requires word { length word.old ≡ length points.now }
    requires room { 2 * length points.now + 3 * length message.old + 2 ≤ length scratch.old }
    requires fit { let m = R.modulus r.now in
        HaveUnitDifferences m (length points.now) (entry T.number R.value m points.now) }
    requires wrong { let m = R.modulus r.now in IsErasureCodeword m (length message.old) (length points.now)
        (entry T.number R.value m points.now) (entry T.number R.value m symbols.now) → ⊥ }
    ensures { let m = R.modulus r.now in let entries = entry T.number R.value m in MatchResult result
        (λ _. IsCandidate (λ f. IsChecked R.Reducer T.number r.now f) entries m (length message.old) points.now symbols.now
        message.new word.new)
        (λ e. IsSearchFault T.number m (length message.old) (length points.now) (entries points.now) (entries symbols.now) e) }
{
    match decode(r, points, symbols, scratch, message) {
        Err(a) => Err(CorrectError::NoInverse(a)),
        Ok(false) => Err(CorrectError::TooManyErrors),
        Ok(true) => {
            evaluate_each(r, message, points, word);
            Ok(())
        }
    }
}

// Does as `find_message`, without syndromes; where no symbol is wrong also without the key equation, which needs inverses
// that might not exist.
fn find_without_syndromes<T: RingWord, R: Reducer<T>>(
    r: &R,
    points: &[T],
    symbols: &[T],
    scratch: &mut [T],
    word: &mut [T],
    message: &mut [T],
) -> Result<(), CorrectError<T>>
    requires points { AreChecked R.Reducer T.number r.now points.now }
    requires symbols { AreChecked R.Reducer T.number r.now symbols.now }
    requires pairs { length symbols.now ≡ length points.now }
    requires some { 0 < length message.old }
    requires few { length message.old ≤ length points.now }
    requires word { length word.old ≡ length points.now }
    requires room { 2 * length points.now + 3 * length message.old + 2 ≤ length scratch.old }
    ensures { let m = R.modulus r.now in let entries = entry T.number R.value m in MatchResult result
        (λ _. IsCandidate (λ f. IsChecked R.Reducer T.number r.now f) entries m (length message.old) points.now symbols.now
        message.new word.new)
        (λ e. IsSearchFault T.number m (length message.old) (length points.now) (entries points.now) (entries symbols.now) e) }
{
    if !points_fit(r, points) {
        return Err(CorrectError::Restore(RestoreError::PointsDontFit));
    }
    let (weights, _) = scratch.split_at_mut(message.len());
    if is_codeword(r, points, symbols, weights, message) {
        word.copy_from_slice(symbols);
        return Ok(());
    }
    find_by_key_equation(r, points, symbols, scratch, word, message)
}

// Whether so many places of scratch are enough for `find_by_syndromes`.
fn has_room(s: usize, k: usize, room: usize) -> bool
    requires { k ≤ s }
    ensures { IsTrue result ↔ (3 * s + 7 * (s - k) + 3 ≤ room) }
{
    s < room / 3 && s - k <= (room - 3 * s - 3) / 7
}

// Does as `find_message`, by syndromes alone.
fn find_by_syndromes<T: RingWord, R: Reducer<T>>(
    r: &R,
    points: &[T],
    symbols: &[T],
    scratch: &mut [T],
    word: &mut [T],
    message: &mut [T],
) -> Result<(), CorrectError<T>>
    requires points { AreChecked R.Reducer T.number r.now points.now }
    requires symbols { AreChecked R.Reducer T.number r.now symbols.now }
    requires pairs { length symbols.now ≡ length points.now }
    requires few { length message.old ≤ length points.now }
    requires word { length word.old ≡ length points.now }
    requires room { 3 * length points.now + 7 * (length points.now - length message.old) + 3 ≤ length scratch.old }
    ensures { let m = R.modulus r.now in let entries = entry T.number R.value m in MatchResult result
        (λ _. IsCandidate (λ f. IsChecked R.Reducer T.number r.now f) entries m (length message.old) points.now symbols.now
        message.new word.new)
        (λ e. IsSearchFault T.number m (length message.old) (length points.now) (entries points.now) (entries symbols.now) e) }
{
    let (weights, rest) = scratch.split_at_mut(points.len());
    let (checks, rest) = rest.split_at_mut(0);
    let (products, _) = rest.split_at_mut(points.len());
    if !Corrector::fill_lists(r, points, message.len(), weights, checks, products) {
        return Err(CorrectError::Restore(RestoreError::PointsDontFit));
    }
    word.copy_from_slice(symbols);
    let code = Corrector::over(r, points, message.len(), weights, checks);
    match code.correct(word, &[], rest) {
        Err(error) => Err(error),
        Ok(_) => {
            let (spare, _) = rest.split_at_mut(message.len());
            if interpolate(r, points, word, spare, message) {
                Ok(())
            } else {
                Err(CorrectError::Restore(RestoreError::PointsDontFit))
            }
        }
    }
}

// Writes the only message that can have a near word, if the points fit, and its word at these points.
pub fn find_message<T: RingWord, R: Reducer<T>>(
    r: &R,
    points: &[T],
    symbols: &[T],
    scratch: &mut [T],
    word: &mut [T],
    message: &mut [T],
) -> Result<(), CorrectError<T>>
    requires points { AreChecked R.Reducer T.number r.now points.now }
    requires symbols { AreChecked R.Reducer T.number r.now symbols.now }
    requires pairs { length symbols.now ≡ length points.now }
    requires some { 0 < length message.old }
    requires few { length message.old ≤ length points.now }
    requires word { length word.old ≡ length points.now }
    requires room { 2 * length points.now + 3 * length message.old + 2 ≤ length scratch.old }
    ensures { let m = R.modulus r.now in let entries = entry T.number R.value m in MatchResult result
        (λ _. IsCandidate (λ f. IsChecked R.Reducer T.number r.now f) entries m (length message.old) points.now symbols.now
        message.new word.new)
        (λ e. IsSearchFault T.number m (length message.old) (length points.now) (entries points.now) (entries symbols.now) e) }
{
    if !has_room(points.len(), message.len(), scratch.len()) {
        return find_without_syndromes(r, points, symbols, scratch, word, message);
    }
    match find_by_syndromes(r, points, symbols, scratch, word, message) {
        Err(CorrectError::NoInverse(_)) => {
            find_by_key_equation(r, points, symbols, scratch, word, message)
        }
        Err(error) => Err(error),
        Ok(()) => Ok(()),
    }
}
