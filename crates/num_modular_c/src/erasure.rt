//! Erasure codes for C, by points, messages and words that are lists of words.

ghost use Rattle.std.specs.Prelude.{◌≡◌, ◌≢◌, ℕ, ◌+◌, ◌*◌, ◌%◌, ◌<◌, ◌≤◌, ◌↔◌, IsTrue, length, slice_index};
ghost use Rattle.num_modular.specs.Inverses.{HasInverse};
ghost use Rattle.num_modular.specs.Polynomials.{HaveUnitDifferences};
ghost use Rattle.num_modular_c.specs.Codes.{Did, Refused, BothRefused};
ghost use Rattle.num_modular_c.specs.Commands.{residues_of};
ghost use Rattle.num_modular_c.specs.Contexts.{IsMontgomery};
ghost use Rattle.num_modular_c.specs.Erasure.{FitsEncode, FitsShare, FitsRestore, FitsCorrect, ArePlaced, IsRestored};
ghost use Rattle.num_modular_c.specs.Erasure.{IsRestoreFailure, IsCorrected, IsCorrectFailure, IsShareFailure};
ghost use Rattle.num_modular_c.specs.Erasure.{code_of, share_code_of, correct_code_of, number_after};
ghost use Rattle.ring_correction.specs.Correction.{AreFit};
ghost use Rattle.ring_codes.specs.Erasure.{IsEncoding};

use crate::codes::{
    NM_BAD_ARGUMENT, NM_BAD_CONTEXT, NM_NO_INVERSE, NM_OK, NM_PLACE_OUT_OF_RANGE, NM_PLACE_TWICE,
    NM_POINT_WITHOUT_INVERSE, NM_POINTS_DONT_FIT, NM_TOO_FEW_SYMBOLS, NM_TOO_MANY_ERRORS,
};
use crate::lists::{load_from, unload, unload_from};
use crate::montgomery::{NmMontgomery, reducer};
use num_modular::Reducer;
use ring_codes::erasure::{CorrectError, RestoreError, ShareError, evaluate_each, restore, share};
use ring_correction::correct;

// Whether the lists of `nm_erasure_encode` have fitting lengths.
fn fits_encode(n: usize, k: usize, word: usize, scratch: usize) -> bool
    ensures { IsTrue result ↔ FitsEncode n k word scratch }
{
    word == n && n <= scratch && k <= scratch - n
}

// Writes the word of a message.
fn encoded<R: Reducer<u64>>(
    r: &R,
    points: &[u64],
    message: &[u64],
    word: &mut [u64],
    scratch: &mut [u64],
)
    requires { FitsEncode (length points.now) (length message.now) (length word.old) (length scratch.old) }
    ensures { let m = R.modulus r.now in
        IsEncoding m (length message.now) (length points.now) (slice_index (residues_of m points.now))
        (slice_index (residues_of m message.now)) (slice_index word.new) }
{
    let (xs, rest) = scratch.split_at_mut(points.len());
    let coefficients = &mut rest[..message.len()];
    load_from(r, points, xs);
    load_from(r, message, coefficients);
    evaluate_each(r, coefficients, xs, word);
    unload(r, word);
}

/// Writes the word of a message of k symbols: symbol i is the value at point i, modulo m, of the polynomial with the
/// message's symbols as coefficients, the constant first. The contents of `scratch` are unspecified afterwards.
/// `NM_BAD_ARGUMENT`: `word` isn't as long as `points`, or `scratch` is shorter than n + k, with n points.
/// `NM_BAD_CONTEXT`: the context isn't one that `nm_montgomery` makes.
#[unsafe(no_mangle)]
pub extern "C" fn nm_erasure_encode(
    context: &NmMontgomery,
    points: &[u64],
    message: &[u64],
    word: &mut [u64],
    scratch: &mut [u64],
) -> u32
    ensures did { let m = context.now.modulus in IsMontgomery context.now →
        FitsEncode (length points.now) (length message.now) (length word.old) (length scratch.old) →
        Did result (IsEncoding m (length message.now) (length points.now) (slice_index (residues_of m points.now))
        (slice_index (residues_of m message.now)) (slice_index word.new)) }
    ensures bad_argument { IsMontgomery context.now →
        (FitsEncode (length points.now) (length message.now) (length word.old) (length scratch.old) → ⊥) →
        Refused NM_BAD_ARGUMENT result word.old word.new }
    ensures bad_context { (IsMontgomery context.now → ⊥) → Refused NM_BAD_CONTEXT result word.old word.new }
{
    let Some(ring) = reducer(context) else {
        return NM_BAD_CONTEXT;
    };
    if !fits_encode(points.len(), message.len(), word.len(), scratch.len()) {
        return NM_BAD_ARGUMENT;
    }
    encoded(&ring, points, message, word, scratch);
    NM_OK
}

// Whether the lists of `nm_erasure_share` have fitting lengths.
fn fits_share(n: usize, k: usize, shares: usize, scratch: usize) -> bool
    ensures { IsTrue result ↔ FitsShare n k shares scratch }
{
    1 <= k && k <= n && fits_encode(n, k, shares, scratch)
}

// Writes the shares of a secret.
fn shared<R: Reducer<u64>>(
    r: &R,
    points: &[u64],
    coefficients: &[u64],
    shares: &mut [u64],
    scratch: &mut [u64],
) -> u32
    requires { FitsShare (length points.now) (length coefficients.now) (length shares.old) (length scratch.old) }
    ensures did { let m = R.modulus r.now in let x = slice_index (residues_of m points.now) in
        ((i : ℕ) → i < length points.now → HasInverse m (x i)) → HaveUnitDifferences m (length points.now) x →
        Did result (IsEncoding m (length coefficients.now) (length points.now) x
        (slice_index (residues_of m coefficients.now)) (slice_index shares.new)) }
    ensures failure { let m = R.modulus r.now in let x = slice_index (residues_of m points.now) in
        (((i : ℕ) → i < length points.now → HasInverse m (x i)) × HaveUnitDifferences m (length points.now) x → ⊥) →
        IsShareFailure m (length coefficients.now) (length points.now) x result shares.old shares.new }
{
    let (xs, rest) = scratch.split_at_mut(points.len());
    let (forms, _) = rest.split_at_mut(coefficients.len());
    load_from(r, points, xs);
    load_from(r, coefficients, forms);
    match share(r, xs, forms, shares) {
        Ok(()) => {
            unload(r, shares);
            NM_OK
        }
        Err(error) => share_code(error),
    }
}

// The code of an error of `share`.
fn share_code(error: ShareError) -> u32
    ensures code { result ≡ share_code_of error }
    ensures not_ok { 1 ≤ result }
{
    match error {
        ShareError::NoCoefficients => NM_BAD_ARGUMENT,
        ShareError::TooFewPoints => NM_BAD_ARGUMENT,
        ShareError::PointWithoutInverse => NM_POINT_WITHOUT_INVERSE,
        ShareError::PointsDontFit => NM_POINTS_DONT_FIT,
    }
}

// The code of an error of `restore`.
fn restore_code(error: RestoreError) -> u32
    ensures code { result ≡ code_of error }
    ensures not_ok { 1 ≤ result }
{
    match error {
        RestoreError::TooFewSymbols => NM_TOO_FEW_SYMBOLS,
        RestoreError::PlaceOutOfRange => NM_PLACE_OUT_OF_RANGE,
        RestoreError::PlaceTwice => NM_PLACE_TWICE,
        RestoreError::PointsDontFit => NM_POINTS_DONT_FIT,
    }
}

/// Writes the shares of a secret, by Shamir's scheme: the word of a message whose first symbol is the secret, and whose
/// others the caller draws at random, each from 0 to m - 1. Any k of the n shares recover it. The codes are those of
/// `nm_erasure_encode`, `NM_BAD_ARGUMENT` also where k is 0 or above n, and `NM_POINT_WITHOUT_INVERSE`: a point has no
/// inverse modulo m; `NM_POINTS_DONT_FIT`: the difference of two points has none.
#[unsafe(no_mangle)]
pub extern "C" fn nm_erasure_share(
    context: &NmMontgomery,
    points: &[u64],
    coefficients: &[u64],
    shares: &mut [u64],
    scratch: &mut [u64],
) -> u32
    ensures did { let m = context.now.modulus in let n = length points.now in let k = length coefficients.now in
        let x = slice_index (residues_of m points.now) in
        IsMontgomery context.now → FitsShare n k (length shares.old) (length scratch.old) →
        ((i : ℕ) → i < n → HasInverse m (x i)) → HaveUnitDifferences m n x →
        Did result (IsEncoding m k n x (slice_index (residues_of m coefficients.now)) (slice_index shares.new)) }
    ensures failure { let m = context.now.modulus in let n = length points.now in let k = length coefficients.now in
        let x = slice_index (residues_of m points.now) in
        IsMontgomery context.now → FitsShare n k (length shares.old) (length scratch.old) →
        (((i : ℕ) → i < n → HasInverse m (x i)) × HaveUnitDifferences m n x → ⊥) →
        IsShareFailure m k n x result shares.old shares.new }
    ensures bad_argument { IsMontgomery context.now →
        (FitsShare (length points.now) (length coefficients.now) (length shares.old) (length scratch.old) → ⊥) →
        Refused NM_BAD_ARGUMENT result shares.old shares.new }
    ensures bad_context { (IsMontgomery context.now → ⊥) → Refused NM_BAD_CONTEXT result shares.old shares.new }
{
    let Some(ring) = reducer(context) else {
        return NM_BAD_CONTEXT;
    };
    if !fits_share(
        points.len(),
        coefficients.len(),
        shares.len(),
        scratch.len(),
    ) {
        return NM_BAD_ARGUMENT;
    }
    shared(&ring, points, coefficients, shares, scratch)
}

// Whether the lists of `nm_erasure_restore` have fitting lengths.
fn fits_restore(n: usize, s: usize, k: usize, symbols: usize, scratch: usize) -> bool
    ensures { IsTrue result ↔ FitsRestore n s k symbols scratch }
{
    symbols == s && n <= scratch && s <= scratch - n && k <= (scratch - n - s) / 3
}

// Restores a message.
fn restored<R: Reducer<u64>>(
    r: &R,
    points: &[u64],
    places: &[usize],
    symbols: &[u64],
    message: &mut [u64],
    scratch: &mut [u64],
) -> u32
    requires { FitsRestore (length points.now) (length places.now) (length message.old) (length symbols.now)
        (length scratch.old) }
    ensures did { let m = R.modulus r.now in let n = length points.now in let k = length message.old in
        let x = slice_index (residues_of m points.now) in ArePlaced m k n x places.now →
        Did result (IsRestored m k n x places.now (slice_index (residues_of m symbols.now)) (slice_index message.new)) }
    ensures failure { let m = R.modulus r.now in let n = length points.now in let k = length message.old in
        let x = slice_index (residues_of m points.now) in (ArePlaced m k n x places.now → ⊥) →
        IsRestoreFailure m k n x places.now result message.old message.new }
{
    let k = message.len();
    let (xs, rest) = scratch.split_at_mut(points.len());
    let (ys, rest) = rest.split_at_mut(places.len());
    let (chosen, rest) = rest.split_at_mut(k);
    let (weights, rest) = rest.split_at_mut(k);
    let (forms, _) = rest.split_at_mut(k);
    load_from(r, points, xs);
    load_from(r, symbols, ys);
    match restore(r, xs, places, ys, chosen, weights, forms) {
        Ok(()) => {
            unload_from(r, forms, message);
            NM_OK
        }
        Err(error) => restore_code(error),
    }
}

/// Writes the message of k symbols, k being the length of `message`, by the first k places and the symbols there,
/// whichever places these are. The contents of `scratch` are unspecified afterwards. `NM_BAD_ARGUMENT`: there isn't a
/// symbol for each place, or `scratch` is shorter than n + s + 3·k, with n points and s places. `NM_BAD_CONTEXT`: as for
/// `nm_erasure_encode`. `NM_TOO_FEW_SYMBOLS`: s is below k. `NM_PLACE_OUT_OF_RANGE`, `NM_PLACE_TWICE`: of these places,
/// in order, the first that isn't below n, or occurs before. `NM_POINTS_DONT_FIT`: the difference of two points at them
/// has no inverse. Of several faults the first in this order counts, a context's and an argument's before all.
#[unsafe(no_mangle)]
pub extern "C" fn nm_erasure_restore(
    context: &NmMontgomery,
    points: &[u64],
    places: &[usize],
    symbols: &[u64],
    message: &mut [u64],
    scratch: &mut [u64],
) -> u32
    ensures did { let m = context.now.modulus in let n = length points.now in let k = length message.old in
        let x = slice_index (residues_of m points.now) in IsMontgomery context.now →
        FitsRestore n (length places.now) k (length symbols.now) (length scratch.old) → ArePlaced m k n x places.now →
        Did result (IsRestored m k n x places.now (slice_index (residues_of m symbols.now)) (slice_index message.new)) }
    ensures failure { let m = context.now.modulus in let n = length points.now in let k = length message.old in
        let x = slice_index (residues_of m points.now) in IsMontgomery context.now →
        FitsRestore n (length places.now) k (length symbols.now) (length scratch.old) →
        (ArePlaced m k n x places.now → ⊥) →
        IsRestoreFailure m k n x places.now result message.old message.new }
    ensures bad_argument { IsMontgomery context.now →
        (FitsRestore (length points.now) (length places.now) (length message.old) (length symbols.now)
        (length scratch.old) → ⊥) → Refused NM_BAD_ARGUMENT result message.old message.new }
    ensures bad_context { (IsMontgomery context.now → ⊥) → Refused NM_BAD_CONTEXT result message.old message.new }
{
    let Some(ring) = reducer(context) else {
        return NM_BAD_CONTEXT;
    };
    let (n, s, k) = (points.len(), places.len(), message.len());
    if !fits_restore(n, s, k, symbols.len(), scratch.len()) {
        return NM_BAD_ARGUMENT;
    }
    restored(&ring, points, places, symbols, message, scratch)
}

// Whether the lists of `nm_erasure_correct` have fitting lengths.
fn fits_correct(n: usize, s: usize, k: usize, symbols: usize, word: usize, scratch: usize) -> bool
    ensures { IsTrue result ↔ FitsCorrect n s k symbols word scratch }
{
    if symbols != s || k == 0 || word != n || n >= scratch / 2 {
        return false;
    }
    let pairs = (scratch / 2 - n - 1) / 2;
    s <= pairs && k <= pairs - s
}

// The code of an error of `correct`; writes the number of an error that has one.
pub(crate) fn correct_code(error: CorrectError<u64>, number: &mut u64) -> u32
    ensures code { result ≡ correct_code_of error }
    ensures number { number.new ≡ number_after error number.old }
    ensures not_ok { 1 ≤ result }
{
    match error {
        CorrectError::Restore(error) => restore_code(error),
        CorrectError::TooManyErrors => NM_TOO_MANY_ERRORS,
        CorrectError::NoInverse(a) => {
            *number = a;
            NM_NO_INVERSE
        }
    }
}

// Corrects the symbols of a word.
fn corrected<R: Reducer<u64>>(
    r: &R,
    points: &[u64],
    places: &[usize],
    symbols: &[u64],
    message: &mut [u64],
    word: &mut [u64],
    scratch: &mut [u64],
    errors: &mut usize,
    number: &mut u64,
) -> u32
    requires { FitsCorrect (length points.now) (length places.now) (length message.old) (length symbols.now)
        (length word.old) (length scratch.old) }
    ensures ok { let m = R.modulus r.now in let n = length points.now in let k = length message.old in
        let x = slice_index (residues_of m points.now) in let y = slice_index (residues_of m symbols.now) in
        result ≡ NM_OK → AreFit m k n x places.now × (number.new ≡ number.old)
        × IsCorrected m k n x places.now y (slice_index message.new) (slice_index word.new) errors.new }
    ensures failure { let m = R.modulus r.now in let n = length points.now in let k = length message.old in
        let x = slice_index (residues_of m points.now) in let y = slice_index (residues_of m symbols.now) in
        result ≢ NM_OK → IsCorrectFailure m k n x places.now y result number.old number.new
        × (message.new ≡ message.old) × (word.new ≡ word.old) × (errors.new ≡ errors.old) }
{
    let (xs, rest) = scratch.split_at_mut(points.len());
    let (ys, rest) = rest.split_at_mut(places.len());
    let (forms, rest) = rest.split_at_mut(message.len());
    let (word_forms, rest) = rest.split_at_mut(points.len());
    load_from(r, points, xs);
    load_from(r, symbols, ys);
    match correct(r, xs, places, ys, rest, forms, word_forms) {
        Ok(count) => {
            unload_from(r, forms, message);
            unload_from(r, word_forms, word);
            *errors = count;
            NM_OK
        }
        Err(error) => correct_code(error, number),
    }
}

/// Corrects symbols that may be wrong: writes the only message of k symbols whose word differs in e of the s symbols
/// at the places, where 2·e is at most s - k, and that word, and e to `errors`. The contents of `scratch` are
/// unspecified afterwards.
///
/// `NM_BAD_ARGUMENT`: there isn't a symbol for each place, k is 0, `word` isn't as long as `points`, or `scratch` is
/// shorter than 2·n + 4·s + 4·k + 2, with n points. `NM_TOO_MANY_ERRORS`: no word is that near. `NM_NO_INVERSE`: a
/// number above 0 without an inverse was met, which is written to `number`; it never comes where m is a prime, or where
/// no symbol is wrong. The other codes are those of `nm_erasure_restore`, for all s places.
#[unsafe(no_mangle)]
pub extern "C" fn nm_erasure_correct(
    context: &NmMontgomery,
    points: &[u64],
    places: &[usize],
    symbols: &[u64],
    message: &mut [u64],
    word: &mut [u64],
    scratch: &mut [u64],
    errors: &mut usize,
    number: &mut u64,
) -> u32
    ensures ok { let m = context.now.modulus in let n = length points.now in let k = length message.old in
        let x = slice_index (residues_of m points.now) in let y = slice_index (residues_of m symbols.now) in
        result ≡ NM_OK → IsMontgomery context.now × AreFit m k n x places.now × (number.new ≡ number.old)
        × IsCorrected m k n x places.now y (slice_index message.new) (slice_index word.new) errors.new }
    ensures failure { let m = context.now.modulus in let n = length points.now in let k = length message.old in
        let x = slice_index (residues_of m points.now) in let y = slice_index (residues_of m symbols.now) in
        IsMontgomery context.now →
        FitsCorrect n (length places.now) k (length symbols.now) (length word.old) (length scratch.old) →
        result ≢ NM_OK → IsCorrectFailure m k n x places.now y result number.old number.new
        × (message.new ≡ message.old) × (word.new ≡ word.old) × (errors.new ≡ errors.old) }
    ensures bad_argument { IsMontgomery context.now →
        (FitsCorrect (length points.now) (length places.now) (length message.old) (length symbols.now)
        (length word.old) (length scratch.old) → ⊥) →
        BothRefused NM_BAD_ARGUMENT result message.old message.new word.old word.new
        × (errors.new ≡ errors.old) × (number.new ≡ number.old) }
    ensures bad_context { (IsMontgomery context.now → ⊥) →
        BothRefused NM_BAD_CONTEXT result message.old message.new word.old word.new
        × (errors.new ≡ errors.old) × (number.new ≡ number.old) }
{
    let Some(ring) = reducer(context) else {
        return NM_BAD_CONTEXT;
    };
    let (n, s, k) = (points.len(), places.len(), message.len());
    if !fits_correct(n, s, k, symbols.len(), word.len(), scratch.len()) {
        return NM_BAD_ARGUMENT;
    }
    corrected(
        &ring, points, places, symbols, message, word, scratch, errors, number,
    )
}
