//! Codes that are prepared to correct many words. The calls don't test their lists, which C mustn't have changed.

ghost use Rattle.std.specs.Prelude.{◌≡◌, ◌≢◌, ℕ, ◌+◌, ◌-◌, ◌*◌, ◌<◌, ◌≤◌, ◌↔◌, IsTrue, length, map, slice_index};
ghost use Rattle.num_modular.specs.Polynomials.{HaveUnitDifferences};
ghost use Rattle.num_modular_c.specs.Codes.{Did, Refused};
ghost use Rattle.num_modular_c.specs.Commands.{residues_of};
ghost use Rattle.num_modular_c.specs.Contexts.{IsMontgomery};
ghost use Rattle.num_modular_c.specs.Correctors.{points_of, FitsCorrector, FitsMake, IsCorrectedModulo, IsCorrector};
ghost use Rattle.num_modular_c.specs.Correctors.{IsCorrectorFailure, IsMadeCorrector};
ghost use Rattle.ring_decoder.specs.Corrector.{AreCorrectorLists};

use crate::codes::{NM_BAD_ARGUMENT, NM_BAD_CONTEXT, NM_OK, NM_POINTS_DONT_FIT};
use crate::erasure::correct_code;
use crate::lists::{load_from, unload_from};
use crate::montgomery::{NmMontgomery, reducer};
use num_modular::Reducer;
use ring_decoder::corrector::Corrector;

/// A code that is prepared to correct many words: k, and forms in lists that the caller owns.
#[repr(C)]
#[derive(Clone, Copy)]
// rust: #[must_use]
pub struct NmCorrector<'a> {
    /// The context of the modulus.
    pub context: NmMontgomery,
    /// How many symbols a message has.
    pub k: usize,
    /// The form of each point.
    pub points: &'a [u64],
    /// The form of the weight of each point.
    pub weights: &'a [u64],
    /// Empty, or the table of n·(n - k) checks.
    pub checks: &'a [u64],
}

// Whether the lists of `nm_corrector_make` have fitting lengths.
fn fits_make(n: usize, k: usize, forms: usize, checks: usize, scratch: usize) -> bool
    ensures { IsTrue result ↔ FitsMake n k forms checks scratch }
{
    if k > n || forms / 2 != n || forms % 2 != 0 || n > scratch {
        return false;
    }
    if checks == 0 {
        return true;
    }
    match (n - k).checked_mul(n) {
        Some(count) => checks == count,
        None => false,
    }
}

// Fills the lists of a corrector, and returns whether the points fit.
fn filled<R: Reducer<u64>>(
    r: &R,
    points: &[u64],
    k: usize,
    xs: &mut [u64],
    weights: &mut [u64],
    checks: &mut [u64],
    scratch: &mut [u64],
) -> bool
    requires few { k ≤ length points.now }
    requires forms { length xs.old ≡ length points.now }
    requires each_weight { length weights.old ≡ length points.now }
    requires checks { 0 < length checks.old → length checks.old ≡ (length points.now - k) * length points.now }
    requires scratch { length points.now ≤ length scratch.old }
    ensures fit { let m = R.modulus r.now in
        IsTrue result ↔ HaveUnitDifferences m (length points.now) (slice_index (residues_of m points.now)) }
    ensures points { let m = R.modulus r.now in map (λ f. R.value m f) xs.new ≡ residues_of m points.now }
    ensures lists { IsTrue result → AreCorrectorLists (λ f. f) R.form R.value (R.modulus r.now) k xs.new weights.new
        checks.new }
{
    load_from(r, points, xs);
    Corrector::fill_lists(r, xs, k, weights, checks, &mut scratch[..points.len()])
}

/// Prepares the code of messages of k symbols at n points: fills `forms`, which has 2·n places, and `checks`, which has
/// none or n·(n - k), and writes the corrector, which borrows both. With checks `nm_corrector_correct` takes less time.
/// The contents of `scratch` are unspecified afterwards.
///
/// `NM_BAD_ARGUMENT`: k is above n, `forms` or `checks` has another length, or `scratch` is shorter than n.
/// `NM_BAD_CONTEXT`: the context isn't one that `nm_montgomery` makes. `NM_POINTS_DONT_FIT`: the difference of two points
/// has no inverse; the contents of `forms` are then unspecified. No clause says that another failed call leaves the lists
/// unchanged, because the corrector borrows them.
#[unsafe(no_mangle)]
pub extern "C" fn nm_corrector_make<'a>(
    context: &NmMontgomery,
    points: &[u64],
    k: usize,
    forms: &'a mut [u64],
    checks: &'a mut [u64],
    scratch: &mut [u64],
    corrector: &mut NmCorrector<'a>,
) -> u32
    ensures did { let m = context.now.modulus in let n = length points.now in IsMontgomery context.now →
        FitsMake n k (length forms.old) (length checks.old) (length scratch.old) →
        HaveUnitDifferences m n (slice_index (residues_of m points.now)) →
        Did result (IsMadeCorrector context.now k points.now (length checks.old) corrector.new) }
    ensures points_dont_fit { let m = context.now.modulus in let n = length points.now in IsMontgomery context.now →
        FitsMake n k (length forms.old) (length checks.old) (length scratch.old) →
        (HaveUnitDifferences m n (slice_index (residues_of m points.now)) → ⊥) →
        Refused NM_POINTS_DONT_FIT result corrector.old corrector.new }
    ensures bad_argument { IsMontgomery context.now →
        (FitsMake (length points.now) k (length forms.old) (length checks.old) (length scratch.old) → ⊥) →
        Refused NM_BAD_ARGUMENT result corrector.old corrector.new }
    ensures bad_context { (IsMontgomery context.now → ⊥) → Refused NM_BAD_CONTEXT result corrector.old corrector.new }
{
    let Some(ring) = reducer(context) else {
        return NM_BAD_CONTEXT;
    };
    if !fits_make(points.len(), k, forms.len(), checks.len(), scratch.len()) {
        return NM_BAD_ARGUMENT;
    }
    let (xs, weights) = forms.split_at_mut(points.len());
    if !filled(&ring, points, k, xs, weights, checks, scratch) {
        return NM_POINTS_DONT_FIT;
    }
    *corrector = NmCorrector {
        context: *context,
        k,
        points: xs,
        weights,
        checks,
    };
    NM_OK
}

// Whether the lists of `nm_corrector_correct` have fitting lengths.
fn fits_corrector(n: usize, k: usize, word: usize, scratch: usize) -> bool
    requires { k ≤ n }
    ensures { IsTrue result ↔ FitsCorrector n k word scratch }
{
    if word != n || scratch < 3 || n > (scratch - 3) / 3 {
        return false;
    }
    n - k <= (scratch - 3 - 3 * n) / 7
}

// Corrects a word.
fn corrected<R: Reducer<u64>>(
    r: &R,
    corrector: &NmCorrector,
    lost: &[usize],
    word: &mut [u64],
    scratch: &mut [u64],
    errors: &mut usize,
    number: &mut u64,
) -> u32
    requires lists { AreCorrectorLists (λ f. f) R.form R.value (R.modulus r.now) corrector.now.k corrector.now.points.now
        corrector.now.weights.now corrector.now.checks.now }
    requires fits { FitsCorrector (length corrector.now.points.now) corrector.now.k (length word.old)
        (length scratch.old) }
    ensures ok { let m = R.modulus r.now in let points = map (λ f. R.value m f) corrector.now.points.now in
        result ≡ NM_OK → (number.new ≡ number.old)
        × IsCorrectedModulo m corrector.now.k points lost.now word.old word.new errors.new }
    ensures failure { let m = R.modulus r.now in let points = map (λ f. R.value m f) corrector.now.points.now in
        result ≢ NM_OK → IsCorrectorFailure m corrector.now.k points lost.now word.old result number.old number.new
        × (word.new ≡ word.old) × (errors.new ≡ errors.old) }
{
    let code = Corrector::over(
        r,
        corrector.points,
        corrector.k,
        corrector.weights,
        corrector.checks,
    );
    let (forms, rest) = scratch.split_at_mut(word.len());
    load_from(r, word, forms);
    match code.correct(forms, lost, rest) {
        Ok(count) => {
            unload_from(r, forms, word);
            *errors = count;
            NM_OK
        }
        Err(error) => correct_code(error, number),
    }
}

/// Corrects a word in place, wrong symbols and lost ones: with c lost symbols and e wrong ones besides, it becomes the only
/// one of the code that differs from it in so few symbols, if 2·e + c is at most n - k, and e is written to `errors`. The
/// symbols may be above m, and become residues. `lost` has the places of the lost symbols; what stands there is ignored.
/// The contents of `scratch` are unspecified afterwards. Condition: the corrector is one that `nm_corrector_make` wrote,
/// and neither k nor the lists have changed since then.
///
/// `NM_BAD_ARGUMENT`: the word hasn't n symbols, or `scratch` is shorter than 3·n + 7·(n - k) + 3. `NM_BAD_CONTEXT`: the
/// context isn't one that `nm_montgomery` makes. `NM_TOO_FEW_SYMBOLS`: fewer than k others are left.
/// `NM_PLACE_OUT_OF_RANGE`, `NM_PLACE_TWICE`: of the places, in order, the first that isn't below n, or occurs before.
/// `NM_TOO_MANY_ERRORS`: no word is that near. `NM_NO_INVERSE`: a number above 0 without an inverse was met, which is
/// written to `number`; it never comes where m is a prime, or where at most one symbol is wrong that isn't lost.
#[unsafe(no_mangle)]
pub extern "C" fn nm_corrector_correct(
    corrector: &NmCorrector,
    lost: &[usize],
    word: &mut [u64],
    scratch: &mut [u64],
    errors: &mut usize,
    number: &mut u64,
) -> u32
    requires { IsCorrector corrector.now }
    ensures ok { let code = corrector.now in result ≡ NM_OK → IsMontgomery code.context × (number.new ≡ number.old)
        × IsCorrectedModulo code.context.modulus code.k (points_of code) lost.now word.old word.new errors.new }
    ensures failure { let code = corrector.now in IsMontgomery code.context →
        FitsCorrector (length code.points.now) code.k (length word.old) (length scratch.old) → result ≢ NM_OK →
        IsCorrectorFailure code.context.modulus code.k (points_of code) lost.now word.old result number.old number.new
        × (word.new ≡ word.old) × (errors.new ≡ errors.old) }
    ensures bad_argument { let code = corrector.now in IsMontgomery code.context →
        (FitsCorrector (length code.points.now) code.k (length word.old) (length scratch.old) → ⊥) →
        Refused NM_BAD_ARGUMENT result word.old word.new × (errors.new ≡ errors.old) × (number.new ≡ number.old) }
    ensures bad_context { (IsMontgomery corrector.now.context → ⊥) →
        Refused NM_BAD_CONTEXT result word.old word.new × (errors.new ≡ errors.old) × (number.new ≡ number.old) }
{
    let Some(ring) = reducer(&corrector.context) else {
        return NM_BAD_CONTEXT;
    };
    if !fits_corrector(
        corrector.points.len(),
        corrector.k,
        word.len(),
        scratch.len(),
    ) {
        return NM_BAD_ARGUMENT;
    }
    corrected(&ring, corrector, lost, word, scratch, errors, number)
}
