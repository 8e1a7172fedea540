//! A table of checks: it gives each syndrome of a word by one dot product.

ghost use Rattle.std.specs.Prelude.{◌≡◌, ◌≢◌, ℕ, ◌+◌, ◌*◌, ◌/◌, ◌%◌, ◌^◌, ◌<◌, ◌≤◌, length};
ghost use Rattle.num_modular.specs.Entries.{entry, HoldBelow};
ghost use Rattle.num_modular.specs.Checked.{AreChecked, IsChecked};
ghost use Rattle.ring_decoder.specs.PowerSums.{ArePowerSums};
ghost use Rattle.ring_decoder.specs.Syndromes.{AreChecks};

use super::syndromes::sum_from;
use num_modular::{Reducer, RingWord};

// The check in row h and column i, at the next place of the table, given those before it.
#[tactic(auto, using(num_modular::specs::Callers::form_read))]
fn next_check<T: RingWord, R: Reducer<T>>(
    r: &R,
    points: &[T],
    weights: &[T],
    checks: &[T],
    next: usize,
    h: usize,
    i: usize,
) -> T
    requires points { AreChecked R.Reducer T.number r.now points.now }
    requires weights { AreChecked R.Reducer T.number r.now weights.now }
    requires each_weight { length weights.now ≡ length points.now }
    requires column { i < length points.now }
    requires at { next ≡ h * length points.now + i }
    requires above { h ≢ 0 → length points.now ≤ next }
    requires within { next < length checks.now }
    requires before { let m = R.modulus r.now in let n = length points.now in
        let x = entry T.number R.value m points.now in let v = entry T.number R.value m weights.now in
        HoldBelow T.number R.form R.value m checks.now (λ e. (v (e % n) * x (e % n) ^ (e / n)) % m) next }
    ensures checked { IsChecked R.Reducer T.number r.now result }
    ensures value { let m = R.modulus r.now in R.value m (T.number result)
        ≡ (entry T.number R.value m weights.now i * entry T.number R.value m points.now i ^ h) % m }
{
    if h == 0 {
        weights[i]
    } else {
        r.mul(&checks[next - points.len()], &points[i])
    }
}

/// Fills a table of checks: a row for each syndrome, with a check for each point.
///
/// Row h, from 0 on, has each weight times the power h of its point. So a syndrome is the dot product of its row and the
/// word. It takes a product for each check but those of the first row.
///
/// Source: the parity-check matrix of the code: MacWilliams and Sloane, The Theory of Error-Correcting Codes, chapter 10.
///
/// # Preconditions
///
/// - there is a weight for each point, and a check for each point and row
/// - points and weights are checked forms
#[tactic(auto, using(crate::proofs::CheckTables::place_above, num_modular::specs::Callers::held_forms, ring_codes::proofs::Lagrange::row_index_below_size))]
pub fn fill_checks<T: RingWord, R: Reducer<T>>(
    r: &R,
    points: &[T],
    weights: &[T],
    rows: usize,
    checks: &mut [T],
)
    requires points { AreChecked R.Reducer T.number r.now points.now }
    requires weights { AreChecked R.Reducer T.number r.now weights.now }
    requires each_weight { length weights.now ≡ length points.now }
    requires room { length checks.old ≡ rows * length points.now }
    ensures checked { AreChecked R.Reducer T.number r.now checks.new }
    ensures table { let m = R.modulus r.now in AreChecks m rows (length points.now)
        (entry T.number R.value m points.now) (entry T.number R.value m weights.now) (entry T.number R.value m checks.new) }
{
    let mut next = 0;
    'rows: for h in 0..rows {
        'points: for i in 0..points.len() {
            checks[next] = next_check(r, points, weights, checks, next, h, i);
            next += 1;
        }
    }
}

/// Writes the syndromes of a word: the sum of the symbols, each times its check, for each row of the table.
///
/// They are those that `fill_syndromes` writes. It takes a product for each point and each syndrome, and a reducer may
/// reduce once for many of them.
///
/// # Preconditions
///
/// - there is a check for each symbol and syndrome
/// - symbols and checks are checked forms
#[tactic(auto, using(num_modular::specs::Callers::held_forms))]
pub fn fill_checked_syndromes<T: RingWord, R: Reducer<T>>(
    r: &R,
    checks: &[T],
    word: &[T],
    syndromes: &mut [T],
)
    requires checks { AreChecked R.Reducer T.number r.now checks.now }
    requires word { AreChecked R.Reducer T.number r.now word.now }
    requires room { length checks.now ≡ length syndromes.old * length word.now }
    ensures checked { AreChecked R.Reducer T.number r.now syndromes.new }
    ensures sums { let m = R.modulus r.now in (x v : ℕ → ℕ) →
        AreChecks m (length syndromes.old) (length word.now) x v (entry T.number R.value m checks.now) →
        ArePowerSums m (length syndromes.old) (length word.now) x
        (λ i. v i * entry T.number R.value m word.now i) (entry T.number R.value m syndromes.new) }
{
    'syndromes: for h in 0..syndromes.len() {
        syndromes[h] = sum_from(r, word, checks, h * word.len());
    }
}
