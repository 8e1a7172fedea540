//! Places of lost symbols.

ghost use Rattle.std.specs.Prelude.{◌≡◌, ℕ, ◌+◌, ◌<◌, ◌≤◌, ◌↔◌, IsTrue, MatchResult, length, slice_index};
ghost use Rattle.num_modular.specs.Entries.{entry};
ghost use Rattle.num_modular.specs.Checked.{AreChecked};
ghost use Rattle.ring_decoder.specs.Corrector.{AreLost, AreLostAtFault, without};

use num_modular::{Reducer, RingWord};
use ring_codes::erasure::RestoreError;

// Whether a place is among the first `count` places.
fn occurs(places: &[usize], count: usize, place: usize) -> bool
    requires { count ≤ length places.now }
    ensures { IsTrue result ↔ ((j : ℕ) × (j < count) × (slice_index places.now j ≡ place)) }
{
    'places: for j in 0..count {
        if places[j] == place {
            return true;
        }
    }
    false
}

// Whether the lost places are right: what is wrong first, otherwise.
pub fn check_lost(k: usize, n: usize, lost: &[usize]) -> Result<(), RestoreError>
    ensures { (m : ℕ) (x : ℕ → ℕ) → MatchResult result (λ _. AreLost k n lost.now)
        (λ e. AreLostAtFault m k n x lost.now e) }
{
    if k > n || lost.len() > n - k {
        return Err(RestoreError::TooFewSymbols);
    }
    'places: for i in 0..lost.len() {
        let place = lost[i];
        if place >= n {
            return Err(RestoreError::PlaceOutOfRange);
        }
        if occurs(lost, i, place) {
            return Err(RestoreError::PlaceTwice);
        }
    }
    Ok(())
}

// Copies the points at the lost places.
#[tactic(auto, using(num_modular::specs::Callers::entry_read, num_modular::specs::Callers::form_read, num_modular::specs::Callers::held_entry, num_modular::specs::Callers::held_forms, num_modular::specs::Callers::hold_more))]
pub fn copy_points<T: RingWord, R: Reducer<T>>(
    _r: &R,
    points: &[T],
    lost: &[usize],
    located: &mut [T],
)
    requires points { AreChecked R.Reducer T.number _r.now points.now }
    requires room { length located.old ≡ length lost.now }
    requires within { (i : ℕ) → i < length lost.now → slice_index lost.now i < length points.now }
    ensures checked { AreChecked R.Reducer T.number _r.now located.new }
    ensures same { let m = R.modulus _r.now in (i : ℕ) → i < length lost.now →
        entry T.number R.value m located.new i ≡ entry T.number R.value m points.now (slice_index lost.now i) }
{
    'places: for i in 0..lost.len() {
        located[i] = points[lost[i]];
    }
}

// Writes 0 at the lost places.
pub fn clear_lost<T: RingWord, R: Reducer<T>>(r: &R, lost: &[usize], values: &mut [T])
    requires values { AreChecked R.Reducer T.number r.now values.old }
    requires within { (i : ℕ) → i < length lost.now → slice_index lost.now i < length values.old }
    ensures checked { AreChecked R.Reducer T.number r.now values.new }
    ensures cleared { let m = R.modulus r.now in (i : ℕ) → entry T.number R.value m values.new i
        ≡ without lost.now (entry T.number R.value m values.old) i }
{
    let zero = r.transform(T::zero());
    'places: for i in 0..lost.len() {
        values[lost[i]] = zero;
    }
}
