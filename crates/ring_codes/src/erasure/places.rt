//! Places of symbols, and the points there.

ghost use Rattle.std.specs.Prelude.{◌≡◌, ◌≢◌, ℕ, ◌<◌, ◌≤◌, IsOk, IfErr, MatchOption};
ghost use Rattle.std.specs.Prelude.{length, slice_index, slice_index_or};
ghost use Rattle.ring_codes.specs.Erasure.{ArePlaces, IsFault};

use super::RestoreError;
use num_modular::RingWord;

/// An index below `count` of a place in the list; `None` exactly where there is none.
///
/// # Preconditions
///
/// - the list has at least that many entries
pub fn index_of(places: &[usize], count: usize, place: usize) -> Option<usize>
    requires { count ≤ length places.now }
    ensures { MatchOption result ((j : ℕ) → j < count → slice_index places.now j ≢ place)
        (λ j. (j < count) × (slice_index places.now j ≡ place)) }
{
    'indices: for j in 0..count {
        if places[j] == place {
            return Some(j);
        }
    }
    None
}

/// Copies the points at places: at the first ones, as many as `chosen` holds.
///
/// The contents of `chosen` are ignored, and unspecified after an error.
///
/// # Errors
///
/// The first cause: too few places; then the first place that has no point or occurs before.
///
/// # Examples
///
/// ```
/// use num_modular::applications::ring_codes::erasure::{choose_points, RestoreError};
///
/// let mut chosen = [0u8; 2];
/// assert_eq!(choose_points(&[5, 6, 7], &[2, 0], &mut chosen), Ok(()));
/// assert_eq!(chosen, [7, 5]);
/// assert_eq!(choose_points(&[5, 6, 7], &[2, 2], &mut chosen), Err(RestoreError::PlaceTwice));
/// ```
#[tactic(auto, using(crate::proofs::Sets::places_so_far))]
pub fn choose_points<T: RingWord>(
    points: &[T],
    places: &[usize],
    chosen: &mut [T],
) -> Result<(), RestoreError>
    ensures places { IsOk result → ArePlaces (length chosen.old) (length points.now) places.now }
    ensures chosen { IsOk result → (i : ℕ) (d : T) → i < length chosen.old →
        slice_index_or chosen.new i d ≡ slice_index_or points.now (slice_index places.now i) d }
    ensures fault { (m : ℕ) (x : ℕ → ℕ) →
        IfErr result (λ e. IsFault m (length chosen.old) (length points.now) x places.now e) }
{
    if places.len() < chosen.len() {
        return Err(RestoreError::TooFewSymbols);
    }
    'places: for i in 0..chosen.len() {
        let place = places[i];
        if place >= points.len() {
            return Err(RestoreError::PlaceOutOfRange);
        }
        if index_of(places, i, place).is_some() {
            return Err(RestoreError::PlaceTwice);
        }
        chosen[i] = points[place];
    }
    Ok(())
}
