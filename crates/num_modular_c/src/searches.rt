//! Searches for several patterns of one length at every position of a text.

ghost use Rattle.std.specs.Prelude.{◌≡◌, ℕ, ◌+◌, ◌*◌, ◌%◌, ◌^◌, ◌<◌, ◌≤◌, length, slice_index, slice_range};
ghost use Rattle.mersenne_hash.specs.Collisions.{hash_of};
ghost use Rattle.mersenne_hash.specs.Patterns.{pattern_of, IsFirstPattern};
ghost use Rattle.num_modular.specs.Integers.{residue_of};
ghost use Rattle.num_modular.specs.Mersenne.{mersenne};
ghost use Rattle.num_modular_c.specs.Codes.{Did, BothRefused};

use crate::codes::{NM_BAD_ARGUMENT, NM_OK};
use mersenne_hash::prefixes::are_pattern_lengths;
use num_modular::ModularInteger;
use num_modular::hashes::{Hash, base, hash, roll};

// Writes the hash of each pattern.
fn write_hashes(base: Hash, patterns: &[u8], size: usize, hashes: &mut [u64])
    requires { length patterns.now ≡ length hashes.old * size }
    ensures { (k : ℕ) → k < length hashes.old → slice_index hashes.new k
        ≡ hash_of (pattern_of patterns.now size k) (residue_of base) }
{
    'patterns: for k in 0..hashes.len() {
        let start = k * size;
        hashes[k] = hash(base, &patterns[start..start + size]).residue();
    }
}

// The number of the first pattern that occurs in the text at a position, by the hash of the window there; the count of
// the patterns where none does. The bytes are compared only where the hashes are equal.
fn first_pattern(
    text: &[u8],
    at: usize,
    window: u64,
    patterns: &[u8],
    size: usize,
    hashes: &[u64],
) -> usize
    requires whole { length patterns.now ≡ length hashes.now * size }
    requires alike { (k : ℕ) → at + size ≤ length text.now → k < length hashes.now
        → slice_range text.now at (at + size) ≡ pattern_of patterns.now size k → slice_index hashes.now k ≡ window }
    ensures { IsFirstPattern text.now patterns.now size (length hashes.now) at result }
{
    let count = hashes.len();
    if at > text.len() || text.len() - at < size {
        return count;
    }
    'patterns: for k in 0..count {
        let start = k * size;
        if hashes[k] == window && text[at..at + size] == patterns[start..start + size] {
            return k;
        }
    }
    count
}

// The hash of the first window; unspecified where the text is shorter than a window.
fn first_window(base: Hash, text: &[u8], size: usize) -> Hash
    ensures { size ≤ length text.now → residue_of result ≡ hash_of (slice_range text.now 0 size) (residue_of base) }
{
    if size <= text.len() {
        hash(base, &text[0..size])
    } else {
        base
    }
}

// The hash of the window at the next position, from that at this one; unspecified where the text has no next window.
fn next_window(base: Hash, power: Hash, window: Hash, text: &[u8], at: usize, size: usize) -> Hash
    requires power { residue_of power ≡ residue_of base ^ size % mersenne 61 1 }
    requires window { at + size ≤ length text.now → residue_of window
        ≡ hash_of (slice_range text.now at (at + size)) (residue_of base) }
    ensures { at + 1 + size ≤ length text.now → residue_of result
        ≡ hash_of (slice_range text.now (at + 1) (at + 1 + size)) (residue_of base) }
{
    if at < text.len() && size < text.len() - at {
        roll(base, power, window, text[at], text[at + size])
    } else {
        window
    }
}

// Writes for each position the number of the first pattern that occurs there, or the count of the patterns where none
// does.
fn find_patterns(
    base: Hash,
    text: &[u8],
    patterns: &[u8],
    size: usize,
    hashes: &[u64],
    found: &mut [usize],
)
    requires whole { length patterns.now ≡ length hashes.now * size }
    requires hashed { (k : ℕ) → k < length hashes.now → slice_index hashes.now k
        ≡ hash_of (pattern_of patterns.now size k) (residue_of base) }
    ensures { (i : ℕ) → i < length found.old →
        IsFirstPattern text.now patterns.now size (length hashes.now) i (slice_index found.new i) }
{
    let power = base.pow(&(size as u64));
    let mut window = first_window(base, text, size);
    'places: for at in 0..found.len() {
        found[at] = first_pattern(text, at, window.residue(), patterns, size, hashes);
        window = next_window(base, power, window, text, at, size);
    }
}

/// Writes for each position of `found`, from 0 on, the number of the first pattern that occurs in the text there, or the
/// count of the patterns where none does. The patterns have `size` bytes each and stand one after the other, as many as
/// `hashes` has words, whose contents are unspecified afterwards. The result is right for every x; each position compares
/// its hash with up to all others, and bytes where two are equal. `NM_BAD_ARGUMENT`: the length of `patterns` isn't their
/// count times their size.
///
/// Source: Karp and Rabin, "Efficient randomized pattern-matching algorithms", section 4.
#[unsafe(no_mangle)]
pub extern "C" fn nm_find_all(
    x: u64,
    text: &[u8],
    patterns: &[u8],
    size: usize,
    hashes: &mut [u64],
    found: &mut [usize],
) -> u32
    ensures did { length patterns.now ≡ length hashes.old * size → Did result ((i : ℕ) → i < length found.old →
        IsFirstPattern text.now patterns.now size (length hashes.old) i (slice_index found.new i)) }
    ensures bad_argument { (length patterns.now ≡ length hashes.old * size → ⊥)
        → BothRefused NM_BAD_ARGUMENT result hashes.old hashes.new found.old found.new }
{
    if !are_pattern_lengths(patterns.len(), hashes.len(), size) {
        return NM_BAD_ARGUMENT;
    }
    let base = base(x);
    write_hashes(base, patterns, size, hashes);
    find_patterns(base, text, patterns, size, hashes, found);
    NM_OK
}
