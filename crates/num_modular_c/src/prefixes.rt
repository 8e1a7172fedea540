//! The hashes of the beginnings of a text, and from these that of any part.

ghost use Rattle.std.specs.Prelude.{◌≡◌, ℕ, ◌-◌, ◌%◌, ◌≤◌, ◌↔◌, IsTrue, List, length, slice_index, slice_range};
ghost use Rattle.mersenne_hash.specs.Collisions.{hash_of};
ghost use Rattle.num_modular.specs.Integers.{residue_of};
ghost use Rattle.num_modular.specs.Mersenne.{mersenne};
ghost use Rattle.num_modular_c.specs.Codes.{Did, Refused, BothRefused};
ghost use Rattle.num_modular_c.specs.Prefixes.{ArePrefixHashes, HavePrefixRoom, IsPartHash, IsPartOf};

use crate::codes::{NM_BAD_ARGUMENT, NM_OK};
use num_modular::ModularInteger;
use num_modular::hashes::{Hash, base};
use num_modular::laws::{range_laws, residue_laws};

// Whether both lists have one entry more than the text has bytes.
fn have_room(text: usize, hashes: usize, powers: usize) -> bool
    ensures { IsTrue result ↔ HavePrefixRoom text hashes powers }
{
    hashes > 0 && hashes - 1 == text && powers == hashes
}

// Fills the lists.
fn fill_prefixes(base: Hash, text: &[u8], hashes: &mut [u64], powers: &mut [u64])
    requires { HavePrefixRoom (length text.now) (length hashes.old) (length powers.old) }
    ensures { ArePrefixHashes (residue_of base) text.now hashes.new powers.new }
{
    range_laws();
    let mut value = base.convert(0);
    let mut power = base.convert(1);
    hashes[0] = 0;
    powers[0] = 1;
    'places: for i in 0..text.len() {
        value = value * base + text[i] as u64;
        let raised = power * base;
        let hash = value.residue();
        let word = raised.residue();
        hashes[i + 1] = hash;
        powers[i + 1] = word;
        power = raised;
    }
}

/// Writes the hashes at the base x of the beginnings of the text, as `nm_hash` gives them, and the powers of x modulo
/// 2^61 - 1: entry k is that of the first k bytes, and of x to the power k. `NM_BAD_ARGUMENT`: a list hasn't one entry
/// more than the text has bytes.
#[unsafe(no_mangle)]
pub extern "C" fn nm_prefix_hashes(
    x: u64,
    text: &[u8],
    hashes: &mut [u64],
    powers: &mut [u64],
) -> u32
    ensures did { HavePrefixRoom (length text.now) (length hashes.old) (length powers.old)
        → Did result (ArePrefixHashes (x % mersenne 61 1) text.now hashes.new powers.new) }
    ensures bad_argument { (HavePrefixRoom (length text.now) (length hashes.old) (length powers.old) → ⊥)
        → BothRefused NM_BAD_ARGUMENT result hashes.old hashes.new powers.old powers.new }
{
    if !have_room(text.len(), hashes.len(), powers.len()) {
        return NM_BAD_ARGUMENT;
    }
    fill_prefixes(base(x), text, hashes, powers);
    NM_OK
}

// Whether a part is within lists of these lengths.
fn is_part(hashes: usize, powers: usize, from: usize, to: usize) -> bool
    ensures { IsTrue result ↔ IsPartOf hashes powers from to }
{
    from <= to && to < hashes && to < powers
}

// A hash less the product of two numbers.
fn part_hash(whole: u64, start: u64, power: u64) -> u64
    ensures { IsPartHash whole start power result }
{
    residue_laws();
    let end = base(whole);
    let first = base(start);
    let raised = base(power);
    (end - first * raised).residue()
}

/// Writes the hash of the part of a text from `from` up to, and without, `to`, from what `nm_prefix_hashes` wrote of the
/// text: that of the longer beginning less the product of that of the shorter one and a power. `NM_BAD_ARGUMENT`: `from`
/// is above `to`, or `to` isn't below the length of a list. Of other lists the result is that difference, modulo 2^61 - 1.
#[unsafe(no_mangle)]
pub extern "C" fn nm_substring_hash(
    hashes: &[u64],
    powers: &[u64],
    from: usize,
    to: usize,
    hash: &mut u64,
) -> u32
    ensures did { IsPartOf (length hashes.now) (length powers.now) from to → Did result (IsPartHash
        (slice_index hashes.now to) (slice_index hashes.now from) (slice_index powers.now (to - from)) hash.new) }
    ensures part { (text : List ℕ) (x : ℕ) → ArePrefixHashes x text hashes.now powers.now → to ≤ length text
        → IsPartOf (length hashes.now) (length powers.now) from to → hash.new ≡ hash_of (slice_range text from to) x }
    ensures bad_argument { (IsPartOf (length hashes.now) (length powers.now) from to → ⊥)
        → Refused NM_BAD_ARGUMENT result hash.old hash.new }
{
    if !is_part(hashes.len(), powers.len(), from, to) {
        return NM_BAD_ARGUMENT;
    }
    range_laws();
    *hash = part_hash(hashes[to], hashes[from], powers[to - from]);
    NM_OK
}
