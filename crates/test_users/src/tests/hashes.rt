//! Hashes and searches, with known values from other sources.

ghost use Rattle.std.specs.Prelude.{◌≡◌, ◌*◌, ◌↔◌, IsTrue, length};

use super::assert_at;
use mersenne_hash::prefixes::{Patterns, PrefixHashes, are_pattern_lengths};
use mersenne_hash::{length_hash, same_hashes};
use num_modular::ModularInteger;
use num_modular::hashes::{Hash, base, find, hash, is_hit, roll};

// A text, a pattern, and the first position where it occurs.
const SEARCHES: &[(&[u8], &[u8], Option<usize>)] = &[
    (b"abracadabra", b"cad", Some(4)),
    (b"abracadabra", b"bra", Some(1)),
    (b"abracadabra", b"abra", Some(0)),
    (b"abracadabra", b"brac", Some(1)),
    (b"abracadabra", b"dabra", Some(6)),
    (b"abracadabra", b"x", None),
    (b"abracadabra", b"", Some(0)),
    (b"", b"", Some(0)),
    (b"", b"a", None),
    (b"aaa", b"aaaa", None),
    (b"listen silent", b"silent", Some(7)),
    (b"aaaaab", b"aab", Some(3)),
    (b"abracadabra", b"abracadabra", Some(0)),
    (b"a", b"a", Some(0)),
    // In the first half of the positions, in the second, in both, and at the last ones.
    (b"xxabxxxxabxx", b"ab", Some(2)),
    (b"xxxababxxxxx", b"ab", Some(3)),
    (b"xxxxxabxxabx", b"ab", Some(5)),
    (b"xxxxxxxxabxx", b"ab", Some(8)),
    (b"xxxxxxxxxabx", b"ab", Some(9)),
    (b"xxxxxxxxxxab", b"ab", Some(10)),
    (b"xxxxxxxxxab", b"ab", Some(9)),
    (b"xxxxxxxxxxxx", b"ab", None),
];

// Whether each search returns this. At the base 0 a hash is the last byte, and at 1 it is the sum of the bytes, so
// that many windows have the pattern's hash.
fn finds_each(base: Hash) -> bool {
    for (text, pattern, position) in SEARCHES {
        if find(base, text, pattern) != *position {
            return false;
        }
    }
    true
}

// Whether the pattern occurs at a position, by the hashes of both.
fn occurs(base: Hash, text: &[u8], pattern: &[u8], at: usize) -> bool {
    if at > text.len() || text.len() - at < pattern.len() {
        return false;
    }
    let window = hash(base, &text[at..at + pattern.len()]);
    let wanted = hash(base, pattern);
    is_hit(wanted, window, text, pattern, at)
}

// Whether each pattern occurs at this position, or else doesn't at the first.
fn hits_each(base: Hash) -> bool {
    for (text, pattern, position) in SEARCHES {
        let at = position.unwrap_or(0);
        if occurs(base, text, pattern, at) != position.is_some() {
            return false;
        }
    }
    true
}

#[test]
fn searches(rt: HostRuntime) {
    for n in [0, 1, 256, 1000003, 2305843009213693950] {
        check!(&rt, 1; finds_each(base(n)));
        check!(&rt, 2; hits_each(base(n)));
    }
}

// A base, a text, whether the window of 11 bytes is then moved from an a to an a, and the hash.
const HASHES: &[(u64, &[u8], bool, u64)] = &[
    (256, b"abracadabra", false, 100030700541806068),
    (2305843009213693950, b"abracadabra", false, 102),
    (5, b"", false, 0),
    (1000003, b"abracadabra", false, 2019167997446549444),
    (1000003, b"abracadabra", true, 2038550280337484571),
];

fn residue_of(n: u64, text: &[u8], is_moved: bool) -> u64 {
    let base = base(n);
    let mut window = hash(base, text);
    if is_moved {
        window = roll(base, base.pow(&11), window, b'a', b'a');
    }
    window.residue()
}

#[test]
fn hashes(rt: HostRuntime) {
    for &(n, text, is_moved, residue) in HASHES {
        assert_at(&rt, residue_of(n, text, is_moved) == residue, &n);
    }
}

#[test]
fn hashes_that_collide(rt: HostRuntime) {
    let rt = &rt;
    // X^2 + 2 and 3X have the same values at 1 and 2, the roots of X^2 - 3X + 2, and at no third base
    let first = [1, 0, 2];
    let second = [0, 3, 0];
    check!(rt, 1; same_hashes(&[1, 2], &first, &second));
    check!(rt, 2; !same_hashes(&[0, 1, 2], &first, &second));
    check!(rt, 3; !same_hashes(&[1, 2, 2305843009213693950], &first, &second));
    // 2^61 is congruent to the base 1
    check!(rt, 4; same_hashes(&[1, 2, 2305843009213693952], &first, &second));
    check!(rt, 5; same_hashes(&[0, 1, 2], &first, &first));
}

// The places from which a pattern is searched in "abracadabra", and the first position from there on.
const SEARCHES_FROM: &[(&[u8], usize, Option<usize>)] = &[
    (b"abra", 0, Some(0)),
    (b"abra", 1, Some(7)),
    (b"abra", 7, Some(7)),
    (b"abra", 8, None),
    (b"a", 1, Some(3)),
    (b"a", 10, Some(10)),
    (b"a", 11, None),
    (b"", 5, Some(5)),
    (b"", 11, Some(11)),
    (b"", 12, None),
    (b"abracadabra", 0, Some(0)),
    (b"abracadabrac", 0, None),
    (b"x", 0, None),
];

// Whether each search returns this.
fn finds_from(text: &PrefixHashes<'_>) -> bool {
    for (pattern, from, position) in SEARCHES_FROM {
        if text.find_from(pattern, *from) != *position {
            return false;
        }
    }
    true
}

#[test]
fn hashes_of_parts(rt: HostRuntime) {
    for n in [0, 1, 256, 1000003, 2305843009213693950] {
        let base = base(n);
        let mut hashes = [base; 12];
        let mut powers = [base; 12];
        match PrefixHashes::new(base, b"abracadabra", &mut hashes, &mut powers) {
            Some(text) => {
                assert_at(
                    &rt,
                    text.substring_hash(0, 11) == hash(base, b"abracadabra"),
                    &n,
                );
                assert_at(&rt, text.substring_hash(7, 11) == hash(base, b"abra"), &n);
                assert_at(&rt, text.substring_hash(4, 7) == hash(base, b"cad"), &n);
                assert_at(&rt, text.substring_hash(5, 5) == hash(base, b""), &n);
                assert_at(&rt, finds_from(&text), &n);
            }
            None => assert_at(&rt, false, &n),
        }
    }
    let mut few = [base(2); 3];
    let mut powers = [base(2); 4];
    check!(&rt, 1; PrefixHashes::new(base(2), b"abc", &mut few, &mut powers).is_none());
    check!(&rt, 2; PrefixHashes::new(base(2), b"ab", &mut few, &mut powers).is_none());
    check!(&rt, 3; PrefixHashes::new(base(2), b"", &mut [], &mut powers).is_none());
}

#[test]
fn hashes_that_know_lengths(rt: HostRuntime) {
    let rt = &rt;
    let b = base(1000003);
    check!(rt, 1; hash(b, b"\x00a") == hash(b, b"a"));
    check!(rt, 2; length_hash(b, b"\x00a") != length_hash(b, b"a"));
    check!(rt, 3; length_hash(b, b"") == base(1));
    check!(rt, 4; length_hash(base(1000), &[2, 3]).residue() == 1_002_003);
}

// The places from which bra, cad and abr are searched in "abracadabra", and the first position with the pattern there.
const SEARCHES_OF_THREE: &[(usize, Option<(usize, usize)>)] = &[
    (0, Some((0, 2))),
    (1, Some((1, 0))),
    (2, Some((4, 1))),
    (5, Some((7, 2))),
    (8, Some((8, 0))),
    (9, None),
    (12, None),
];

#[test]
fn several_patterns(rt: HostRuntime) {
    for n in [0, 1, 256, 1000003, 2305843009213693950] {
        let base = base(n);
        let (mut hashes, mut powers) = ([base; 12], [base; 12]);
        let mut few = [base; 3];
        let Some(text) = PrefixHashes::new(base, b"abracadabra", &mut hashes, &mut powers) else {
            return assert_at(&rt, false, &n);
        };
        let Some(patterns) = Patterns::new(base, 3, b"bracadabr", &mut few) else {
            return assert_at(&rt, false, &n);
        };
        for (from, hit) in SEARCHES_OF_THREE {
            assert_at(&rt, text.find_any_from(&patterns, *from) == *hit, from);
        }
        let mut found = [9; 12];
        text.find_all(&patterns, &mut found);
        assert_at(&rt, found == [2, 0, 3, 3, 1, 3, 3, 2, 0, 3, 3, 3], &n);
        assert_at(&rt, text.pattern_at(&patterns, 4) == Some(1), &n);
        assert_at(&rt, text.pattern_at(&patterns, 11).is_none(), &n);
    }
    check!(&rt, 1; Patterns::new(base(2), 3, b"abcde", &mut [base(2); 2]).is_none());
    check!(&rt, 2; Patterns::new(base(2), 0, b"", &mut [base(2); 2]).is_some());
}

// Makes patterns. Returns false, with the hashes unchanged, exactly where the symbols aren't as many as they have.
fn makes(base: Hash, size: usize, symbols: &[u8], hashes: &mut [Hash]) -> bool
    ensures suits { IsTrue result ↔ (length symbols.now ≡ length hashes.old * size) }
    ensures unchanged { (IsTrue result → ⊥) → hashes.new ≡ hashes.old }
{
    if !are_pattern_lengths(symbols.len(), hashes.len(), size) {
        return false;
    }
    match Patterns::new(base, size, symbols, hashes) {
        Some(_) => true,
        None => false,
    }
}

#[test]
fn refused_patterns(rt: HostRuntime) {
    let rt = &rt;
    let mut hashes = [base(2); 2];
    check!(rt, 1; !makes(base(1000), 3, b"abcde", &mut hashes) && hashes == [base(2); 2]);
    let wanted = [hash(base(1000), b"ab"), hash(base(1000), b"cd")];
    check!(rt, 2; makes(base(1000), 2, b"abcd", &mut hashes) && hashes == wanted);
}
