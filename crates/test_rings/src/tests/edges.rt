//! Reducers at the edges of their parameters.

use super::questions::Question;
use super::runs::ends_with;
use num_modular::Reducer;
use num_modular::ring::{RingCommand, RunEnd};
use num_modular::word::RingWord;

/// A modulus m, m - 1 and a greatest word, and what each reducer of m returns: the edges of its words, and the end of the
/// run of the commands with the residues after it.
// rust instead: #[derive(Debug)]
#[derive(Drop)]
pub struct Edges<T> {
    pub m: T,
    pub last: T,
    pub greatest: T,
    pub words: [T; 6],
    pub end: RunEnd,
    pub residues: [T; 5],
}

/// The end at the inverse of 0.
pub const STOPPED: RunEnd = RunEnd::NoInverse { at: 7 };

const STOPPED_EARLY: RunEnd = RunEnd::NoInverse { at: 5 };

// The residues of 0, 1, m - 1, m and a greatest word, m being the modulus, and that of (m - 1)^2.
fn words_at_edges<T: RingWord, R: Reducer<T>>(ring: &R, last: T, greatest: T) -> [T; 6] {
    let minus_one = ring.transform(last);
    [
        ring.residue(ring.transform(T::zero())),
        ring.residue(ring.transform(T::one())),
        ring.residue(minus_one),
        ring.residue(ring.transform(ring.modulus())),
        ring.residue(ring.transform(greatest)),
        ring.residue(ring.mul(&minus_one, &minus_one)),
    ]
}

// In this order, from register 0 on: 0, the inverse of m - 1, its square, the difference of a greatest word and
// m - 1, and that word to the power of itself; then the inverse of 0, which exists only modulo 1.
#[rattlefmt::skip]
fn commands<T: RingWord>(last: T, greatest: T) -> [RingCommand<T>; 8] {
    [
        RingCommand::Load { dst: 0, n: greatest },
        RingCommand::Load { dst: 1, n: last },
        RingCommand::Mul { dst: 2, a: 1, b: 1 },
        RingCommand::Inv { dst: 1, a: 1 },
        RingCommand::Sub { dst: 3, a: 0, b: 1 },
        RingCommand::Pow { dst: 4, a: 0, exp: greatest },
        RingCommand::Sub { dst: 0, a: 0, b: 0 },
        RingCommand::Inv { dst: 2, a: 0 },
    ]
}

// A greatest word, m - 1, its square and its inverse; then the inverse of 0.
#[rattlefmt::skip]
fn few_commands<T: RingWord>(last: T, greatest: T) -> [RingCommand<T>; 6] {
    [
        RingCommand::Load { dst: 0, n: greatest },
        RingCommand::Load { dst: 1, n: last },
        RingCommand::Mul { dst: 2, a: 1, b: 1 },
        RingCommand::Inv { dst: 1, a: 1 },
        RingCommand::Sub { dst: 3, a: 0, b: 0 },
        RingCommand::Inv { dst: 2, a: 3 },
    ]
}

// Whether the reducer has the row's results with the greatest word, finds no inverse of 0 except modulo 1, and leaves
// zeros after no command.
fn shows<T: RingWord, R: Reducer<T>>(
    ring: &R,
    row: &Edges<T>,
    list: &[RingCommand<T>],
    few: &[RingCommand<T>],
) -> bool {
    let stopped = [row.words[4], row.last, T::one(), T::zero(), T::zero()];
    words_at_edges(ring, row.last, row.greatest) == row.words
        && ends_with(ring, list, row.end, row.residues)
        && (row.end != STOPPED || ends_with(ring, few, STOPPED_EARLY, stopped))
        && ends_with(ring, &list[..0], RunEnd::Done, [T::zero(); 5])
}

impl Question<u32> for Edges<u32> {
    type Answer = bool;

    fn modulus(&self) -> u32 {
        self.m
    }

    fn answer<R: Reducer<u32> + Copy>(&self, m: u32) -> bool {
        let list = commands(self.last, self.greatest);
        let few = few_commands(self.last, self.greatest);
        shows(&R::new(&m), self, &list, &few)
    }
}

impl Question<u64> for Edges<u64> {
    type Answer = bool;

    fn modulus(&self) -> u64 {
        self.m
    }

    fn answer<R: Reducer<u64> + Copy>(&self, m: u64) -> bool {
        let list = commands(self.last, self.greatest);
        let few = few_commands(self.last, self.greatest);
        shows(&R::new(&m), self, &list, &few)
    }
}

impl Question<u128> for Edges<u128> {
    type Answer = bool;

    fn modulus(&self) -> u128 {
        self.m
    }

    fn answer<R: Reducer<u128> + Copy>(&self, m: u128) -> bool {
        let list = commands(self.last, self.greatest);
        let few = few_commands(self.last, self.greatest);
        shows(&R::new(&m), self, &list, &few)
    }
}
