//! Correction of words in place by `Corrector`: wrong symbols and lost ones.

use super::erasure::{forms_of, words_of};
use num_modular::{Montgomery, Reducer};
use ring_codes::erasure::{CorrectError, RestoreError};
use ring_decoder::corrector::Corrector;
use std::process::Abort;

// The number of wrong symbols of a word at the points 0 to 6, and the word afterwards, with messages of three symbols.
fn corrected<R: Reducer<u64>>(
    r: &R,
    word: &[u64; 7],
    lost: &[usize],
) -> Option<(Result<usize, CorrectError<u64>>, [u64; 7])> {
    let points = forms_of(r, &[0, 1, 2, 3, 4, 5, 6]);
    let mut word = forms_of(r, word);
    let mut weights = [0; 7];
    let mut scratch = [0; 50];
    let mut products = [0; 7];
    match Corrector::new(r, &points, 3, &mut weights, &mut products) {
        None => None,
        Some(code) => {
            let found = code.correct(&mut word, lost, &mut scratch);
            Some((found, words_of(r, &word)))
        }
    }
}

// The number of products that the correction of such a word takes: without and with a table of checks.
fn products_for<R: Reducer<u64>>(r: &R, word: &[u64; 7]) -> Option<[u128; 2]> {
    let points = forms_of(r, &[0, 1, 2, 3, 4, 5, 6]);
    let mut word = forms_of(r, word);
    let mut same = word;
    let mut weights = [0; 7];
    let mut checks = [0; 28];
    let mut scratch = [0; 50];
    let mut products = [0; 7];
    match Corrector::new(r, &points, 3, &mut weights, &mut products) {
        None => None,
        Some(code) => {
            let plain = code.correct_counted(&mut word, &[], &mut scratch);
            let by_checks = code
                .with_checks(&mut checks)
                .correct_counted(&mut same, &[], &mut scratch);
            if by_checks.0 == plain.0 {
                Some([plain.1, by_checks.1])
            } else {
                None
            }
        }
    }
}

// Whether a word at the points 0 to 6 is of the code of messages of three symbols.
fn is_word<R: Reducer<u64>>(r: &R, word: &[u64; 7]) -> Option<bool> {
    let points = forms_of(r, &[0, 1, 2, 3, 4, 5, 6]);
    let word = forms_of(r, word);
    let mut weights = [0; 7];
    let mut checks = [0; 28];
    let mut scratch = [0; 11];
    let mut products = [0; 7];
    match Corrector::new(r, &points, 3, &mut weights, &mut products) {
        None => None,
        Some(code) => {
            let plain = code.is_codeword(&word, &mut scratch);
            let code = code.with_checks(&mut checks);
            if code.is_codeword(&word, &mut scratch) == plain {
                Some(plain)
            } else {
                None
            }
        }
    }
}

// Symbols at the points 0 to 6, lost places, and what is found: the result, and the word afterwards.
struct Row<'a> {
    word: &'a [u64; 7],
    lost: &'a [usize],
    found: Result<usize, CorrectError<u64>>,
    after: &'a [u64; 7],
}

fn holds<R: Reducer<u64>>(r: &R, row: &Row) -> bool {
    corrected(r, row.word, row.lost) == Some((row.found, *row.after))
}

// The word of the message 1, 2, 3.
const WORD: &[u64; 7] = &[1, 6, 17, 34, 57, 86, 121];

const NO_ERROR: &Row = &Row {
    word: WORD,
    lost: &[],
    found: Ok(0),
    after: WORD,
};

const TWO_ERRORS: &Row = &Row {
    word: &[1, 0, 17, 34, 57, 900, 121],
    lost: &[],
    found: Ok(2),
    after: WORD,
};

const THREE_ERRORS: &Row = &Row {
    word: &[1, 0, 17, 34, 57, 900, 1],
    lost: &[],
    found: Err(CorrectError::TooManyErrors),
    after: &[1, 0, 17, 34, 57, 900, 1],
};

const ONE_ERROR: &Row = &Row {
    word: &[5, 6, 16, 34, 57, 86, 5],
    lost: &[6, 0],
    found: Ok(1),
    after: WORD,
};

const FOUR_LOST: &Row = &Row {
    word: &[0, 0, 17, 0, 57, 86, 0],
    lost: &[1, 3, 0, 6],
    found: Ok(0),
    after: WORD,
};

const FIVE_LOST: &Row = &Row {
    word: WORD,
    lost: &[1, 3, 0, 6, 2],
    found: Err(CorrectError::Restore(RestoreError::TooFewSymbols)),
    after: WORD,
};

const NO_PLACE: &Row = &Row {
    word: WORD,
    lost: &[7, 7],
    found: Err(CorrectError::Restore(RestoreError::PlaceOutOfRange)),
    after: WORD,
};

const TWICE: &Row = &Row {
    word: WORD,
    lost: &[5, 5],
    found: Err(CorrectError::Restore(RestoreError::PlaceTwice)),
    after: WORD,
};

fn assert_rows<R: Reducer<u64>>(rt: &impl Abort, r: &R) {
    check!(rt, 1; holds(r, NO_ERROR));
    check!(rt, 2; holds(r, TWO_ERRORS));
    check!(rt, 3; holds(r, THREE_ERRORS));
    check!(rt, 4; holds(r, ONE_ERROR));
    check!(rt, 5; holds(r, FOUR_LOST));
    check!(rt, 6; holds(r, FIVE_LOST));
    check!(rt, 7; holds(r, NO_PLACE));
    check!(rt, 8; holds(r, TWICE));
    check!(rt, 9; is_word(r, WORD) == Some(true));
    check!(rt, 10; is_word(r, TWO_ERRORS.word) == Some(false));
    check!(rt, 13; products_for(r, WORD) == Some([35, 28]));
    check!(rt, 14; products_for(r, TWO_ERRORS.word) == Some([123, 116]));
    check!(rt, 15; products_for(r, THREE_ERRORS.word) == Some([95, 88]));
}

// Modulo composite numbers: two symbols are wrong, one of them by a multiple of a factor.
fn assert_composite<R: Reducer<u64>>(rt: &impl Abort, r: &R, small: &R) {
    let found = corrected(r, &[502, 197, 891, 585, 265, 947, 624], &[]);
    check!(rt, 11; found == Some((Ok(2), [500, 197, 891, 580, 265, 947, 624])));
    check!(rt, 12; corrected(small, WORD, &[]).is_none());
}

// A word of messages of two symbols at the powers of a root, corrected by a transform; none where the points aren't its powers.
fn corrected_by_root<R: Reducer<u64>>(
    r: &R,
    root: u64,
    word: &[u64; 4],
) -> Option<(Result<usize, CorrectError<u64>>, [u64; 4])> {
    let points = forms_of(r, &[1, 13, 84, 72]);
    let mut word = forms_of(r, word);
    let mut weights = [0; 4];
    let mut scratch = [0; 25];
    let mut products = [0; 4];
    match Corrector::new(r, &points, 2, &mut weights, &mut products) {
        None => None,
        Some(code) => match code.with_root(r.transform(root)) {
            None => None,
            Some(code) => {
                let found = code.correct(&mut word, &[], &mut scratch);
                Some((found, words_of(r, &word)))
            }
        },
    }
}

// Modulo 85, where 13^2 is -1. The word of 1 + 2X is 3, 27, 84, 60.
fn assert_by_root<R: Reducer<u64>>(rt: &impl Abort, r: &R) {
    check!(rt, 21; corrected_by_root(r, 13, &[3, 27, 0, 60]) == Some((Ok(1), [3, 27, 84, 60])));
    check!(rt, 22; corrected_by_root(r, 13, &[3, 27, 84, 60]) == Some((Ok(0), [3, 27, 84, 60])));
    check!(rt, 23; corrected_by_root(r, 72, &[3, 27, 84, 60]).is_none());
    check!(rt, 24; corrected_by_root(r, 84, &[3, 27, 84, 60]).is_none());
}

// Generic in the reducer, as each call with a known one takes long to prove.
fn assert_corrections<R: Reducer<u64> + Copy>(rt: &impl Abort)
    requires of_15 { R.admits 15 }
    requires of_85 { R.admits 85 }
    requires of_929 { R.admits 929 }
    requires of_1001 { R.admits 1001 }
{
    assert_rows(rt, &R::new(&929));
    assert_composite(rt, &R::new(&1001), &R::new(&15));
    assert_by_root(rt, &R::new(&85));
}

#[test]
fn words_corrected_by_montgomery_forms(rt: HostRuntime) {
    assert_corrections::<Montgomery<u64>>(&rt);
}
