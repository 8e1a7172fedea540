//! Erasure codes: words of messages, messages from every choice of places, and bad input.

ghost use Rattle.std.specs.Prelude.{◌≡◌, ◌<◌, ◌≤◌, All, length};
ghost use Rattle.num_modular.specs.Checked.{AreChecked};

use num_modular::ring::{load_forms, unload_forms};
use num_modular::{FixedMersenne64, Montgomery, Reducer};
use ring_codes::erasure::{
    RestoreError, ShareError, encode, encode_systematic, evaluate_each, is_codeword, points_fit,
    recover, restore, restore_word, share,
};
use std::process::Abort;

const MERSENNE_PRIME: u64 = 2305843009213693951;

pub fn forms_of<R: Reducer<u64>, const N: usize>(r: &R, words: &[u64; N]) -> [u64; N]
    ensures { AreChecked R.Reducer (λ x. x) r.now result }
{
    let mut forms = [0; N];
    load_forms(r, words, &mut forms);
    forms
}

pub fn words_of<R: Reducer<u64>, const N: usize>(r: &R, forms: &[u64; N]) -> [u64; N]
    requires { AreChecked R.Reducer (λ x. x) r.now forms.now }
{
    let mut words = [0; N];
    unload_forms(r, forms, &mut words);
    words
}

// The systematic word of a message; `None` where the points don't fit. All are forms.
fn systematic_word_of<R: Reducer<u64>, const N: usize, const K: usize>(
    r: &R,
    points: &[u64],
    message: &[u64],
) -> Option<[u64; N]>
    requires points { AreChecked R.Reducer (λ x. x) r.now points.now }
    requires message { AreChecked R.Reducer (λ x. x) r.now message.now }
    requires count { length points.now ≡ N }
    requires symbols { length message.now ≡ K }
    requires few { K ≤ N }
{
    let mut weights = [0; K];
    let mut coefficients = [0; K];
    let mut word = [0; N];
    if encode_systematic(
        r,
        points,
        message,
        &mut weights,
        &mut coefficients,
        &mut word,
    ) {
        Some(word)
    } else {
        None
    }
}

// Whether a word is that of a message of three symbols; `None` where the points don't fit. All are forms.
fn is_word<R: Reducer<u64>>(r: &R, points: &[u64], word: &[u64]) -> Option<bool>
    requires points { AreChecked R.Reducer (λ x. x) r.now points.now }
    requires word { AreChecked R.Reducer (λ x. x) r.now word.now }
    requires symbols { length word.now ≡ length points.now }
    requires few { 3 ≤ length points.now }
{
    let mut weights = [0; 3];
    let mut message = [0; 3];
    if points_fit(r, points) {
        Some(is_codeword(r, points, word, &mut weights, &mut message))
    } else {
        None
    }
}

// Whether the symbols at these places give this result, and where they can be restored the message and the word, by
// `restore` and by `restore_word`. All are forms.
fn restores<R: Reducer<u64>, const N: usize, const K: usize>(
    r: &R,
    points: &[u64],
    places: &[usize],
    symbols: &[u64],
    want: Result<(), RestoreError>,
    message: &[u64; K],
    word: &[u64; N],
) -> bool
    requires points { AreChecked R.Reducer (λ x. x) r.now points.now }
    requires symbols { AreChecked R.Reducer (λ x. x) r.now symbols.now }
    requires pairs { length symbols.now ≡ length places.now }
    requires count { length points.now ≡ N }
    requires few { K ≤ N }
{
    let mut chosen = [0; K];
    let mut weights = [0; K];
    let mut found = [0; K];
    let alone = restore(
        r,
        points,
        places,
        symbols,
        &mut chosen,
        &mut weights,
        &mut found,
    );
    let mut whole = [0; N];
    let within = restore_word(
        r,
        points,
        places,
        symbols,
        &mut weights,
        &mut chosen,
        &mut whole,
    );
    alone == want
        && within == want
        && (want.is_err() || found == *message && chosen == *message && whole == *word)
}

// The symbols at three places.
fn at_places<const N: usize>(symbols: &[u64; N], places: &[usize; 3]) -> [u64; 3] {
    let mut found = [0; 3];
    for i in 0..3 {
        if places[i] < N {
            found[i] = symbols[places[i]];
        }
    }
    found
}

// Points, a message and its word.
struct Row<const N: usize> {
    points: [u64; N],
    message: [u64; 3],
    word: [u64; N],
}

// Whether every three symbols of the word give the message and the word.
fn restores_from_each_three<R: Reducer<u64>, const N: usize>(r: &R, row: &Row<N>) -> bool
    requires { 3 ≤ N }
{
    let points = forms_of(r, &row.points);
    let message = forms_of(r, &row.message);
    let word = forms_of(r, &row.word);
    for a in 0..N {
        for b in a + 1..N {
            for c in b + 1..N {
                let places = [a, b, c];
                let symbols = forms_of(r, &at_places(&row.word, &places));
                if !restores(r, &points, &places, &symbols, Ok(()), &message, &word) {
                    return false;
                }
            }
        }
    }
    true
}

// Whether the word is that of the message, every three symbols give both back, and a change of the first
// symbol is detected.
fn has_word<R: Reducer<u64>, const N: usize>(r: &R, row: &Row<N>) -> bool
    requires { 3 ≤ N }
{
    let points = forms_of(r, &row.points);
    let mut word = [0; N];
    encode(r, &points, &forms_of(r, &row.message), &mut word);
    let mut changed = row.word;
    changed[0] ^= 1;
    word == forms_of(r, &row.word)
        && restores_from_each_three(r, row)
        && is_word(r, &points, &word) == Some(true)
        && is_word(r, &points, &forms_of(r, &changed)) == Some(false)
}

// Whether the systematic word of the message is this one.
fn has_systematic_word<R: Reducer<u64>>(r: &R, row: &Row<7>) -> bool {
    let points = forms_of(r, &row.points);
    let message = forms_of(r, &row.message);
    let word = forms_of(r, &row.word);
    systematic_word_of::<_, 7, 3>(r, &points, &message) == Some(word)
        && is_word(r, &points, &word) == Some(true)
}

const WORD_MODULO_A_MERSENNE_PRIME: &Row<5> = &Row {
    points: [1, 2, 3, 2305843009213693950, 1152921504606846976],
    message: [2305843009213693950, 1234567890123456789, 987654321],
    word: [
        1234567891111111109,
        163292774983836910,
        1397860670045565304,
        1071275120077891482,
        40823193005218486,
    ],
};

// Whether the values of 5 + 7X + X^2, which has more coefficients than there are points, are right modulo 97.
fn has_values<R: Reducer<u64>>(r: &R) -> bool {
    let mut values = [0; 2];
    evaluate_each(
        r,
        &forms_of(r, &[5, 7, 1]),
        &forms_of(r, &[2, 3]),
        &mut values,
    );
    words_of(r, &values) == [23, 35]
}

#[test]
fn values_of_a_polynomial(rt: HostRuntime) {
    check!(&rt, 1; has_values(&Montgomery::<u64>::new(97)));
}

#[test]
fn words_modulo_a_mersenne_prime(rt: HostRuntime) {
    let r = FixedMersenne64::<61, 1>::new(&MERSENNE_PRIME);
    check!(&rt, 1; has_word(&r, WORD_MODULO_A_MERSENNE_PRIME));
}

const WORD_MODULO_929: &Row<7> = &Row {
    points: [0, 1, 2, 3, 4, 5, 6],
    message: [1, 2, 3],
    word: [1, 6, 17, 34, 57, 86, 121],
};

const WORD_MODULO_1001: &Row<7> = &Row {
    points: [0, 1, 2, 3, 4, 5, 6],
    message: [500, 700, 999],
    word: [500, 197, 891, 580, 265, 947, 624],
};

const SYSTEMATIC_WORD_MODULO_929: &Row<7> = &Row {
    points: [0, 1, 2, 3, 4, 5, 6],
    message: [3, 2, 1],
    word: [3, 2, 1, 0, 928, 927, 926],
};

const SYSTEMATIC_WORD_MODULO_1001: &Row<7> = &Row {
    points: [0, 1, 2, 3, 4, 5, 6],
    message: [500, 700, 999],
    word: [500, 700, 999, 396, 893, 488, 182],
};

fn assert_words<R: Reducer<u64>>(rt: &impl Abort, prime: &R, composite: &R) {
    check!(rt, 1; has_word(prime, WORD_MODULO_929));
    check!(rt, 2; has_word(composite, WORD_MODULO_1001));
    check!(rt, 3; has_systematic_word(prime, SYSTEMATIC_WORD_MODULO_929));
    check!(rt, 4; has_systematic_word(composite, SYSTEMATIC_WORD_MODULO_1001));
}

fn fit<R: Reducer<u64>, const N: usize>(r: &R, points: &[u64; N]) -> bool {
    points_fit(r, &forms_of(r, points))
}

fn assert_fit<R: Reducer<u64>>(rt: &impl Abort, prime: &R, composite: &R) {
    check!(rt, 11; fit(prime, &[0, 1, 2, 3, 4, 5, 6]));
    check!(rt, 12; fit(composite, &[0, 1, 2, 3, 4, 5, 6]));
    check!(rt, 13; !fit(composite, &[0, 1, 2, 3, 4, 5, 6, 7]));
    check!(rt, 14; fit(composite, &[]));
    check!(rt, 15; !fit(prime, &[5, 934]));
}

// The numbers from 1 to N.
fn counted<const N: usize>() -> [u64; N]
    requires { N < 1000 }
{
    let mut numbers = [0; N];
    for i in 0..N {
        numbers[i] = i as u64 + 1;
    }
    numbers
}

// Whether the word of 255 symbols has these ends and this sum.
fn is_known_word(word: &[u64]) -> bool {
    let mut sum: u64 = 0;
    for symbol in word {
        sum = sum.wrapping_add(*symbol);
    }
    word.len() == 255
        && word[..5] == [47, 112, 216, 190, 80]
        && word[250..] == [255, 172, 114, 188, 123]
        && sum == 32269
}

// The places from 32 on, and the symbols there.
fn last_symbols(word: &[u64; 255]) -> ([usize; 223], [u64; 223]) {
    let mut places = [0; 223];
    let mut symbols = [0; 223];
    for i in 0..223 {
        places[i] = i + 32;
        symbols[i] = word[i + 32];
    }
    (places, symbols)
}

// Whether the word of 223 symbols is the known one modulo 257, and is restored without its first 32 symbols.
fn restores_many<R: Reducer<u64>>(r: &R) -> bool {
    let points = forms_of(r, &counted::<255>());
    let message = forms_of(r, &counted::<223>());
    let mut word = [0; 255];
    encode(r, &points, &message, &mut word);
    let words = words_of(r, &word);
    let (places, symbols) = last_symbols(&words);
    let symbols = forms_of(r, &symbols);
    is_known_word(&words) && restores(r, &points, &places, &symbols, Ok(()), &message, &word)
}

// Whether this error comes of these places and symbols, for a message of three symbols.
fn refuses<R: Reducer<u64>, const P: usize>(
    r: &R,
    places: &[usize; P],
    symbols: &[u64; P],
    error: RestoreError,
) -> bool {
    let points = forms_of(r, &[0, 1, 2, 3, 4, 5, 6, 7]);
    let symbols = forms_of(r, symbols);
    restores(r, &points, places, &symbols, Err(error), &[0; 3], &[0; 8])
}

fn assert_refused<R: Reducer<u64>>(rt: &impl Abort, r: &R) {
    check!(rt, 21; refuses(r, &[0, 1], &[1, 2], RestoreError::TooFewSymbols));
    check!(rt, 22; refuses(r, &[4, 1, 4], &[1, 2, 1], RestoreError::PlaceTwice));
    check!(rt, 23; refuses(r, &[0, 8, 1], &[1, 2, 3], RestoreError::PlaceOutOfRange));
    check!(rt, 24; refuses(r, &[0, 3, 7], &[1, 2, 3], RestoreError::PointsDontFit));
    let (points, message) = (forms_of(r, &[0, 7, 1]), forms_of(r, &[1, 2]));
    check!(rt, 25; systematic_word_of::<_, 3, 2>(r, &points, &message) == None);
}

// The shares of a secret at these points.
fn shares_of<R: Reducer<u64>, const N: usize, const K: usize>(
    r: &R,
    points: &[u64; N],
    coefficients: &[u64; K],
) -> Result<[u64; N], ShareError> {
    let points = forms_of(r, points);
    let coefficients = forms_of(r, coefficients);
    let mut shares = [0; N];
    match share(r, &points, &coefficients, &mut shares) {
        Err(error) => Err(error),
        Ok(()) => Ok(words_of(r, &shares)),
    }
}

// The secret from the shares at three places of the points 1 to 5.
fn recovered<R: Reducer<u64>>(r: &R, shares: &[u64; 5], places: &[usize; 3]) -> Option<u64> {
    let points = forms_of(r, &[1, 2, 3, 4, 5]);
    let kept = forms_of(r, &at_places(shares, places));
    let mut chosen = [0; 3];
    let mut weights = [0; 3];
    let mut restored = [0; 3];
    match recover(
        r,
        &points,
        places,
        &kept,
        &mut chosen,
        &mut weights,
        &mut restored,
    ) {
        Ok(secret) => Some(r.residue(secret)),
        Err(_) => None,
    }
}

// The secret from the shares at these places, of the points 1 to 5.
fn shared_and_recovered<R: Reducer<u64>>(
    r: &R,
    coefficients: &[u64; 3],
    places: &[usize; 3],
) -> Option<u64> {
    match shares_of(r, &[1, 2, 3, 4, 5], coefficients) {
        Ok(shares) => recovered(r, &shares, places),
        Err(_) => None,
    }
}

fn assert_secrets<R: Reducer<u64>>(rt: &impl Abort, r: &R, composite: &R) {
    let coefficients = &[123, 456, 789];
    check!(rt, 31; shared_and_recovered(r, coefficients, &[0, 2, 4]) == Some(123));
    check!(rt, 32; shared_and_recovered(r, coefficients, &[4, 1, 3]) == Some(123));
    check!(rt, 33; shared_and_recovered(r, coefficients, &[4, 1, 4]) == None);
    check!(rt, 34; shares_of(r, &[1, 2, 3], coefficients) == Ok([439, 475, 231]));
    // at 0 the share is the secret, and modulo 1001 the share at 7 is the secret modulo 7
    let refused = Err(ShareError::PointWithoutInverse);
    check!(rt, 35; shares_of(r, &[1, 0, 2], coefficients) == refused);
    check!(rt, 36; shares_of(r, &[1, 2, 929], coefficients) == refused);
    check!(rt, 37; shares_of(composite, &[6, 7, 1], coefficients) == refused);
    let refused = Err(ShareError::PointsDontFit);
    check!(rt, 38; shares_of(r, &[1, 2, 1], coefficients) == refused);
    check!(rt, 39; shares_of(composite, &[1, 2, 8], coefficients) == refused);
}

// Without a secret, and with fewer points than would recover it; of several faults the first comes.
fn assert_counts_refused<R: Reducer<u64>>(rt: &impl Abort, r: &R) {
    check!(rt, 51; shares_of(r, &[1, 2, 3], &[]) == Err(ShareError::NoCoefficients));
    check!(rt, 52; shares_of(r, &[], &[]) == Err(ShareError::NoCoefficients));
    check!(rt, 53; shares_of(r, &[0, 0], &[]) == Err(ShareError::NoCoefficients));
    check!(rt, 54; shares_of(r, &[1, 2], &[123, 456, 789]) == Err(ShareError::TooFewPoints));
    check!(rt, 55; shares_of(r, &[], &[123]) == Err(ShareError::TooFewPoints));
    check!(rt, 56; shares_of(r, &[0], &[123, 456]) == Err(ShareError::TooFewPoints));
    check!(rt, 57; shares_of(r, &[0, 0], &[123, 456]) == Err(ShareError::PointWithoutInverse));
    check!(rt, 58; shares_of(r, &[1, 2], &[123, 456]) == Ok([579, 106]));
}

// Generic in the reducer, as each call with a known one takes long to prove.
fn assert_codes<R: Reducer<u64> + Copy>(rt: &impl Abort)
    requires of_257 { R.admits 257 }
    requires of_929 { R.admits 929 }
    requires of_1001 { R.admits 1001 }
{
    let prime = &R::new(&929);
    let composite = &R::new(&1001);
    assert_words(rt, prime, composite);
    assert_fit(rt, prime, composite);
    assert_refused(rt, composite);
    assert_secrets(rt, prime, composite);
    assert_counts_refused(rt, prime);
    check!(rt, 41; restores_many(&R::new(&257)));
}

#[test]
fn codes_by_montgomery_forms(rt: HostRuntime) {
    assert_codes::<Montgomery<u64>>(&rt);
}
