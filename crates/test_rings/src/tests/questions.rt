//! What rows ask of the reducer of a modulus. Only `answers` names the three reducers of any modulus, as each function
//! that names one takes long to prove.

use num_modular::word::{PlainWord, RingWord};
use num_modular::{Montgomery, PreMulInv2by1, Reducer, Vanilla};

/// A row that each reducer of its modulus can be asked.
// rust instead: pub trait Question<T: RingWord>: Sized {
pub trait Question<T: RingWord> {
    type Answer: Copy;

    fn modulus(&self) -> T;

    /// The answer of the reducer of m.
    fn answer<R: Reducer<T> + Copy>(&self, m: T) -> Self::Answer
        requires { R.admits (T.number m) };
}

/// The answers by plain reduction, by a scaled reciprocal and by Montgomery forms; `None` for the modulus 0.
pub fn answers<T: PlainWord, Q: Question<T>>(question: &Q) -> Option<[Q::Answer; 3]> {
    let m = question.modulus();
    if m.is_zero_word() {
        return None;
    }
    Some([
        question.answer::<Vanilla<T>>(m),
        question.answer::<PreMulInv2by1<T>>(m),
        question.answer::<Montgomery<T>>(m),
    ])
}

/// The place of the first question to which one of the three says no.
pub fn first_wrong<T: PlainWord, Q: Question<T, Answer = bool>>(questions: &[Q]) -> Option<usize> {
    for i in 0..questions.len() {
        if answers(&questions[i]) != Some([true; 3]) {
            return Some(i);
        }
    }
    None
}

/// Whether the reducer of m says yes to each question about m. Where there is one, `is_asked` becomes true.
pub fn says_yes<T: RingWord, R: Reducer<T> + Copy, Q: Question<T, Answer = bool>>(
    m: T,
    questions: &[Q],
    is_asked: &mut bool,
) -> bool
    requires { R.admits (T.number m) }
{
    for question in questions {
        if question.modulus() == m {
            *is_asked = true;
            if !question.answer::<R>(m) {
                return false;
            }
        }
    }
    true
}
