//! Operations for each kind of operands, by value or by reference, the modulus by reference.
//!
//! All of them delegate to one function.

use crate::operations::{ModularCoreOps, ModularPow, ModularUnaryOps};
use crate::plain_word::PlainWord;
use crate::{euclid, power, residues};

impl<T: PlainWord> ModularCoreOps<T, &T> for T {
    type Output = T;

    // rust: #[cfg_attr(debug_assertions, track_caller)]
    fn addm(self, rhs: T, m: &T) -> T {
        residues::addm(self, rhs, *m)
    }

    // rust: #[cfg_attr(debug_assertions, track_caller)]
    fn subm(self, rhs: T, m: &T) -> T {
        residues::subm(self, rhs, *m)
    }

    // rust: #[cfg_attr(debug_assertions, track_caller)]
    fn mulm(self, rhs: T, m: &T) -> T {
        residues::mulm(self, rhs, *m)
    }
}

impl<T: PlainWord> ModularCoreOps<&T, &T> for T {
    type Output = T;

    // rust: #[cfg_attr(debug_assertions, track_caller)]
    fn addm(self, rhs: &T, m: &T) -> T {
        residues::addm(self, *rhs, *m)
    }

    // rust: #[cfg_attr(debug_assertions, track_caller)]
    fn subm(self, rhs: &T, m: &T) -> T {
        residues::subm(self, *rhs, *m)
    }

    // rust: #[cfg_attr(debug_assertions, track_caller)]
    fn mulm(self, rhs: &T, m: &T) -> T {
        residues::mulm(self, *rhs, *m)
    }
}

impl<T: PlainWord> ModularCoreOps<T, &T> for &T {
    type Output = T;

    // rust: #[cfg_attr(debug_assertions, track_caller)]
    fn addm(self, rhs: T, m: &T) -> T {
        residues::addm(*self, rhs, *m)
    }

    // rust: #[cfg_attr(debug_assertions, track_caller)]
    fn subm(self, rhs: T, m: &T) -> T {
        residues::subm(*self, rhs, *m)
    }

    // rust: #[cfg_attr(debug_assertions, track_caller)]
    fn mulm(self, rhs: T, m: &T) -> T {
        residues::mulm(*self, rhs, *m)
    }
}

impl<T: PlainWord> ModularCoreOps<&T, &T> for &T {
    type Output = T;

    // rust: #[cfg_attr(debug_assertions, track_caller)]
    fn addm(self, rhs: &T, m: &T) -> T {
        residues::addm(*self, *rhs, *m)
    }

    // rust: #[cfg_attr(debug_assertions, track_caller)]
    fn subm(self, rhs: &T, m: &T) -> T {
        residues::subm(*self, *rhs, *m)
    }

    // rust: #[cfg_attr(debug_assertions, track_caller)]
    fn mulm(self, rhs: &T, m: &T) -> T {
        residues::mulm(*self, *rhs, *m)
    }
}

impl<T: PlainWord> ModularUnaryOps<&T> for T {
    type Output = T;

    // rust: #[cfg_attr(debug_assertions, track_caller)]
    fn negm(self, m: &T) -> T {
        residues::negm(self, *m)
    }

    // rust: #[cfg_attr(debug_assertions, track_caller)]
    fn invm(self, m: &T) -> Option<T> {
        euclid::invm(self, *m)
    }

    // rust: #[cfg_attr(debug_assertions, track_caller)]
    fn dblm(self, m: &T) -> T {
        residues::dblm(self, *m)
    }

    // rust: #[cfg_attr(debug_assertions, track_caller)]
    fn sqm(self, m: &T) -> T {
        residues::sqm(self, *m)
    }
}

impl<T: PlainWord> ModularUnaryOps<&T> for &T {
    type Output = T;

    // rust: #[cfg_attr(debug_assertions, track_caller)]
    fn negm(self, m: &T) -> T {
        residues::negm(*self, *m)
    }

    // rust: #[cfg_attr(debug_assertions, track_caller)]
    fn invm(self, m: &T) -> Option<T> {
        euclid::invm(*self, *m)
    }

    // rust: #[cfg_attr(debug_assertions, track_caller)]
    fn dblm(self, m: &T) -> T {
        residues::dblm(*self, *m)
    }

    // rust: #[cfg_attr(debug_assertions, track_caller)]
    fn sqm(self, m: &T) -> T {
        residues::sqm(*self, *m)
    }
}

impl<T: PlainWord> ModularPow<T, &T> for T {
    type Output = T;

    // rust: #[cfg_attr(debug_assertions, track_caller)]
    fn powm(self, exp: T, m: &T) -> T {
        power::powm(self, exp, *m)
    }
}

impl<T: PlainWord> ModularPow<&T, &T> for T {
    type Output = T;

    // rust: #[cfg_attr(debug_assertions, track_caller)]
    fn powm(self, exp: &T, m: &T) -> T {
        power::powm(self, *exp, *m)
    }
}

impl<T: PlainWord> ModularPow<T, &T> for &T {
    type Output = T;

    // rust: #[cfg_attr(debug_assertions, track_caller)]
    fn powm(self, exp: T, m: &T) -> T {
        power::powm(*self, exp, *m)
    }
}

impl<T: PlainWord> ModularPow<&T, &T> for &T {
    type Output = T;

    // rust: #[cfg_attr(debug_assertions, track_caller)]
    fn powm(self, exp: &T, m: &T) -> T {
        power::powm(*self, *exp, *m)
    }
}
