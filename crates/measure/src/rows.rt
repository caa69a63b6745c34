// Rows of weights, for any measure.
ghost use Rattle.std.specs.Prelude.{◌≡◌, true};
ghost use Rattle.measure.specs.Meaning.{Lawful, Carries, better, better_of, joined, best};

use crate::{HouseMeasure, Measure};

// Whether a is better than b.
pub fn is_better<M: Measure>(a: M, b: M) -> bool
    ensures { result ≡ better M.Measure.meaning a b }
{
    !b.no_worse(a)
}

// The better of two weights.
pub fn better_of_two<M: Measure>(a: M, b: M) -> M
    ensures { result ≡ better_of M.Measure.meaning a b }
{
    if a.no_worse(b) { a } else { b }
}

// The weights of a walk's sections joined.
pub fn join_all<M: Measure>(weights: &[M]) -> M
    ensures { result ≡ joined M.Measure.meaning weights.now }
{
    weights.iter().fold(M::free(), |sum, w| sum.join(*w))
}

// The best of some weights.
pub fn best_of<M: Measure>(weights: &[M]) -> M
    ensures { result ≡ best M.Measure.meaning weights.now }
{
    weights
        .iter()
        .fold(M::no_way(), |best, w| better_of_two(best, *w))
}

// Every measure keeps the laws. The answer is promised so that a test can read it.
pub fn laws_hold<M: Measure>() -> bool
    ensures answer { result ≡ true }
    ensures lawful { Lawful M.Measure.meaning }
{
    true
}

// Under a house measure no walk without a repeated station comes to no way. The answer is promised as above.
pub fn walks_carry<M: HouseMeasure>() -> bool
    ensures answer { result ≡ true }
    ensures carries { Carries M.Measure.meaning }
{
    true
}
