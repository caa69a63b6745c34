// Weights of travel: what a measure is, and the three measures of the house.
#![tactic(auto)]

ghost use Rattle.std.specs.Prelude.{◌≡◌};
ghost use Rattle.measure.specs.Meaning.{Meaning, Lawful, Carries};

pub mod clearance;
pub mod rows;
pub mod ticks;
pub mod trip;

// A measure, whose weights are the values of the type that implements it.
pub trait Measure: Copy {
    ghost meaning: { Meaning Self };

    // Whether this weight is no worse than the other.
    fn no_worse(self, other: Self) -> bool
        ensures { result ≡ meaning.leb self other };

    // The weight of this way followed by the other.
    fn join(self, other: Self) -> Self
        ensures { result ≡ meaning.join self other };

    // The weight of staying where one is.
    fn free() -> Self
        ensures { result ≡ meaning.free };

    // The weight of what cannot be travelled.
    fn no_way() -> Self
        ensures { result ≡ meaning.no_way };

    // Whether a section may have this weight.
    fn is_fit(self) -> bool
        ensures { result ≡ meaning.fit self };

    // The number that stands for this weight in a file, if it is fit.
    fn number(self) -> u64
        ensures { result ≡ meaning.number self };

    // The fit weight that a number stands for.
    fn from_number(number: u64) -> Option<Self>
        ensures { result ≡ meaning.reading number };

    // The measure's mark in a file: a byte, since any crate may add a measure, and no enum has them all.
    fn code() -> u8
        ensures { result ≡ meaning.code };

    ghost lawful: { Lawful meaning };
}

// A measure under which no walk through distinct stations is lost to the top.
pub trait HouseMeasure: Measure {
    ghost carries: { Carries Self.Measure.meaning };
}
