// A measure that only tells whether there is a way: free, and no way.
ghost use Rattle.trials.specs.Reach.{reach_meaning};
ghost use Rattle.trials.specs.ReachLaws.{reach_lawful};

use measure::Measure;

#[derive(Clone, Copy, PartialEq, Eq, PartialOrd, Ord, Debug)]
pub struct Reach {
    pub passes: bool,
}

impl Measure for Reach {
    ghost meaning = { reach_meaning };

    ghost lawful = { reach_lawful };

    fn no_worse(self, other: Reach) -> bool {
        other <= self
    }

    fn join(self, other: Reach) -> Reach {
        self.min(other)
    }

    fn free() -> Reach {
        Reach { passes: true }
    }

    fn no_way() -> Reach {
        Reach { passes: false }
    }

    fn is_fit(self) -> bool {
        self.passes
    }

    fn number(self) -> u64 {
        1
    }

    fn from_number(number: u64) -> Option<Reach> {
        (number == 1).then_some(Reach::free())
    }

    fn code() -> u8 {
        255
    }
}
