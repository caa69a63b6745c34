// Keys with a total order.
ghost use Rattle.std.specs.Prelude.{◌≡◌, Bool};
ghost use Rattle.queue.specs.Orders.{TotalOrder};
ghost use Rattle.queue.specs.WeightLaws.{weights_ordered};

use measure::Measure;

// A key with a total order.
pub trait Rank: Copy {
    // Whether the first key is no worse than the second.
    ghost leb: { Self → Self → Bool };

    fn no_worse(self, other: Self) -> bool
        ensures { result ≡ leb self other };

    ghost lawful: { TotalOrder leb };
}

// A number of things, as a key: fewer is better.
#[derive(Clone, Copy, PartialEq, Eq, PartialOrd, Ord, Debug)]
pub struct Count(pub u32);

impl Rank for Count {
    ghost use Rattle.queue.specs.Counts.{no_more};
    ghost use Rattle.queue.specs.CountLaws.{counts_ordered};

    ghost leb = { no_more };

    ghost lawful = { counts_ordered };

    fn no_worse(self, other: Count) -> bool {
        self <= other
    }
}

// The weights of every measure, by its own order.
impl<M: Measure> Rank for M {
    ghost leb = { M.Measure.meaning.leb };

    ghost lawful = { weights_ordered M.Measure.lawful };

    fn no_worse(self, other: M) -> bool {
        Measure::no_worse(self, other)
    }
}
