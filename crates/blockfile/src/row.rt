// A section as a file holds it: its two ends and the number of its weight.

ghost use Rattle.std.specs.Prelude.{◌≡◌};
ghost use Rattle.blockfile.specs.Rows.{ahead};

#[derive(Clone, Copy, PartialEq, Eq, Debug)]
pub struct Row {
    pub low: u16,
    pub high: u16,
    pub number: u64,
}

impl Row {
    // Rows ascend by their lower and then their higher end.
    pub(crate) fn is_ahead_of(self, next: Row) -> bool
        ensures { result ≡ ahead self next }
    {
        (self.low, self.high) < (next.low, next.high)
    }
}
