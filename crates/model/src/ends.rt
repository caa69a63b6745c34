// The two ends of a section.
ghost use Rattle.std.specs.Prelude.{◌≡◌, ◌<◌};
ghost use Rattle.std.specs.Option.{option_map};
ghost use Rattle.model.specs.Small.{ends_of_row, ends_between};

// Two different stations, the lower first. It never lies in a table: records hold plain numbers, from which a check makes it.
#[derive(Clone, Copy, PartialEq, Eq, Debug)]
pub struct Ends {
    low: usize,
    high: usize,
    ghost rising: { low < high },
}

impl Ends {
    // The ends that a row's two numbers are, if the lower comes first.
    pub fn of_row(low: usize, high: usize) -> Option<Ends>
        ensures { option_map (λ e. (e.low, e.high)) result ≡ ends_of_row low high }
    {
        if low >= high {
            return None;
        }
        Some(Ends { low, high })
    }

    // The ends between two stations that are named in either order, if they differ.
    pub fn between(u: usize, v: usize) -> Option<Ends>
        ensures { option_map (λ e. (e.low, e.high)) result ≡ ends_between u v }
    {
        Ends::of_row(u.min(v), u.max(v))
    }

    pub fn low(self) -> usize
        ensures { result ≡ self.low }
    {
        self.low
    }

    pub fn high(self) -> usize
        ensures { result ≡ self.high }
    {
        self.high
    }
}
