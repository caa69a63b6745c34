// Travel time in ticks.
ghost use Rattle.std.specs.Prelude.{◌≡◌, ◌≤◌, Some};

use crate::{HouseMeasure, Measure};
use std::fmt;

// What stands for this measure in a file.
const CODE: u8 = 1;

// The most ticks that a section takes.
pub(crate) const LONGEST: u32 = 1_000_000;

// The number that stands for them.
pub(crate) const LONGEST_NUMBER: u64 = LONGEST as u64;

// A time in ticks, from 0 to 4,294,967,295; the top means that there is no way.
#[derive(Clone, Copy, PartialEq, Eq, PartialOrd, Ord, Debug)]
pub struct Ticks {
    value: u32,
    ghost ok: { value ≤ 4294967295 },
}

impl Ticks {
    ghost use Rattle.measure.specs.Ticks.{ticks_if};

    // That many ticks, or nothing beyond the top: one way to fail, so a `TryFrom` beside it would say nothing more.
    pub fn new(value: u64) -> Option<Ticks>
        ensures { result ≡ ticks_if value }
    {
        let Ok(value) = u32::try_from(value) else {
            return None;
        };
        Some(Ticks { value })
    }

    pub fn value(self) -> u32
        ensures { result ≡ self.value }
    {
        self.value
    }
}

impl Measure for Ticks {
    ghost use Rattle.measure.specs.Ticks.{ticks_meaning};
    ghost use Rattle.measure.specs.TicksLaws.{ticks_lawful};

    ghost meaning = { ticks_meaning };

    ghost lawful = { ticks_lawful };

    fn no_worse(self, other: Ticks) -> bool {
        self <= other
    }

    fn join(self, other: Ticks) -> Ticks {
        Ticks {
            value: self.value.saturating_add(other.value),
        }
    }

    fn free() -> Ticks {
        Ticks { value: 0 }
    }

    fn no_way() -> Ticks {
        Ticks { value: u32::MAX }
    }

    fn is_fit(self) -> bool {
        (1..=LONGEST).contains(&self.value)
    }

    fn number(self) -> u64 {
        u64::from(self.value)
    }

    fn from_number(number: u64) -> Option<Ticks> {
        match number {
            1..=LONGEST_NUMBER => Ticks::new(number),
            _ => None,
        }
    }

    fn code() -> u8 {
        CODE
    }
}

impl HouseMeasure for Ticks {
    ghost use Rattle.measure.specs.TicksLaws.{ticks_carry};

    ghost carries = { ticks_carry };
}

impl fmt::Display for Ticks {
    ghost use Rattle.measure.specs.Ticks.{ticks_shown};

    ghost output = { λ w. Some (ticks_shown w) };

    fn fmt<W: fmt::Write>(&self, f: &mut fmt::Formatter<W>) -> fmt::Result {
        if *self == Ticks::no_way() {
            return f.write_str("no way");
        }
        write!(f, "{} ticks", self.value)
    }
}
