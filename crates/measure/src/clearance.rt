// Clearance: how wide a load passes. Order, joining and edges are other than those of ticks, so one type for both would say less.
ghost use Rattle.std.specs.Prelude.{◌≡◌, ◌≤◌, Some};

use crate::{HouseMeasure, Measure};
use std::fmt;

// What stands for this measure in a file.
const CODE: u8 = 2;

// A clearance from 0 to 65,535; 0 means that there is no way.
#[derive(Clone, Copy, PartialEq, Eq, PartialOrd, Ord, Debug)]
pub struct Clearance {
    value: u16,
    ghost ok: { value ≤ 65535 },
}

impl Clearance {
    ghost use Rattle.measure.specs.Clearance.{clearance_if};

    // That much clearance, or nothing beyond the top: one way to fail, as for ticks.
    pub fn new(value: u32) -> Option<Clearance>
        ensures { result ≡ clearance_if value }
    {
        let Ok(value) = u16::try_from(value) else {
            return None;
        };
        Some(Clearance { value })
    }

    pub fn value(self) -> u16
        ensures { result ≡ self.value }
    {
        self.value
    }
}

impl Measure for Clearance {
    ghost use Rattle.measure.specs.Clearance.{clearance_meaning};
    ghost use Rattle.measure.specs.ClearanceLaws.{clearance_lawful};

    ghost meaning = { clearance_meaning };

    ghost lawful = { clearance_lawful };

    // More clearance is better.
    fn no_worse(self, other: Clearance) -> bool {
        other <= self
    }

    fn join(self, other: Clearance) -> Clearance {
        self.min(other)
    }

    fn free() -> Clearance {
        Clearance { value: u16::MAX }
    }

    fn no_way() -> Clearance {
        Clearance { value: 0 }
    }

    fn is_fit(self) -> bool {
        1 <= self.value
    }

    fn number(self) -> u64 {
        u64::from(self.value)
    }

    fn from_number(number: u64) -> Option<Clearance> {
        // Within its limits the number keeps its value under `as`. With `try_from` and `filter` it was tried, and took half as long again.
        match number {
            1..=65_535 => Clearance::new(number as u32),
            _ => None,
        }
    }

    fn code() -> u8 {
        CODE
    }
}

impl HouseMeasure for Clearance {
    ghost use Rattle.measure.specs.ClearanceLaws.{clearance_carry};

    ghost carries = { clearance_carry };
}

impl fmt::Display for Clearance {
    ghost use Rattle.measure.specs.Clearance.{clearance_shown};

    ghost output = { λ w. Some (clearance_shown w) };

    fn fmt<W: fmt::Write>(&self, f: &mut fmt::Formatter<W>) -> fmt::Result {
        if *self == Clearance::no_way() {
            return f.write_str("no way");
        }
        write!(f, "clearance {}", self.value)
    }
}
