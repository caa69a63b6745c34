// Travel time and transfers.
ghost use Rattle.std.specs.Prelude.{◌≡◌, ◌≤◌, Some};

use crate::ticks::{LONGEST, LONGEST_NUMBER};
use crate::{HouseMeasure, Measure};
use std::fmt;

// What stands for this measure in a file.
const CODE: u8 = 3;

// A trip's number has its ticks below this unit and its transfers above.
const TRANSFER: u64 = 4_294_967_296;

// Ticks and, beside them, how often a load is transferred; at the top of the ticks the transfers are full, and there is no way.
#[derive(Clone, Copy, PartialEq, Eq, PartialOrd, Ord, Debug)]
pub struct Trip {
    ticks: u32,
    transfers: u16,
    ghost ok: { (ticks ≤ 4294967295) × (transfers ≤ 65535) × (4294967295 ≤ ticks → 65535 ≤ transfers) },
}

impl Trip {
    ghost use Rattle.measure.specs.Trip.{trip_if};

    // A trip of that many ticks and transfers, or nothing where they are no weight: one way to fail, as for ticks.
    pub fn new(ticks: u64, transfers: u32) -> Option<Trip>
        ensures { result ≡ trip_if ticks transfers }
    {
        let (Ok(ticks), Ok(transfers)) = (u32::try_from(ticks), u16::try_from(transfers)) else {
            return None;
        };
        if ticks == u32::MAX && transfers < u16::MAX {
            return None;
        }
        Some(Trip { ticks, transfers })
    }

    pub fn ticks(self) -> u32
        ensures { result ≡ self.ticks }
    {
        self.ticks
    }

    pub fn transfers(self) -> u16
        ensures { result ≡ self.transfers }
    {
        self.transfers
    }
}

impl Measure for Trip {
    ghost use Rattle.measure.specs.Trip.{trip_meaning};
    ghost use Rattle.measure.specs.TripLaws.{trip_lawful};

    ghost meaning = { trip_meaning };

    ghost lawful = { trip_lawful };

    fn no_worse(self, other: Trip) -> bool {
        self <= other
    }

    fn join(self, other: Trip) -> Trip {
        let ticks = self.ticks.saturating_add(other.ticks);
        if ticks == u32::MAX {
            // Where the ticks are lost, the transfers say nothing any more.
            return Trip::no_way();
        }
        Trip {
            ticks,
            transfers: self.transfers.saturating_add(other.transfers),
        }
    }

    fn free() -> Trip {
        Trip {
            ticks: 0,
            transfers: 0,
        }
    }

    fn no_way() -> Trip {
        Trip {
            ticks: u32::MAX,
            transfers: u16::MAX,
        }
    }

    fn is_fit(self) -> bool {
        (1..=LONGEST).contains(&self.ticks)
    }

    fn number(self) -> u64 {
        u64::from(self.ticks) + TRANSFER * u64::from(self.transfers)
    }

    fn from_number(number: u64) -> Option<Trip> {
        // Within their limits the transfers keep their value under `as`. With `try_from` and `filter` it was tried, and was slower.
        match (number % TRANSFER, number / TRANSFER) {
            (ticks @ 1..=LONGEST_NUMBER, transfers @ 0..=65_535) => {
                Trip::new(ticks, transfers as u32)
            }
            _ => None,
        }
    }

    fn code() -> u8 {
        CODE
    }
}

impl HouseMeasure for Trip {
    ghost use Rattle.measure.specs.TripLaws.{trip_carry};

    ghost carries = { trip_carry };
}

impl fmt::Display for Trip {
    ghost use Rattle.measure.specs.Trip.{trip_shown};

    ghost output = { λ w. Some (trip_shown w) };

    fn fmt<W: fmt::Write>(&self, f: &mut fmt::Formatter<W>) -> fmt::Result {
        if *self == Trip::no_way() {
            return f.write_str("no way");
        }
        write!(f, "{} ticks, {} transfers", self.ticks, self.transfers)
    }
}
