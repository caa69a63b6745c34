// The blank record of each table. The records differ in their fields, and what fills a table takes any value: a trait would only move
// these five bodies.
ghost use Rattle.std.specs.Prelude.{◌≡◌};
ghost use Rattle.model.specs.Records.{blank_section, blank_station, blank_leg, blank_entry, blank_key};

use crate::records::{Entry, Key, Leg, Section, Station};
use measure::Measure;

impl<M: Measure> Section<M> {
    pub fn blank() -> Section<M>
        ensures { result ≡ blank_section M.Measure.meaning }
    {
        Section {
            low: 0,
            high: 1,
            weight: M::no_way(),
        }
    }
}

impl Station {
    pub fn blank() -> Station
        ensures { result ≡ blank_station }
    {
        Station {
            level: 0,
            first_leg: 0,
            legs: 0,
            first_entry: 0,
            entries: 0,
        }
    }
}

impl<M: Measure> Leg<M> {
    pub fn blank() -> Leg<M>
        ensures { result ≡ blank_leg M.Measure.meaning }
    {
        Leg {
            from: 0,
            to: 0,
            weight: M::no_way(),
        }
    }
}

impl<M: Measure> Entry<M> {
    pub fn blank() -> Entry<M>
        ensures { result ≡ blank_entry M.Measure.meaning }
    {
        Entry {
            hub: 0,
            weight: M::no_way(),
        }
    }
}

impl<M: Measure> Key<M> {
    pub fn blank() -> Key<M>
        ensures { result ≡ blank_key M.Measure.meaning }
    {
        Key {
            forward: M::no_way(),
            reverse: M::no_way(),
            count: 0,
        }
    }
}
