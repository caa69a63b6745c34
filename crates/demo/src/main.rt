// Prices some walks of a small network under each house measure, names the best, sorts the stations by
// their sections, and writes the network to a file and reads it.
#![tactic(auto)]

mod files;
mod sections;
mod walks;

use anyhow::Context;
use files::travel;
use measure::Measure;
use measure::clearance::Clearance;
use measure::rows::{best_of, join_all};
use measure::ticks::Ticks;
use measure::trip::Trip;
use model::records::Section;
use sections::by_sections;
use std::fmt::Display;
use walks::steps;

// A measure that prints, and that says what a bare figure weighs in it. No measure is of this crate, so that no `TryFrom` can stand here.
trait Figured: Measure + Display {
    fn of_figure(figure: u32) -> Option<Self>;
}

impl Figured for Ticks {
    fn of_figure(figure: u32) -> Option<Ticks> {
        Ticks::new(u64::from(figure))
    }
}

impl Figured for Clearance {
    fn of_figure(figure: u32) -> Option<Clearance> {
        Clearance::new(figure)
    }
}

impl Figured for Trip {
    // Each section is one transfer.
    fn of_figure(figure: u32) -> Option<Trip> {
        Trip::new(u64::from(figure), 1)
    }
}

// Six sections: their two ends, and what they take in ticks.
const SECTIONS: [(usize, usize, u32); 6] = [
    (0, 1, 2),
    (1, 2, 2),
    (1, 4, 8),
    (2, 3, 1),
    (3, 4, 4),
    (4, 5, 1),
];

// Two ways from 0 to 5, and one that no section allows, each after its first station.
const WALKS: [&[usize]; 3] = [&[1, 4, 5], &[1, 2, 3, 4, 5], &[2, 3]];

// The six sections under a measure.
fn network<M: Figured>(rt: &HostRuntime) -> anyhow::Result<Vec<Section<M>>> {
    let mut sections = Vec::new(rt.alloc());
    for (low, high, figure) in SECTIONS {
        let weight = M::of_figure(figure).context("a figure is no weight")?;
        sections.push(Section { low, high, weight })?;
    }
    Ok(sections)
}

fn price<M: Figured>(
    rt: &HostRuntime,
    sections: &[Section<M>],
    rest: &[usize],
) -> anyhow::Result<M> {
    let weights = steps(rt.alloc(), sections, 0, rest)?;
    println!(rt; "  walk from 0 over {rest:?}")?;
    for weight in weights.iter() {
        println!(rt; "    step: {weight}")?;
    }
    let total = join_all(&weights);
    println!(rt; "    total: {total}")?;
    Ok(total)
}

fn compare<M: Figured>(rt: &HostRuntime, name: &str) -> anyhow::Result<()> {
    println!(rt; "{name}")?;
    let sections = network::<M>(rt)?;
    let mut totals = Vec::new(rt.alloc());
    for rest in WALKS {
        totals.push(price(rt, &sections, rest)?)?;
    }
    let best = best_of(&totals);
    println!(rt; "  best of the three: {best}")?;
    Ok(())
}

fn run(rt: &HostRuntime) -> anyhow::Result<()> {
    compare::<Ticks>(rt, "ticks")?;
    compare::<Clearance>(rt, "clearance")?;
    compare::<Trip>(rt, "ticks and transfers")?;
    let order = by_sections();
    println!(rt; "stations by their number of sections: {order:?}")?;
    println!(rt; "the network in ticks as a file")?;
    let sections = network::<Ticks>(rt)?;
    travel(rt, &sections, 6)
}

fn main(rt: HostRuntime) -> anyhow::Result<()> {
    run(&rt)
}
