// The edges of the house measures, and generic code over two weights only.
use crate::reach::Reach;
use measure::Measure;
use measure::clearance::Clearance;
use measure::rows::{best_of, is_better, join_all, laws_hold, walks_carry};
use measure::ticks::Ticks;
use measure::trip::Trip;
use std::test::Fail;

#[test]
fn ticks_at_their_edges(rt: HostRuntime) {
    assert!(rt; Ticks::new(4_294_967_295) == Some(Ticks::no_way()));
    assert!(rt; Ticks::new(4_294_967_296).is_none());
    assert!(rt; Ticks::from_number(0).is_none());
    assert!(rt; Ticks::from_number(1_000_000).is_some());
    assert!(rt; Ticks::from_number(1_000_001).is_none());
    assert!(rt; Ticks::from_number(72_057_594_037_927_936).is_none());
    assert!(rt; !Ticks::no_way().is_fit());
    assert!(rt; Ticks::no_way().join(Ticks::no_way()) == Ticks::no_way());
}

#[test]
fn clearance_at_its_edges(rt: HostRuntime) {
    assert!(rt; Clearance::new(65_535) == Some(Clearance::free()));
    assert!(rt; Clearance::new(65_536).is_none());
    assert!(rt; Clearance::from_number(0).is_none());
    assert!(rt; Clearance::from_number(65_535).is_some());
    assert!(rt; Clearance::from_number(65_536).is_none());
    assert!(rt; is_better(Clearance::free(), Clearance::no_way()));
}

#[test]
fn trips_at_their_edges(rt: HostRuntime) {
    assert!(rt; Trip::new(4_294_967_295, 65_534).is_none());
    assert!(rt; Trip::new(4_294_967_295, 65_535) == Some(Trip::no_way()));
    assert!(rt; Trip::new(4_294_967_296, 65_535).is_none());
    assert!(rt; Trip::new(1, 65_536).is_none());
    assert!(rt;
        Trip::from_number(281_470_681_743_361).is_some(),
        "1 tick and full transfers"
    );
    assert!(rt;
        Trip::from_number(281_474_976_710_657).is_none(),
        "one transfer too many"
    );
    assert!(rt;
        Trip::from_number(281_474_976_710_655).is_none(),
        "ticks at their top"
    );
}

#[test]
fn full_transfers_are_a_way(rt: HostRuntime) -> Result<(), Fail> {
    let Some(full) = Trip::new(1, 65_535) else {
        return Err(Fail::new("no trip"));
    };
    assert!(rt; Trip::new(2, 65_535) == Some(full.join(full)));
    assert!(rt; is_better(full.join(full), Trip::no_way()));
    Ok(())
}

#[test]
fn ways_that_are_lost_print_as_no_way(rt: HostRuntime) -> Result<(), Fail> {
    let text = format!(in rt.alloc(); "{}", Ticks::no_way())?;
    assert!(rt; text.as_str() == "no way");
    Ok(())
}

#[test]
fn two_weights_are_a_measure(rt: HostRuntime) {
    assert!(rt; laws_hold::<Reach>());
    assert!(rt; walks_carry::<Ticks>() && walks_carry::<Trip>());
    let ways = [Reach::free(), Reach::no_way()];
    assert!(rt; join_all(&ways) == Reach::no_way());
    assert!(rt; best_of(&ways) == Reach::free());
}
