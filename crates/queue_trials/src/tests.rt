// The queue on small cases.

use crate::sides::Sides;
use measure::Measure;
use measure::ticks::Ticks;
use model::records::Key;
use queue::heap::ROOM;
use queue::lanes::{Counts, Forward};
use queue::offers::{offer, start};
use queue::orders::ByKey;
use queue::rank::Count;
use queue::search::{ByCount, Search};

// Blank key records.
fn blank<const N: usize>() -> [Key<Ticks>; N] {
    [Key::<Ticks>::blank(); N]
}

// That many ticks.
fn ticks(n: u64) -> Ticks {
    Ticks::new(n).unwrap_or(Ticks::no_way())
}

#[test]
fn nothing_waits_at_first(rt: HostRuntime) {
    let mut marks = [0; 8];
    let mut keys = blank::<8>();
    let mut queue = ByCount::new(&mut marks, &mut keys);
    assert!(rt; queue.is_empty());
    assert_eq!(rt; queue.len(), 0);
    assert_eq!(rt; queue.first(), None);
    assert_eq!(rt; queue.take(), None);
}

#[test]
fn one_station_comes_and_goes(rt: HostRuntime) {
    let mut marks = [0; 8];
    let mut keys = blank::<8>();
    let mut queue = ByCount::new(&mut marks, &mut keys);
    assert!(rt; queue.offer(3, Count(5)));
    assert_eq!(rt; queue.len(), 1);
    assert_eq!(rt; queue.take(), Some((3, Count(5))));
    assert!(rt; queue.is_empty());
    assert!(rt; !queue.offer(3, Count(1)));
    assert_eq!(rt; queue.take(), None);
}

#[test]
fn one_station_by_the_free_calls(rt: HostRuntime) {
    let mut marks = [0; 8];
    let mut keys = blank::<8>();
    let mut queue = start::<Counts, Key<Ticks>, Count>(&mut marks, &keys);
    assert!(rt; offer(&mut queue, &mut marks, &mut keys, 3, Count(5)));
    assert_eq!(rt; queue.len(), 1);
    assert_eq!(rt; queue.first(&keys), Some((3, Count(5))));
    assert_eq!(rt; queue.take(&mut marks, &keys), Some((3, Count(5))));
    assert!(rt; queue.is_empty());
    assert!(rt; !offer(&mut queue, &mut marks, &mut keys, 3, Count(1)));
    assert_eq!(rt; queue.take(&mut marks, &keys), None);
}

#[test]
fn equal_keys_go_by_number(rt: HostRuntime) {
    let mut marks = [0; 8];
    let mut keys = blank::<8>();
    let mut queue = ByCount::new(&mut marks, &mut keys);
    assert!(rt; queue.offer(5, Count(4)));
    assert!(rt; queue.offer(2, Count(4)));
    assert!(rt; queue.offer(7, Count(4)));
    assert_eq!(rt; queue.take(), Some((2, Count(4))));
    assert_eq!(rt; queue.take(), Some((5, Count(4))));
    assert_eq!(rt; queue.take(), Some((7, Count(4))));
}

#[test]
fn a_better_key_comes_to_the_top(rt: HostRuntime) {
    let mut marks = [0; 8];
    let mut keys = blank::<8>();
    let mut queue = ByCount::new(&mut marks, &mut keys);
    assert!(rt; queue.offer(1, Count(9)));
    assert!(rt; queue.offer(2, Count(5)));
    assert!(rt; queue.offer(1, Count(3)));
    assert_eq!(rt; queue.len(), 2);
    assert_eq!(rt; queue.first(), Some((1, Count(3))));
}

#[test]
fn an_equal_key_changes_nothing(rt: HostRuntime) {
    let mut marks = [0; 8];
    let mut keys = blank::<8>();
    let mut queue = ByCount::new(&mut marks, &mut keys);
    assert!(rt; queue.offer(6, Count(5)));
    assert!(rt; queue.offer(4, Count(5)));
    assert!(rt; queue.offer(6, Count(5)));
    assert!(rt; !queue.offer(4, Count(6)));
    assert_eq!(rt; queue.len(), 2);
    assert_eq!(rt; queue.first(), Some((4, Count(5))));
}

// Enters every station, with counts that jump about and come twice each, and says how many were entered.
fn enter_all(queue: &mut ByCount<'_, Ticks>) -> usize {
    let mut n = 0;
    for s in 0..2048u32 {
        // A `usize` has no `From<u32>`.
        if queue.offer(s as usize, Count(s * 37 % 1024)) {
            n += 1;
        }
    }
    n
}

// Takes every station, and says how many came in their place: by count, at equal counts by number.
fn take_all(queue: &mut ByCount<'_, Ticks>) -> usize {
    let mut n = 0;
    let mut last = (Count(0), 0);
    for _ in 0..ROOM {
        if let Some((s, k)) = queue.take() {
            if last <= (k, s) {
                n += 1;
            }
            last = (k, s);
        }
    }
    n
}

#[test]
fn every_station_comes_out_in_its_place(rt: HostRuntime) {
    let mut marks = [0; ROOM];
    let mut keys = blank::<ROOM>();
    let mut queue = ByCount::new(&mut marks, &mut keys);
    assert_eq!(rt; enter_all(&mut queue), 2048);
    assert_eq!(rt; take_all(&mut queue), 2048);
}

#[test]
fn weights_come_by_their_own_order(rt: HostRuntime) {
    let mut marks = [0; 8];
    let mut keys = blank::<8>();
    let mut search = Search::<'_, ByKey<Forward>, Key<Ticks>, Ticks>::new(&mut marks, &mut keys);
    assert!(rt; search.offer(1, ticks(7)));
    assert!(rt; search.offer(2, ticks(5)));
    assert_eq!(rt; search.take(), Some((2, ticks(5))));
}

#[test]
fn two_sides_at_once(rt: HostRuntime) {
    let mut marks = [0; 8];
    let mut keys = blank::<8>();
    let mut sides = Sides::new(&mut marks, &mut keys);
    assert!(rt; sides.offer(1, ticks(7)));
    assert!(rt; sides.offer(2, ticks(5)));
    assert_eq!(rt; sides.take(), (Some((2, ticks(5))), Some((2, ticks(5)))));
    assert_eq!(rt; sides.first(), (Some((1, ticks(7))), Some((1, ticks(7)))));
}
