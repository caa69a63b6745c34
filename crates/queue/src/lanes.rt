// The lanes over the key record of the index. One byte holds the marks of both sides: a rule of the mark table.
ghost use Rattle.std.specs.Prelude.{◌≡◌, ◌⊎◌};
ghost use Rattle.queue.specs.Lanes.{SidesApart, count_key, count_keyed, forward_key, forward_keyed, reverse_key, reverse_keyed};
ghost use Rattle.queue.specs.Marks.{high_mark, high_marked, low_mark, low_marked, mark_at, marked_at};
ghost use Rattle.queue.specs.Counts.{no_more};
ghost use Rattle.queue.specs.CountLaws.{counts_ordered};
ghost use Rattle.queue.specs.SideLaws.{count_lane, forward_lane, reverse_lane};

use crate::lane::Lane;
use crate::mark::Mark;
use crate::orders::Order;
use crate::rank::{Count, Rank};
use model::records::Key;

// Forward weights, with marks in bits 0 and 1.
#[derive(Clone, Copy)]
pub struct Forward;

// Reverse weights, with marks in bits 2 and 3.
#[derive(Clone, Copy)]
pub struct Reverse;

// Counts, with marks in bits 0 and 1.
#[derive(Clone, Copy)]
pub struct Counts;

// The mark in two bits of a byte, `UNIT` being what the lower of them counts.
fn mark_at<const UNIT: u8>(byte: u8) -> Mark
    requires { (UNIT ≡ 1) ⊎ (UNIT ≡ 4) }
    ensures { result ≡ mark_at UNIT byte }
{
    Mark::from(byte / UNIT % 4)
}

// The byte with another mark in those two bits.
fn with_mark_at<const UNIT: u8>(byte: u8, m: Mark) -> u8
    requires { (UNIT ≡ 1) ⊎ (UNIT ≡ 4) }
    ensures { result ≡ marked_at UNIT byte m }
{
    byte / (4 * UNIT) * (4 * UNIT) + u8::from(m) * UNIT + byte % UNIT
}

// The lanes differ in their key, their unit and their order. A trait that held their two methods on marks would ask every lane for
// a unit.
impl<M: Copy> Lane<Key<M>, M> for Forward {
    ghost key = { forward_key };

    ghost keyed = { forward_keyed };

    ghost mark = { low_mark };

    ghost marked = { low_marked };

    ghost lawful = { forward_lane };

    fn key_of(row: Key<M>) -> M {
        row.forward
    }

    fn with_key(row: Key<M>, k: M) -> Key<M> {
        Key { forward: k, ..row }
    }

    fn mark_of(byte: u8) -> Mark {
        mark_at::<1>(byte)
    }

    fn with_mark(byte: u8, m: Mark) -> u8 {
        with_mark_at::<1>(byte, m)
    }
}

impl<M: Copy> Lane<Key<M>, M> for Reverse {
    ghost key = { reverse_key };

    ghost keyed = { reverse_keyed };

    ghost mark = { high_mark };

    ghost marked = { high_marked };

    ghost lawful = { reverse_lane };

    fn key_of(row: Key<M>) -> M {
        row.reverse
    }

    fn with_key(row: Key<M>, k: M) -> Key<M> {
        Key { reverse: k, ..row }
    }

    fn mark_of(byte: u8) -> Mark {
        mark_at::<4>(byte)
    }

    fn with_mark(byte: u8, m: Mark) -> u8 {
        with_mark_at::<4>(byte, m)
    }
}

impl<M: Copy> Lane<Key<M>, Count> for Counts {
    ghost key = { count_key };

    ghost keyed = { count_keyed };

    ghost mark = { low_mark };

    ghost marked = { low_marked };

    ghost lawful = { count_lane };

    fn key_of(row: Key<M>) -> Count {
        Count(row.count)
    }

    fn with_key(row: Key<M>, k: Count) -> Key<M> {
        Key { count: k.0, ..row }
    }

    fn mark_of(byte: u8) -> Mark {
        mark_at::<1>(byte)
    }

    fn with_mark(byte: u8, m: Mark) -> u8 {
        with_mark_at::<1>(byte, m)
    }
}

// Counts come by their own order; weights come by theirs through `ByKey`.
impl Order<Count> for Counts {
    ghost leb = { no_more };

    ghost lawful = { counts_ordered };

    fn no_worse(a: Count, b: Count) -> bool {
        a.no_worse(b)
    }
}

// A queue of one side leaves what a queue of the other side sees as it is.
pub fn sides_apart<M: Copy>()
    ensures { SidesApart M }
{}
