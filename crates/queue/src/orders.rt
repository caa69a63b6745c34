// The order in which a lane's keys come.
ghost use Rattle.std.specs.Prelude.{◌≡◌, Bool};
ghost use Rattle.queue.specs.Orders.{TotalOrder};

use crate::lane::Lane;
use crate::mark::Mark;
use crate::rank::Rank;
use std::marker::PhantomData;

// A lane that says in which order its keys come.
pub trait Order<W> {
    // Whether the first key is no worse than the second.
    ghost leb: { W → W → Bool };

    fn no_worse(a: W, b: W) -> bool
        ensures { result ≡ leb a b };

    ghost lawful: { TotalOrder leb };
}

// A lane whose keys bring their own order.
#[derive(Clone, Copy)]
pub struct ByKey<L>(PhantomData<L>);

impl<L, W: Rank> Order<W> for ByKey<L> {
    ghost leb = { W.leb };

    ghost lawful = { W.lawful };

    fn no_worse(a: W, b: W) -> bool {
        a.no_worse(b)
    }
}

impl<L: Lane<R, W>, R, W> Lane<R, W> for ByKey<L> {
    ghost key = { L.key };

    ghost keyed = { L.keyed };

    ghost mark = { L.mark };

    ghost marked = { L.marked };

    ghost lawful = { L.lawful };

    fn key_of(row: R) -> W {
        L::key_of(row)
    }

    fn with_key(row: R, k: W) -> R {
        L::with_key(row, k)
    }

    fn mark_of(byte: u8) -> Mark {
        L::mark_of(byte)
    }

    fn with_mark(byte: u8, m: Mark) -> u8 {
        L::with_mark(byte, m)
    }
}
