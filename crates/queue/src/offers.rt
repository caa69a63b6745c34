// A queue over its tables, for callers that test before they put. Marks and keys are two tables of the index, and come apart from the
// queue, since two queues may share them; where one has them to itself, `Search` holds all three.
ghost use Rattle.std.specs.Prelude.{◌≡◌, min, length, if◌then◌else◌, replicate, slice_set};
ghost use Rattle.model.specs.declared.slot.Slot.TheVariants.{Free, Waits};
ghost use Rattle.queue.specs.Heap.{Holds};
ghost use Rattle.queue.specs.Slots.{may_offer, may_take, slots, with_key, with_mark};
ghost use Rattle.queue.specs.declared.mark.Mark.TheVariants as Mark;

use crate::heap::{Heap, Queue, ROOM};
use crate::lane::Lane;
use crate::operations::slot_at;
use crate::orders::{ByKey, Order};
use crate::rank::Rank;
use model::slot::Slot;

// Whether a station in this slot may be given the key `k`, by the lane's order.
pub(crate) fn takes_by<L: Order<W>, W: Copy>(slot: Slot<W>, k: W) -> bool
    ensures { result ≡ may_take L.leb k slot }
{
    match slot {
        Slot::Free => true,
        Slot::Waits(v) => L::no_worse(k, v),
        Slot::Settled(_) => false,
    }
}

impl<L: Order<W>, W: Copy> Heap<L, W> {
    // Blanks the marks and gives a new heap over them.
    pub(crate) fn over<R: Copy>(marks: &mut [u8], keys: &[R]) -> Heap<L, W>
    where
        L: Lane<R, W>,
        ensures marks { marks.new ≡ replicate (length marks.old) 0 }
        ensures view { slots L.key L.mark marks.new keys.now ≡ replicate (min (length marks.old) (length keys.now)) Free }
        ensures holds { Holds L.leb result (slots L.key L.mark marks.new keys.now) }
    {
        marks.fill(0);
        Heap::new()
    }

    // Puts station `s` with key `k`, if it may be taken, and says whether it did.
    pub(crate) fn offer<R: Copy>(
        &mut self,
        marks: &mut [u8],
        keys: &mut [R],
        s: usize,
        k: W,
    ) -> bool
    where
        L: Lane<R, W>,
        requires { Holds L.leb self.old (slots L.key L.mark marks.old keys.old) }
        ensures answer { result ≡ may_offer L.leb (slots L.key L.mark marks.old keys.old) s k }
        ensures marks { marks.new ≡ (if result then with_mark L.marked marks.old s Mark.Waiting else marks.old) }
        ensures keys { keys.new ≡ (if result then with_key L.keyed keys.old s k else keys.old) }
        ensures view { slots L.key L.mark marks.new keys.new ≡ (if result then slice_set (slots L.key L.mark marks.old keys.old) s (Waits k) else slots L.key L.mark marks.old keys.old) }
        ensures holds { Holds L.leb self.new (slots L.key L.mark marks.new keys.new) }
    {
        let room = ROOM.min(marks.len()).min(keys.len());
        if s >= room {
            return false;
        }
        if !takes_by::<L, W>(slot_at::<L, R, W>(marks, keys, s), k) {
            return false;
        }
        self.put(marks, keys, s, k);
        true
    }
}

// Blanks the marks and gives a new queue over them.
pub fn start<L: Lane<R, W>, R: Copy, W: Rank>(marks: &mut [u8], keys: &[R]) -> Queue<L, W>
    ensures marks { marks.new ≡ replicate (length marks.old) 0 }
    ensures view { slots L.key L.mark marks.new keys.now ≡ replicate (min (length marks.old) (length keys.now)) Free }
    ensures holds { Holds W.leb result (slots L.key L.mark marks.new keys.now) }
{
    Queue::<L, W>::over(marks, keys)
}

// Whether a station in this slot may be given the key `k`.
pub fn takes<W: Rank>(slot: Slot<W>, k: W) -> bool
    ensures { result ≡ may_take W.leb k slot }
{
    takes_by::<ByKey<()>, W>(slot, k)
}

// Puts station `s` with key `k`, if the queue may take it, and says whether it did.
pub fn offer<L: Lane<R, W>, R: Copy, W: Rank>(
    queue: &mut Queue<L, W>,
    marks: &mut [u8],
    keys: &mut [R],
    s: usize,
    k: W,
) -> bool
    requires { Holds W.leb queue.old (slots L.key L.mark marks.old keys.old) }
    ensures answer { result ≡ may_offer W.leb (slots L.key L.mark marks.old keys.old) s k }
    ensures marks { marks.new ≡ (if result then with_mark L.marked marks.old s Mark.Waiting else marks.old) }
    ensures keys { keys.new ≡ (if result then with_key L.keyed keys.old s k else keys.old) }
    ensures view { slots L.key L.mark marks.new keys.new ≡ (if result then slice_set (slots L.key L.mark marks.old keys.old) s (Waits k) else slots L.key L.mark marks.old keys.old) }
    ensures holds { Holds W.leb queue.new (slots L.key L.mark marks.new keys.new) }
{
    queue.offer(marks, keys, s, k)
}
