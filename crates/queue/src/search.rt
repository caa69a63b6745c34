// A queue together with the tables that it works on.
ghost use Rattle.std.specs.Prelude.{◌≡◌, ◌<◌, min, not, length, if◌then◌else◌, is_some, replicate, slice_index_or, slice_set};
ghost use Rattle.model.specs.declared.slot.Slot.TheVariants.{Free, Waits};
ghost use Rattle.model.specs.Slots.{least};
ghost use Rattle.queue.specs.Search.{slots_of};
ghost use Rattle.queue.specs.Slots.{marks_settled, may_offer, slots_settled, waiting, with_key, with_mark};
ghost use Rattle.queue.specs.declared.mark.Mark.TheVariants as Mark;

use crate::heap::Heap;
use crate::lane::Lane;
use crate::lanes::Counts;
use crate::operations::slot_at;
use crate::orders::Order;
use crate::rank::Count;
use model::records::Key;
use model::slot::Slot;
use std::marker::Model;

// One queue and the tables it works on, as long as no other queue does: seen as its tables.
#[derive(Drop)]
pub struct Search<'a, L: Lane<R, W> + Order<W>, R: Copy, W: Copy> {
    queue: Heap<L, W>,
    marks: &'a mut [u8],
    keys: &'a mut [R],
}

// A search by counts over the key records of the index.
pub type ByCount<'a, M> = Search<'a, Counts, Key<M>, Count>;

impl<'a, L: Lane<R, W> + Order<W>, R: Copy, W: Copy> Model for Search<'a, L, R, W> {
    ghost use Rattle.queue.specs.Heap.{Holds};
    ghost use Rattle.queue.specs.Search.{SearchTables};
    ghost use Rattle.queue.specs.Slots.{slots};

    ghost Value = { SearchTables R };

    ghost view = { λ s. record { marks = s.marks.now; keys = s.keys.now } };

    ghost invariant = { λ s. Holds L.leb s.queue (slots L.key L.mark s.marks.now s.keys.now) };
}

impl<'a, L: Lane<R, W> + Order<W>, R: Copy, W: Copy> Search<'a, L, R, W> {
    // Blanks the marks; no station waits.
    pub fn new(marks: &'a mut [u8], keys: &'a mut [R]) -> Search<'a, L, R, W>
        ensures marks { result.marks ≡ replicate (length marks.old) 0 }
        ensures keys { result.keys ≡ keys.old }
        ensures view { slots_of L.key L.mark result ≡ replicate (min (length marks.old) (length keys.old)) Free }
    {
        let queue = Heap::over(marks, keys);
        Search { queue, marks, keys }
    }

    // How many stations there are.
    pub fn stations(&self) -> usize
        ensures { result ≡ length (slots_of L.key L.mark self.now) }
    {
        self.marks.len().min(self.keys.len())
    }

    // What is known of station `s`.
    pub fn slot(&self, s: usize) -> Slot<W>
        requires { s < length (slots_of L.key L.mark self.now) }
        ensures { result ≡ slice_index_or (slots_of L.key L.mark self.now) s Free }
    {
        slot_at::<L, R, W>(self.marks, self.keys, s)
    }

    // How many stations wait.
    pub fn len(&self) -> usize
        ensures { result ≡ waiting (slots_of L.key L.mark self.now) }
    {
        self.queue.len()
    }

    // Whether no station waits.
    pub fn is_empty(&self) -> bool
        ensures { result ≡ not (is_some (least L.leb (slots_of L.key L.mark self.now))) }
    {
        self.queue.is_empty()
    }

    // The waiting station with the best key, the lowest at a tie, and its key.
    pub fn first(&self) -> Option<(usize, W)>
        ensures { result ≡ least L.leb (slots_of L.key L.mark self.now) }
    {
        self.queue.first(self.keys)
    }

    // Puts station `s` with key `k`, if it may be taken, and says whether it did.
    pub fn offer(&mut self, s: usize, k: W) -> bool
        ensures answer { result ≡ may_offer L.leb (slots_of L.key L.mark self.old) s k }
        ensures marks { self.new.marks ≡ (if result then with_mark L.marked self.old.marks s Mark.Waiting else self.old.marks) }
        ensures keys { self.new.keys ≡ (if result then with_key L.keyed self.old.keys s k else self.old.keys) }
        ensures view { slots_of L.key L.mark self.new ≡ (if result then slice_set (slots_of L.key L.mark self.old) s (Waits k) else slots_of L.key L.mark self.old) }
    {
        self.queue.offer(self.marks, self.keys, s, k)
    }

    // Takes the first station out and settles it.
    pub fn take(&mut self) -> Option<(usize, W)>
        ensures first { result ≡ least L.leb (slots_of L.key L.mark self.old) }
        ensures marks { self.new.marks ≡ marks_settled L.marked result self.old.marks }
        ensures keys { self.new.keys ≡ self.old.keys }
        ensures view { slots_of L.key L.mark self.new ≡ slots_settled result (slots_of L.key L.mark self.old) }
    {
        let keys = &mut *self.keys;
        self.queue.take(self.marks, keys)
    }
}
