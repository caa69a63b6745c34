// Two queues over the same tables, one for each side.
ghost use Rattle.std.specs.Prelude.{◌≡◌, min, length, if◌then◌else◌, replicate, slice_set};
ghost use Rattle.model.specs.declared.slot.Slot.TheVariants.{Free, Waits};
ghost use Rattle.model.specs.Slots.{least};
ghost use Rattle.queue.specs.Slots.{slots_settled};

use measure::Measure;
use model::records::Key;
use queue::heap::{Queue, ROOM};
use queue::lanes::{Forward, Reverse};
use queue::offers::takes;
use queue::operations::slot_at;
use std::marker::Model;

// A queue for each side and the tables that they share: seen as what each side knows of every station. Both write one pair of tables, so
// that neither can hold them alone, as a `Search` does.
#[derive(Drop)]
pub struct Sides<'a, M: Measure> {
    forward: Queue<Forward, M>,
    reverse: Queue<Reverse, M>,
    marks: &'a mut [u8],
    keys: &'a mut [Key<M>],
}

impl<'a, M: Measure> Model for Sides<'a, M> {
    ghost use Rattle.std.specs.Prelude.{List};
    ghost use Rattle.model.specs.declared.slot.Slot.{Slot as SlotOf};
    ghost use Rattle.queue.specs.Heap.{Holds};
    ghost use Rattle.queue.specs.Lanes.{forward_key, reverse_key};
    ghost use Rattle.queue.specs.Marks.{high_mark, low_mark};
    ghost use Rattle.queue.specs.Slots.{slots};

    ghost Value = { List (SlotOf M) × List (SlotOf M) };

    ghost view = { λ s. (slots forward_key low_mark s.marks.now s.keys.now, slots reverse_key high_mark s.marks.now s.keys.now) };

    ghost invariant = { λ s. Holds M.Measure.meaning.leb s.forward (slots forward_key low_mark s.marks.now s.keys.now)
        × Holds M.Measure.meaning.leb s.reverse (slots reverse_key high_mark s.marks.now s.keys.now) };
}

impl<'a, M: Measure> Sides<'a, M> {
    // Blanks the marks; no station waits on either side.
    pub fn new(marks: &'a mut [u8], keys: &'a mut [Key<M>]) -> Sides<'a, M>
        ensures { result
            ≡ (replicate (min (length marks.old) (length keys.old)) Free, replicate (min (length marks.old) (length keys.old)) Free) }
    {
        marks.fill(0);
        Sides {
            forward: Queue::new(),
            reverse: Queue::new(),
            marks,
            keys,
        }
    }

    // Enters a station on both sides with the same weight, where both take it, and says whether they did.
    pub fn offer(&mut self, s: usize, k: M) -> bool
        ensures { self.new
            ≡ (if result then (slice_set self.old.0 s (Waits k), slice_set self.old.1 s (Waits k)) else self.old) }
    {
        let marks = &mut *self.marks;
        let keys = &mut *self.keys;
        let room = ROOM.min(marks.len()).min(keys.len());
        if s >= room
            || !takes(slot_at::<Forward, Key<M>, M>(marks, keys, s), k)
            || !takes(slot_at::<Reverse, Key<M>, M>(marks, keys, s), k)
        {
            return false;
        }
        self.forward.put(marks, keys, s, k);
        self.reverse.put(marks, keys, s, k);
        true
    }

    // Takes the first station of each side.
    pub fn take(&mut self) -> (Option<(usize, M)>, Option<(usize, M)>)
        ensures ahead { result.0 ≡ least M.Measure.meaning.leb self.old.0 }
        ensures back { result.1 ≡ least M.Measure.meaning.leb self.old.1 }
        ensures view { self.new ≡ (slots_settled result.0 self.old.0, slots_settled result.1 self.old.1) }
    {
        let marks = &mut *self.marks;
        let keys = &mut *self.keys;
        let ahead = self.forward.take(marks, keys);
        let back = self.reverse.take(marks, keys);
        (ahead, back)
    }

    // The first station of each side.
    pub fn first(&self) -> (Option<(usize, M)>, Option<(usize, M)>)
        ensures ahead { result.0 ≡ least M.Measure.meaning.leb self.now.0 }
        ensures back { result.1 ≡ least M.Measure.meaning.leb self.now.1 }
    {
        (self.forward.first(self.keys), self.reverse.first(self.keys))
    }
}
