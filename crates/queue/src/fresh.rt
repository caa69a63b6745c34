// A new queue, and how many stations wait.
ghost use Rattle.std.specs.Prelude.{◌≡◌, ℕ, List, replicate};
ghost use Rattle.queue.specs.Heap.{Holds};
ghost use Rattle.queue.specs.Slots.{waiting};
ghost use Rattle.model.specs.declared.slot.Slot.TheVariants.{Free};
ghost use Rattle.model.specs.declared.slot.Slot.{Slot as SlotOf};

use crate::heap::Heap;
use crate::orders::Order;
use crate::places::Places;
use std::marker::PhantomData;

impl<L: Order<W>, W: Copy> Heap<L, W> {
    // A queue in which no station waits.
    pub fn new() -> Heap<L, W>
        ensures { (n : ℕ) → Holds L.leb result (replicate n Free) }
    {
        Heap {
            serves: PhantomData,
            places: Places::new(),
        }
    }

    // How many stations wait.
    pub fn len(&self) -> usize
        ensures { (xs : List (SlotOf W)) → Holds L.leb self.now xs → result ≡ waiting xs }
    {
        self.places.len()
    }
}
