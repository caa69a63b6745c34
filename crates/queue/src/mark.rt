// Marks: where a station stands with one queue.
ghost use Rattle.std.specs.Prelude.{◌≡◌};
ghost use Rattle.queue.specs.Marks.{mark_number, mark_numbered};
ghost use Rattle.queue.specs.Slots.{slot};

use model::slot::Slot;

// A slot without its key. As `Slot<()>` it would carry a `()` wherever it is made or read.
#[derive(Clone, Copy)]
pub enum Mark {
    Blank = 0,
    Waiting = 1,
    Settled = 2,
}

impl Mark {
    // The slot of a station with this mark and this key.
    pub(crate) fn slot<W: Copy>(self, key: W) -> Slot<W>
        ensures { result ≡ slot self key }
    {
        match self {
            Mark::Blank => Slot::Free,
            Mark::Waiting => Slot::Waits(key),
            Mark::Settled => Slot::Settled(key),
        }
    }
}

// The mark that two bits stand for; none but 0 to 2 are ever written.
impl From<u8> for Mark {
    ghost from_gives = { λ bits m. m ≡ mark_numbered bits };

    fn from(bits: u8) -> Mark {
        match bits {
            0 => Mark::Blank,
            1 => Mark::Waiting,
            _ => Mark::Settled,
        }
    }
}

// The two bits that stand for a mark.
impl From<Mark> for u8 {
    ghost from_gives = { λ m bits. bits ≡ mark_number m };

    fn from(mark: Mark) -> u8 {
        mark as u8
    }
}
