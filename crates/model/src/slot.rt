// What a search, or the picking of a level, knows of a station.

// Nothing, the key it waits with, or the key it was settled with.
#[derive(Clone, Copy)]
pub enum Slot<W> {
    Free,
    Waits(W),
    Settled(W),
}
