// What a record of each table holds.

// A section: two stations, the lower first, and what it weighs to travel between them.
#[derive(Clone, Copy)]
pub struct Section<M> {
    pub low: usize,
    pub high: usize,
    pub weight: M,
}

// A station of a built index: its level, and where its legs and its label lie.
#[derive(Clone, Copy)]
pub struct Station {
    pub level: u8,
    pub first_leg: usize,
    pub legs: usize,
    pub first_entry: usize,
    pub entries: usize,
}

// A section of a level's network as one of its stations sees it.
#[derive(Clone, Copy)]
pub struct Leg<M> {
    pub from: usize,
    pub to: usize,
    pub weight: M,
}

// One entry of a label: a hub, and what it weighs to travel there.
#[derive(Clone, Copy)]
pub struct Entry<M> {
    pub hub: usize,
    pub weight: M,
}

// What a search keeps of a station: a weight for each side, and a count.
#[derive(Clone, Copy)]
pub struct Key<M> {
    pub forward: M,
    pub reverse: M,
    pub count: u32,
}
