// Where each station stands, and which of them wait.
ghost use Rattle.std.specs.Prelude.{◌≡◌, ℕ, ◌<◌, ◌≤◌, slice_index};
ghost use Rattle.std.proofs.Props.{props};
ghost use Rattle.queue.specs.Layout.{Layout};

// The most stations that there is room for.
pub const ROOM: usize = 2048;

// `items` lists the stations, `at` says where each stands, and the first `len` of `items` wait. Two arrays, since memory
// is fixed and a station whose key improves has to be found. A station is a plain number for callers, so that a call on one asks that
// it is below 2,048.
#[derive(Drop)]
pub(crate) struct Places {
    items: [u16; ROOM],
    at: [u16; ROOM],
    len: usize,
    ghost layout: { Layout items at } by { Prim.hlevel props },
    ghost room: { len ≤ 2048 },
}

// Each number below 2,048 at its own place. Such a number is proved to fit, so `as u16` stands in place of a `try_from`.
fn numbered() -> [u16; ROOM]
    ensures { (p : ℕ) → p < 2048 → slice_index result p ≡ p }
{
    std::array::from_fn(|p| p as u16)
}

impl Places {
    ghost use Rattle.queue.specs.Heap.{Admits, Exchanges, Lowers};

    // Every station at its own place, and none waits.
    pub(crate) fn new() -> Places
        ensures { result.len ≡ 0 }
    {
        let items = numbered();
        let at = numbered();
        Places { items, at, len: 0 }
    }

    // How many stations wait.
    pub(crate) fn len(&self) -> usize
        ensures { result ≡ self.now.len }
    {
        self.len
    }

    // The station at a position.
    pub(crate) fn station_at(&self, position: usize) -> usize
        requires { position < 2048 }
        ensures { result ≡ slice_index self.now.items position }
    {
        usize::from(self.items[position])
    }

    // The position of a station.
    pub(crate) fn place_of(&self, station: usize) -> usize
        requires { station < 2048 }
        ensures { result ≡ slice_index self.now.at station }
    {
        usize::from(self.at[station])
    }

    // Exchanges the stations at two positions.
    pub(crate) fn exchange(&mut self, i: usize, j: usize)
        requires { (i < 2048) × (j < 2048) }
        ensures { Exchanges self.old self.new i j }
    {
        let a = self.station_at(i);
        let b = self.station_at(j);
        self.items.swap(i, j);
        self.at[b] = i as u16;
        self.at[a] = j as u16;
    }

    // Puts a station last among the waiting ones, unless it is among them.
    pub(crate) fn admit(&mut self, station: usize)
        requires { station < 2048 }
        ensures { Admits self.old self.new station }
    {
        let place = self.place_of(station);
        let last = self.len;
        if place < last {
            return;
        }
        self.exchange(place, last);
        self.len = last + 1;
    }

    // Lets the top go and puts the last of the waiting stations in its place.
    pub(crate) fn lower(&mut self)
        requires { 0 < self.old.len }
        ensures { Lowers self.old self.new }
    {
        let last = self.len - 1;
        self.exchange(0, last);
        self.len = last;
    }
}
