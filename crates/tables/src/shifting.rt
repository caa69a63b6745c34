// Making and closing a gap among records.
ghost use Rattle.std.specs.Prelude.{◌≡◌, ◌-◌, ◌<◌, [], ◌∷◌, ◌++◌, length, take};
ghost use Rattle.std.specs.List.{insert, remove};

// Puts a record at a place, moves the later ones up by one, and lets the last one go.
pub fn insert<T: Copy>(records: &mut [T], place: usize, item: T)
    requires { place < length records.old }
    ensures { records.new ≡ insert (take (length records.old - 1) records.old) place item }
{
    let last = records.len() - 1;
    records.copy_within(place..last, place + 1);
    records[place] = item;
}

// Takes the record at a place away, moves the later ones down by one, and leaves the blank behind them.
pub fn remove<T: Copy>(records: &mut [T], place: usize, blank: T)
    requires { place < length records.old }
    ensures { records.new ≡ remove records.old place ++ blank ∷ [] }
{
    let last = records.len() - 1;
    records.copy_within(place + 1.., place);
    records[last] = blank;
}
