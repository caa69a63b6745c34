// Placing a section in a table and removing one, by its ends. The table is fixed memory, lent for the call, and only
// these two take its count with it: what lies behind the sections is part of what they promise.
ghost use Rattle.std.specs.Prelude.{◌≡◌, ◌≤◌, true, length, take};
ghost use Rattle.model.specs.Sections.{ascends};
ghost use Rattle.tables.specs.Amending.{Placing, PlacingPadded, Removing, RemovingPadded, section_of};

use crate::finding::locate;
use crate::shifting::{insert, remove};
use model::ends::Ends;
use model::records::Section;

// The section with these ends and this weight.
fn section_of<M: Copy>(ends: Ends, weight: M) -> Section<M>
    ensures { result ≡ section_of ends.low ends.high weight }
{
    Section {
        low: ends.low(),
        high: ends.high(),
        weight,
    }
}

// Places a section among the first of the table, new or in the stead of the one with its ends, and says how many there are then, if there is room.
pub fn place_section<M: Copy>(
    table: &mut [Section<M>],
    count: usize,
    ends: Ends,
    weight: M,
) -> Option<usize>
    requires { count ≤ length table.old }
    ensures padded { PlacingPadded table.old count (section_of ends.low ends.high weight) result table.new }
    ensures whole { ascends (take count table.old) ≡ true → Placing table.old count (section_of ends.low ends.high weight) result table.new }
{
    let section = section_of(ends, weight);
    match locate(&table[..count], ends) {
        Ok(place) => {
            table[place] = section;
            Some(count)
        }
        Err(_) if count == table.len() => None,
        Err(place) => {
            insert(&mut table[..=count], place, section);
            Some(count + 1)
        }
    }
}

// Removes the section with these ends from the first of the table, if it is there, and says how many there are then.
pub fn remove_section<M: Copy>(
    table: &mut [Section<M>],
    count: usize,
    ends: Ends,
    blank: Section<M>,
) -> usize
    requires { count ≤ length table.old }
    ensures padded { RemovingPadded table.old count ends.low ends.high blank result table.new }
    ensures whole { ascends (take count table.old) ≡ true → Removing table.old count ends.low ends.high blank result table.new }
{
    let Ok(place) = locate(&table[..count], ends) else {
        return count;
    };
    remove(&mut table[..count], place, blank);
    count - 1
}
