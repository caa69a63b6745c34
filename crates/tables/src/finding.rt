// Finding a section in ascending order by its ends.
ghost use Rattle.std.specs.Prelude.{◌≡◌, ◌≤◌, true, length, is_some, is_ok};
ghost use Rattle.std.specs.List.Sorted.{IsSearchInRange};
ghost use Rattle.model.specs.Sections.{ascends, ends_before, place_of, weight_of};
ghost use Rattle.tables.specs.Finding.{has_at, place_in};

use model::ends::Ends;
use model::lookup::has_ends;
use model::records::Section;

// Whether a section comes before these ends.
fn comes_before<M: Copy>(section: &Section<M>, ends: Ends) -> bool
    ensures { result ≡ ends_before section.now.low section.now.high ends.low ends.high }
{
    (section.low, section.high) < (ends.low(), ends.high())
}

// The place of the first section that does not come before these ends. Where the sections do not ascend, the library's
// `partition_point` gives another place, so the halving is written out.
pub fn find<M: Copy>(sections: &[Section<M>], ends: Ends) -> usize
    ensures within { result ≤ length sections.now }
    ensures first { ascends sections.now ≡ true → result ≡ place_of ends.low ends.high sections.now }
{
    let mut from = 0;
    let mut to = sections.len();
    while from < to {
        let middle = from + (to - from) / 2;
        if comes_before(&sections[middle], ends) {
            from = middle + 1;
        } else {
            to = middle;
        }
    }
    from
}

// Whether the section at this place has exactly these ends.
pub fn has_at<M: Copy>(sections: &[Section<M>], place: usize, ends: Ends) -> bool
    ensures { result ≡ has_at place ends.low ends.high sections.now }
{
    // `is_some_and` was tried here, and its proof did not close.
    let Some(section) = sections.get(place) else {
        return false;
    };
    has_ends(section, ends.low(), ends.high())
}

// Where these ends stand among the sections, or else where they would stand.
pub fn locate<M: Copy>(sections: &[Section<M>], ends: Ends) -> Result<usize, usize>
    ensures within { IsSearchInRange result (length sections.now) }
    ensures first { ascends sections.now ≡ true → place_in result ≡ place_of ends.low ends.high sections.now }
    ensures there { is_ok result ≡ has_at (place_in result) ends.low ends.high sections.now }
    ensures known { ascends sections.now ≡ true → is_ok result ≡ is_some (weight_of ends.low ends.high sections.now) }
{
    let place = find(sections, ends);
    if has_at(sections, place, ends) {
        Ok(place)
    } else {
        Err(place)
    }
}
