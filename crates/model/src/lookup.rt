// Finding a section by its ends.
ghost use Rattle.std.specs.Prelude.{◌≡◌};
ghost use Rattle.model.specs.Sections.{same_ends, weight_of};

use crate::ends::Ends;
use crate::records::Section;

// Whether a section has these ends: any two numbers, of which the lower need not come first.
pub fn has_ends<M: Copy>(section: &Section<M>, low: usize, high: usize) -> bool
    ensures { result ≡ same_ends section.now.low section.now.high low high }
{
    (section.low, section.high) == (low, high)
}

// What the section with these ends weighs, if there is one. With `find` in place of the loop it was tried, and took up
// to twice the time.
pub fn weight_between<M: Copy>(sections: &[Section<M>], ends: Ends) -> Option<M>
    ensures { result ≡ weight_of ends.low ends.high sections.now }
{
    let low = ends.low();
    let high = ends.high();
    for section in sections {
        if has_ends(section, low, high) {
            return Some(section.weight);
        }
    }
    None
}
