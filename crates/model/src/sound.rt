// What shows that the definitions hang together, for any measure.
ghost use Rattle.model.specs.Sound.{PlacingIsSound, RemovingIsSound, NetworkIsSymmetric, PartsLieThere, UnusedIsBlank};

use measure::Measure;

// Placing a section keeps the order and changes one look-up.
pub fn placing_is_sound<M: Measure>()
    ensures { PlacingIsSound M }
{}

// Removing a section keeps the order and changes one look-up.
pub fn removing_is_sound<M: Measure>()
    ensures { RemovingIsSound M }
{}

// A network of sections is the same both ways and has no loop.
pub fn network_is_symmetric<M: Measure>()
    ensures { NetworkIsSymmetric M }
{}

// Legs and labels lie where the station records say.
pub fn parts_lie_there<M: Measure>()
    ensures { PartsLieThere M }
{}

// Records that a build does not use are blank.
pub fn unused_is_blank<M: Measure>()
    ensures { UnusedIsBlank M.Measure.meaning }
{}
