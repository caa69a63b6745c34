// The same answers by going over every station.

use model::slot::Slot;
use queue::lane::Lane;
use queue::orders::Order;
use queue::search::Search;

// The waiting station with the best key, the lowest at a tie.
pub fn least<L: Lane<R, W> + Order<W>, R: Copy, W: Copy>(
    search: &Search<'_, L, R, W>,
) -> Option<(usize, W)> {
    (0..search.stations())
        .filter_map(|s| match search.slot(s) {
            Slot::Waits(k) => Some((s, k)),
            _ => None,
        })
        .reduce(|front, behind| if L::no_worse(front.1, behind.1) {
            front
        } else {
            behind
        })
}

// How many stations wait.
pub fn waiting<L: Lane<R, W> + Order<W>, R: Copy, W: Copy>(search: &Search<'_, L, R, W>) -> usize {
    (0..search.stations())
        .filter(|s| matches!(search.slot(*s), Slot::Waits(_)))
        .count()
}
