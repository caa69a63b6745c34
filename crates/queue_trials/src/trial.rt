// Turns with pseudo-random stations and counts, each held against a plain scan.
ghost use Rattle.std.specs.Prelude.{◌≤◌};

use crate::scan::{least, waiting};
use measure::ticks::Ticks;
use model::records::Key;
use queue::rank::Count;
use queue::search::ByCount;

// Few stations and few counts, so that ties and better keys are common.
pub const STATIONS: usize = 64;

const TURNS: u32 = 250;

// The next pseudo-random number.
fn next(x: u32) -> u32 {
    x.wrapping_mul(1_664_525).wrapping_add(1_013_904_223)
}

// Takes a station out or offers one, and says whether queue and scan agree.
fn turn(search: &mut ByCount<'_, Ticks>, x: u32) -> bool {
    if x / 16_777_216 % 3 == 0 {
        let by_scan = least(search);
        return search.take() == by_scan;
    }
    // Below 64, which a `usize` holds; it has no `From<u32>`.
    let s = (x / 65_536 % 64) as usize;
    let n = x / 4_096 % 16;
    let _ = search.offer(s, Count(n));
    search.first() == least(search) && search.len() == waiting(search)
}

// Plays the turns of one round, and gives how many agreed and the last number.
fn play(search: &mut ByCount<'_, Ticks>, seed: u32) -> (u32, u32)
    ensures { result.0 ≤ 250 }
{
    let mut x = seed;
    let mut agreed = 0;
    for _ in 0..TURNS {
        x = next(x);
        if turn(search, x) {
            agreed += 1;
        }
    }
    (agreed, x)
}

// A round over blank tables.
pub fn round(seed: u32) -> (u32, u32)
    ensures { result.0 ≤ 250 }
{
    let mut marks = [0; STATIONS];
    let mut keys = [Key::<Ticks>::blank(); STATIONS];
    let mut search = ByCount::new(&mut marks, &mut keys);
    play(&mut search, seed)
}
