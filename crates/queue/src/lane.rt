// Lanes: what one queue sees of the tables that several share.
ghost use Rattle.std.specs.Prelude.{◌≡◌, ℕ};
ghost use Rattle.queue.specs.LaneLaws.{IsLane};
ghost use Rattle.queue.specs.declared.mark.Mark.{Mark as Marking};

use crate::mark::Mark;

// Which of a record's keys and which bits of a mark byte a queue works on, chosen at compile time.
pub trait Lane<R, W> {
    // The key of a record.
    ghost key: { R → W };

    // The record with another key.
    ghost keyed: { R → W → R };

    // The mark in a byte.
    ghost mark: { ℕ → Marking };

    // The byte with another mark.
    ghost marked: { ℕ → Marking → ℕ };

    fn key_of(row: R) -> W
        ensures { result ≡ key row };

    fn with_key(row: R, k: W) -> R
        ensures { result ≡ keyed row k };

    fn mark_of(byte: u8) -> Mark
        ensures { result ≡ mark byte };

    fn with_mark(byte: u8, m: Mark) -> u8
        ensures { result ≡ marked byte m };

    // What was given is read back, and a byte of zero is blank.
    ghost lawful: { IsLane key keyed mark marked };
}
