// The numbers that stand for weights: a measure says which of them read back.

ghost use Rattle.std.specs.Prelude.{◌≡◌, ℕ, Bool};

pub trait Numbers {
    // Whether a number reads back as a weight.
    ghost readable: { ℕ → Bool };

    fn is_readable(number: u64) -> bool
        ensures { result ≡ readable number };
}
