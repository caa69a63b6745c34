// Blank tables.
ghost use Rattle.std.specs.Prelude.{◌≡◌, length, replicate};

// Writes the blank into each record of the table.
pub fn fill<T: Copy>(table: &mut [T], blank: T)
    ensures { table.new ≡ replicate (length table.old) blank }
{
    table.fill_with(|| blank);
}
