// A network as a file in memory, and what the reader says of it.
ghost use Rattle.std.specs.Prelude.{is_some};

use anyhow::ensure;
use blockfile::file::{check_file, write_file};
use blockfile::numbers::Numbers;
use blockfile::row::Row;
use measure::Measure;
use model::records::Section;

// Numbers that a measure reads.
pub struct ReadBy<M>(M);

impl<M: Measure> Numbers for ReadBy<M> {
    ghost readable = { λ k. is_some (M.Measure.meaning.reading k) };

    fn is_readable(number: u64) -> bool {
        M::from_number(number).is_some()
    }
}

// The row of a section, as far as its ends have two bytes each. Neither type is of this crate, so that no `TryFrom` can stand here.
fn row_of<M: Measure>(section: &Section<M>) -> anyhow::Result<Row> {
    Ok(Row {
        low: u16::try_from(section.low)?,
        high: u16::try_from(section.high)?,
        number: section.weight.number(),
    })
}

fn judge<M: Measure>(rt: &HostRuntime, file: &[u8], n: u16) -> anyhow::Result<()> {
    match check_file::<ReadBy<M>>(file, usize::from(n), M::code()) {
        Ok(total) => println!(rt; "  accepted, {total} sections")?,
        Err(fault) => println!(rt; "  {fault}")?,
    }
    Ok(())
}

// Writes the sections to a file, reads it, and reads it again with one byte damaged.
pub fn travel<M: Measure>(rt: &HostRuntime, sections: &[Section<M>], n: u16) -> anyhow::Result<()> {
    let mut rows = Vec::new(rt.alloc());
    for section in sections {
        rows.push(row_of(section)?)?;
    }
    ensure!(rows.len() <= 16_384, "too many sections for a file");
    let mut buffer = [0u8; 1024];
    match write_file(&mut buffer, n, M::code(), &rows) {
        Ok(size) => println!(rt; "  written, {size} bytes")?,
        Err(fault) => println!(rt; "  {fault}")?,
    }
    judge::<M>(rt, &buffer, n)?;
    buffer[520] ^= 1;
    judge::<M>(rt, &buffer, n)
}
