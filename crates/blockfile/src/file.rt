// The file layer: a header and the section blocks, written and read in order.
// Each `as` keeps its number, which the check proves; `try_from` would add an error that never comes.

ghost use Rattle.std.specs.Prelude.{◌≡◌, ◌+◌, ◌*◌, ◌^◌, ◌<◌, ◌≤◌, true, length, take, IfOk, if◌then◌else◌, Ok, Err, slice_index_or};
ghost use Rattle.lists.specs.Writes.{over};
ghost use Rattle.blockfile.specs.Judging.{blocks_for};
ghost use Rattle.blockfile.specs.Files.{section_part, file_of, file_size, whole_blocks, has_room, block_at, total_in, row_of, rows_of, sections_of_file_judged, file_judged};
ghost use Rattle.blockfile.specs.Laws.{ReadsBack, Accepted};
ghost use Rattle.blockfile.specs.Rows.{blank_row};

use crate::block::{
    BLOCK, Block, Place, RECORDS, Reader, row_in, section_blocks, write_header, write_sections,
};
use crate::fault::{BlockFault, FileFault};
use crate::numbers::Numbers;
use crate::row::Row;
use lists::field;

// A length of whole blocks, at least one.
fn is_whole(len: usize) -> bool
    ensures { result ≡ whole_blocks len }
{
    len > 0 && len % BLOCK == 0
}

// Writes the section blocks, each as its own part of the buffer.
fn write_section_blocks(buffer: &mut [u8], code: u8, rows: &[Row])
    requires few { length rows.now ≤ 16384 }
    requires room { file_size (length rows.now) ≤ length buffer.old }
    ensures { buffer.new ≡ over buffer.old 512 (section_part code rows.now (blocks_for (length rows.now))) }
{
    for (j, rows) in rows.chunks(RECORDS).enumerate() {
        let number = j + 1;
        let at = number * BLOCK;
        write_sections(&mut buffer[at..at + BLOCK], number as u32, code, rows);
    }
}

// Writes the file of these sections to the front of the buffer, leaves the bytes behind it, and answers its length.
// Where the buffer is no whole number of blocks, or too short, nothing is written.
pub fn write_file(buffer: &mut [u8], n: u16, code: u8, rows: &[Row]) -> Result<usize, FileFault>
    requires { length rows.now ≤ 16384 }
    ensures answer { result ≡ (if has_room (length buffer.old) (length rows.now) then Ok (file_size (length rows.now)) else Err FileFault.Length) }
    ensures buffer { buffer.new ≡ (if has_room (length buffer.old) (length rows.now) then over buffer.old 0 (file_of n code rows.now) else buffer.old) }
    ensures reads_back { IfOk result (λ size. ReadsBack n code rows.now (take size buffer.new)) }
{
    let size = BLOCK * (1 + section_blocks(rows.len()));
    if !is_whole(buffer.len()) || buffer.len() < size {
        return Err(FileFault::Length);
    }
    write_header(&mut buffer[0..BLOCK], n, code, rows.len() as u32);
    write_section_blocks(buffer, code, rows);
    Ok(size)
}

// Block `k` of a file.
fn block_of(file: &[u8], k: usize) -> &Block
    requires { k * 512 + 512 ≤ length file.now }
    ensures { result.now ≡ block_at k file.now }
{
    &file.as_chunks().0[k]
}

// The total of sections that the header gives.
fn total_of(file: &[u8]) -> usize
    requires { 512 ≤ length file.now }
    ensures value { result ≡ total_in file.now }
    ensures below { result < 2 ^ 32 }
{
    field(block_of(file, 0), 10, 4) as usize
}

// Judges the section blocks in order; the header was accepted before, so the total fits the length.
// All blocks but the last are full, so the row before a block is the last of the block before it.
fn check_section_blocks<N: Numbers>(reader: Reader, file: &[u8]) -> Result<(), BlockFault>
    requires { length file.now ≡ file_size (total_in file.now) }
    ensures { result ≡ sections_of_file_judged reader.stations N.Numbers.readable reader.code file.now }
{
    let mut left = total_of(file);
    let mut before = None;
    for (j, block) in file.as_chunks().0[1..].iter().enumerate() {
        let count = left.min(RECORDS);
        let place = Place {
            number: j as u32 + 1,
            count: count as u16,
            before,
        };
        reader.check_sections::<N>(block, place)?;
        left -= count;
        before = Some(row_in(block, RECORDS - 1));
    }
    Ok(())
}

// A fault of a block becomes one of the file by `?`.
fn check_blocks<N: Numbers>(reader: Reader, file: &[u8]) -> Result<usize, FileFault>
    requires { whole_blocks (length file.now) ≡ true }
    ensures { result ≡ file_judged reader.stations N.Numbers.readable reader.code file.now }
{
    reader.check_header(block_of(file, 0), file.len() / BLOCK)?;
    check_section_blocks::<N>(reader, file)?;
    Ok(total_of(file))
}

// Judges a whole file of `n` stations before anything of it is used, and answers its total of sections.
pub fn check_file<N: Numbers>(file: &[u8], n: usize, code: u8) -> Result<usize, FileFault>
    ensures answer { result ≡ file_judged n N.Numbers.readable code file.now }
    ensures accepted { IfOk result (λ total. Accepted n N.Numbers.readable code file.now total) }
{
    if !is_whole(file.len()) {
        return Err(FileFault::Length);
    }
    check_blocks::<N>(Reader { stations: n, code }, file)
}

// Row `i` of a file that was accepted, read in place.
pub fn row_at(file: &[u8], i: usize) -> Row
    requires { file_size (i + 1) ≤ length file.now }
    ensures place { result ≡ row_of file.now i }
    ensures listed { i < length (rows_of file.now) → result ≡ slice_index_or (rows_of file.now) i blank_row }
{
    row_in(block_of(file, i / RECORDS + 1), i % RECORDS)
}
