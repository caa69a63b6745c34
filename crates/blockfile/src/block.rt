// The block layer: 512 bytes with a front, fields or records, and two check sums.
// Each `as` keeps its number, which the check proves; `try_from` would add an error that never comes.

ghost use Rattle.std.specs.Prelude.{◌≡◌, ◌+◌, ◌<◌, ◌≤◌, length, take};
ghost use Rattle.std.specs.List.{flat_map};
ghost use Rattle.lists.specs.Writes.{over};
ghost use Rattle.lists.specs.Places.{first_fault};
ghost use Rattle.blockfile.specs.Blocks.{kind_byte, front as front_bytes, header_front, section_front, first_check, second_check, sealed, header, entry_of, section_block, row_in, checks_hold};
ghost use Rattle.blockfile.specs.Judging.{front_judged, unused_judged, blocks_for, sizes_judged, header_judged, good_row, record_judged, sections_judged, at_block};

use crate::fault::{BlockFault, Flaw};
use crate::numbers::Numbers;
use crate::row::Row;
use lists::{field, put};

pub(crate) const BLOCK: usize = 512;

pub(crate) const RECORDS: usize = 41;

pub(crate) type Block = [u8; BLOCK];

// What a block is; a byte of its front says so.
#[derive(Clone, Copy)]
enum Kind {
    Header = 1,
    Sections = 2,
}

impl From<Kind> for u8 {
    ghost from_gives = { λ kind byte. byte ≡ kind_byte kind };

    fn from(kind: Kind) -> u8 {
        kind as u8
    }
}

// What the eight bytes say that every block begins with; each measure gives its own code, so no enum has them all.
#[derive(Clone, Copy)]
struct Front {
    number: u32,
    count: u16,
    kind: Kind,
    code: u8,
}

impl Front {
    fn of_header(code: u8) -> Front
        ensures { result ≡ header_front code }
    {
        Front {
            number: 0,
            count: 0,
            kind: Kind::Header,
            code,
        }
    }

    fn of_sections(number: u32, count: u16, code: u8) -> Front
        ensures { result ≡ section_front number count code }
    {
        Front {
            number,
            count,
            kind: Kind::Sections,
            code,
        }
    }

    fn put_in(self, block: &mut Block)
        ensures { block.new ≡ over block.old 0 (front_bytes self) }
    {
        put(block, 0, &self.number.to_le_bytes());
        put(block, 4, &self.count.to_le_bytes());
        put(block, 6, &[u8::from(self.kind), self.code]);
    }

    // Judges check sums, block number, kind, measure and record count, in this order.
    fn check(self, block: &Block) -> Result<(), Flaw>
        ensures { result ≡ front_judged block.now self }
    {
        if !checks_hold(block) {
            return Err(Flaw::Check);
        }
        if field(block, 0, 4) != u64::from(self.number) {
            return Err(Flaw::Number);
        }
        if block[6] != u8::from(self.kind) {
            return Err(Flaw::Kind);
        }
        if block[7] != self.code {
            return Err(Flaw::Measure);
        }
        if field(block, 4, 2) != u64::from(self.count) {
            return Err(Flaw::Count);
        }
        Ok(())
    }
}

// The two check sums over the words of the first 508 bytes: the second adds up the sums that the first goes through.
fn checks(block: &Block) -> (u16, u16)
    ensures first { result.0 ≡ first_check block.now }
    ensures second { result.1 ≡ second_check block.now }
{
    let mut plain: u64 = 0;
    let mut weighted: u64 = 0;
    for word in block[..508].as_chunks::<2>().0 {
        plain += u64::from(u16::from_le_bytes(*word));
        weighted += plain;
    }
    ((plain % 65535) as u16, (weighted % 65535) as u16)
}

// Writes the check sums of the first 508 bytes behind them.
fn seal(block: &mut Block)
    ensures { block.new ≡ sealed (take 508 block.old) }
{
    let (first, second) = checks(block);
    put(block, 508, &first.to_le_bytes());
    put(block, 510, &second.to_le_bytes());
}

// Puts in the twelve bytes of a record.
fn put_row(block: &mut Block, at: usize, row: Row)
    requires { at + 12 ≤ 512 }
    ensures { block.new ≡ over block.old at (entry_of row) }
{
    put(block, at, &row.low.to_le_bytes());
    put(block, at + 2, &row.high.to_le_bytes());
    put(block, at + 4, &row.number.to_le_bytes());
}

// Puts in the records of a section block, one behind the other.
fn put_rows(block: &mut Block, rows: &[Row])
    requires { length rows.now ≤ 41 }
    ensures { block.new ≡ over block.old 8 (flat_map entry_of rows.now) }
{
    for (place, row) in rows.iter().enumerate() {
        put_row(block, 8 + 12 * place, *row);
    }
}

// Fills a part of a file with the header of `n` stations and `total` sections. A rule of the project: each block is filled as
// its own part of the buffer, so that two writers ask for its length.
pub(crate) fn write_header(out: &mut [u8], n: u16, code: u8, total: u32)
    requires { length out.old ≡ 512 }
    ensures { out.new ≡ header n code total }
{
    let mut block = [0; BLOCK];
    Front::of_header(code).put_in(&mut block);
    put(&mut block, 8, &n.to_le_bytes());
    put(&mut block, 10, &total.to_le_bytes());
    seal(&mut block);
    out.copy_from_slice(&block);
}

// Fills a part of a file with the section block of that number.
pub(crate) fn write_sections(out: &mut [u8], number: u32, code: u8, rows: &[Row])
    requires long { length out.old ≡ 512 }
    requires few { length rows.now ≤ 41 }
    ensures { out.new ≡ section_block code number rows.now }
{
    let mut block = [0; BLOCK];
    Front::of_sections(number, rows.len() as u16, code).put_in(&mut block);
    put_rows(&mut block, rows);
    seal(&mut block);
    out.copy_from_slice(&block);
}

// The stored check sums are those of the words; a stored 65,535 is none.
fn checks_hold(block: &Block) -> bool
    ensures { result ≡ checks_hold block.now }
{
    let (first, second) = checks(block);
    field(block, 508, 2) == u64::from(first) && field(block, 510, 2) == u64::from(second)
}

// The bytes from `start` on hold no field: they have to be zero.
fn check_unused(block: &Block, start: usize) -> Result<(), Flaw>
    ensures { result ≡ unused_judged block.now start }
{
    match (start..508).find(|&at| block[at] != 0) {
        None => Ok(()),
        Some(at) => Err(Flaw::Unused(at)),
    }
}

// How many blocks hold `total` sections.
pub(crate) fn section_blocks(total: usize) -> usize
    ensures { result ≡ blocks_for total }
{
    total.div_ceil(RECORDS)
}

// The row at a place of a section block.
pub(crate) fn row_in(block: &Block, place: usize) -> Row
    requires { place < 41 }
    ensures { result ≡ row_in block.now place }
{
    let at = 8 + 12 * place;
    Row {
        low: field(block, at, 2) as u16,
        high: field(block, at + 2, 2) as u16,
        number: field(block, at + 4, 8),
    }
}

// Where a section block stands in its file: its number, how many records it has, and the row before them.
#[derive(Clone, Copy)]
pub(crate) struct Place {
    pub(crate) number: u32,
    pub(crate) count: u16,
    pub(crate) before: Option<Row>,
    ghost few: { count ≤ 41 },
}

// What the reader expects of a whole file: its number of stations and its measure.
#[derive(Clone, Copy)]
pub(crate) struct Reader {
    pub(crate) stations: usize,
    pub(crate) code: u8,
}

impl Reader {
    // Judges the number of stations, and then the total against the number of blocks.
    fn check_sizes(self, block: &Block, blocks: usize) -> Result<(), Flaw>
        ensures { result ≡ sizes_judged self.stations blocks block.now }
    {
        if field(block, 8, 2) != self.stations as u64 {
            return Err(Flaw::Stations);
        }
        if 1 + section_blocks(field(block, 10, 4) as usize) != blocks {
            return Err(Flaw::Total);
        }
        Ok(())
    }

    fn judge_header(self, block: &Block, blocks: usize) -> Result<(), Flaw>
        ensures { result ≡ header_judged self.stations self.code blocks block.now }
    {
        Front::of_header(self.code).check(block)?;
        self.check_sizes(block, blocks)?;
        check_unused(block, 14)
    }

    // Judges the header of a file of that many blocks.
    pub(crate) fn check_header(self, block: &Block, blocks: usize) -> Result<(), BlockFault>
        ensures { result ≡ at_block 0 (header_judged self.stations self.code blocks block.now) }
    {
        self.judge_header(block, blocks)
            .map_err(|flaw| BlockFault { block: 0, flaw })
    }

    // A row is good: two stations, lower first, a number that reads back, and behind the row before it.
    fn is_good<N: Numbers>(self, row: Row, before: Option<Row>) -> bool
        ensures { result ≡ good_row self.stations N.Numbers.readable before row }
    {
        let follows = before.is_none_or(|last| last.is_ahead_of(row));
        let readable = N::is_readable(row.number);
        row.low < row.high && usize::from(row.high) < self.stations && readable && follows
    }

    // Judges the records in order; a fault names the first byte of its record, so their places are counted.
    fn check_records<N: Numbers>(self, block: &Block, place: Place) -> Result<(), Flaw>
        ensures { result ≡ first_fault (record_judged self.stations N.Numbers.readable place.before block.now) place.count 0 }
    {
        let mut last = place.before;
        for i in 0..usize::from(place.count) {
            let row = row_in(block, i);
            if !self.is_good::<N>(row, last) {
                return Err(Flaw::Record(8 + 12 * i));
            }
            last = Some(row);
        }
        Ok(())
    }

    fn judge_sections<N: Numbers>(self, block: &Block, place: Place) -> Result<(), Flaw>
        ensures { result ≡ sections_judged self.stations N.Numbers.readable self.code place.number place.count place.before block.now }
    {
        Front::of_sections(place.number, place.count, self.code).check(block)?;
        check_unused(block, 8 + 12 * usize::from(place.count))?;
        self.check_records::<N>(block, place)
    }

    // Judges the section block that stands at that place.
    pub(crate) fn check_sections<N: Numbers>(
        self,
        block: &Block,
        place: Place,
    ) -> Result<(), BlockFault>
        ensures { result ≡ at_block place.number (sections_judged self.stations N.Numbers.readable self.code place.number place.count place.before block.now) }
    {
        let number = place.number as usize;
        self.judge_sections::<N>(block, place)
            .map_err(|flaw| BlockFault {
                block: number,
                flaw,
            })
    }
}
