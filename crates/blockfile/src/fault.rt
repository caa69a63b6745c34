// What is wrong with a file, and where.

ghost use Rattle.std.specs.Prelude.{◌≡◌};
ghost use Rattle.blockfile.specs.declared.fault.FileFault.TheVariants.{Block};
ghost use Rattle.blockfile.specs.Faults.{refusal_in_block, byte_in_block, refusal_of, block_of, byte_of};

use model::refusal::Refusal;
use std::error::Error;
use std::fmt;
use std::fmt::Display;

// What is wrong with a block, in the order in which a block is judged; an unused byte or a record is named by its first byte.
#[derive(Clone, Copy, PartialEq, Eq, Debug)]
pub enum Flaw {
    Check,
    Number,
    Kind,
    Measure,
    Count,
    // The header is of another number of stations.
    Stations,
    // The header's total of sections does not fit the length of the file.
    Total,
    Unused(usize),
    Record(usize),
}

// The fault of the block layer: which block, and what is wrong with it.
#[derive(Clone, Copy, PartialEq, Eq, Debug)]
pub struct BlockFault {
    pub block: usize,
    pub flaw: Flaw,
}

// The fault of the file layer, which carries that of the block layer whole.
#[derive(Clone, Copy, PartialEq, Eq, Debug)]
pub enum FileFault {
    // The number of stations or a table of the reader is unfit.
    Unfit,
    // The file has more sections than the reader's table holds.
    SectionsFull,
    // The length is no positive multiple of 512, or too short for what is written.
    Length,
    Block(BlockFault),
}

impl From<BlockFault> for FileFault {
    ghost from_gives = { λ b f. f ≡ Block b };

    fn from(inner: BlockFault) -> FileFault {
        FileFault::Block(inner)
    }
}

impl From<Flaw> for Refusal {
    ghost from_gives = { λ flaw refusal. refusal ≡ refusal_in_block flaw };

    fn from(flaw: Flaw) -> Refusal {
        match flaw {
            Flaw::Check => Refusal::CheckSum,
            Flaw::Number => Refusal::BlockNumber,
            Flaw::Kind | Flaw::Measure => Refusal::BlockKind,
            Flaw::Count | Flaw::Stations | Flaw::Total => Refusal::RecordCount,
            Flaw::Unused(_) => Refusal::UnusedByte,
            Flaw::Record(_) => Refusal::BadRecord,
        }
    }
}

impl From<FileFault> for Refusal {
    ghost from_gives = { λ fault refusal. refusal ≡ refusal_of fault };

    fn from(fault: FileFault) -> Refusal {
        match fault {
            FileFault::Unfit => Refusal::Unfit,
            FileFault::SectionsFull => Refusal::SectionsFull,
            FileFault::Length => Refusal::FileLength,
            FileFault::Block(BlockFault { flaw, .. }) => Refusal::from(flaw),
        }
    }
}

impl Flaw {
    fn byte(self) -> usize
        ensures { result ≡ byte_in_block self }
    {
        match self {
            Flaw::Check => 508,
            Flaw::Number => 0,
            Flaw::Kind => 6,
            Flaw::Measure => 7,
            Flaw::Count => 4,
            Flaw::Stations => 8,
            Flaw::Total => 10,
            Flaw::Unused(at) | Flaw::Record(at) => at,
        }
    }
}

impl FileFault {
    pub fn refusal(self) -> Refusal
        ensures { result ≡ refusal_of self }
    {
        Refusal::from(self)
    }

    pub fn block(self) -> usize
        ensures { result ≡ block_of self }
    {
        match self {
            FileFault::Unfit | FileFault::SectionsFull | FileFault::Length => 0,
            FileFault::Block(fault) => fault.block,
        }
    }

    // The first byte in the block that the fault is about.
    pub fn byte(self) -> usize
        ensures { result ≡ byte_of self }
    {
        match self {
            FileFault::Unfit | FileFault::Length => 0,
            FileFault::SectionsFull => 10,
            FileFault::Block(fault) => fault.flaw.byte(),
        }
    }
}

impl fmt::Display for FileFault {
    fn fmt<W: fmt::Write>(&self, f: &mut fmt::Formatter<W>) -> fmt::Result {
        let refusal = self.refusal();
        let block = self.block();
        let byte = self.byte();
        write!(f, "{refusal} (block {block}, byte {byte})")
    }
}

impl Error for FileFault {}
