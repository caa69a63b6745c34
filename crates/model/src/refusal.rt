// Why a call is refused. Of several causes that hold at once the one with the smaller number is given.

ghost use Rattle.std.specs.Prelude.{◌≡◌};
ghost use Rattle.model.specs.Refusals.{number_of};

use std::error::Error;
use std::fmt;

#[derive(Clone, Copy, PartialEq, Eq, Debug)]
pub enum Refusal {
    Unfit = 1,
    NoStation = 2,
    EqualEnds = 3,
    UnfitWeight = 4,
    NoSection = 5,
    SectionsFull = 6,
    Stale = 7,
    BadSettings = 8,
    LegsFull = 9,
    LabelsFull = 10,
    FileLength = 11,
    CheckSum = 12,
    BlockNumber = 13,
    BlockKind = 14,
    RecordCount = 15,
    UnusedByte = 16,
    BadRecord = 17,
}

impl Refusal {
    pub fn number(self) -> u8
        ensures { result ≡ number_of self }
    {
        self as u8
    }

    // The cause in words that a planner understands.
    fn sentence(self) -> &'static str {
        match self {
            Refusal::Unfit => "the number of stations or a table does not fit",
            Refusal::NoStation => "there is no such station",
            Refusal::EqualEnds => "a section needs two different ends",
            Refusal::UnfitWeight => "the weight is not fit for a section",
            Refusal::NoSection => "there is no such section",
            Refusal::SectionsFull => "the section table has no room",
            Refusal::Stale => "the index is stale and has to be built first",
            Refusal::BadSettings => "the settings are outside their limits",
            Refusal::LegsFull => "the leg table has no room",
            Refusal::LabelsFull => "the label table has no room",
            Refusal::FileLength => "the length is not that of a file",
            Refusal::CheckSum => "the check sum is wrong",
            Refusal::BlockNumber => "the block number is wrong",
            Refusal::BlockKind => "the kind of block or the measure is wrong",
            Refusal::RecordCount => "a count is wrong",
            Refusal::UnusedByte => "an unused byte is not zero",
            Refusal::BadRecord => "a record is wrong or out of order",
        }
    }
}

impl fmt::Display for Refusal {
    fn fmt<W: fmt::Write>(&self, f: &mut fmt::Formatter<W>) -> fmt::Result {
        write!(f, "refused {}: {}", self.number(), self.sentence())
    }
}

impl Error for Refusal {}
