// The refusals of document 01's table.
ghost use Rattle.std.specs.Prelude.{◌≡◌};
ghost use Rattle.foundation.specs.Refusals.{refusal_number, number_given, numbered};

use std::error::Error;
use std::fmt;

// Why an answer is refused. The discriminant is the number of the table.
#[derive(Clone, Copy, Debug, PartialEq, Eq)]
pub enum Refusal {
    Size = 1,
    Prefix = 2,
    FrameType = 3,
    SlotType = 4,
    DataType = 5,
    Uncorrectable = 6,
    Reserved = 7,
    HeaderCheck = 8,
    Format = 9,
    NotForUs = 10,
    BlockCount = 11,
    NoTransaction = 12,
    BlockCheck = 13,
    Serial = 14,
    OtherOctets = 15,
    Unwritable = 16,
    StoredCheck = 17,
    StoredLayout = 18,
    OtherAddress = 19,
}

impl Refusal {
    // The number of the table.
    pub fn number(self) -> u8
        ensures { result ≡ refusal_number self }
    {
        self as u8
    }
}

// The number of what is given, 0 for an answer.
#[tactic(auto, unfolding(crate::specs::Refusals::number_given))]
pub fn number_of<T>(given: &Result<T, Refusal>) -> u8
    ensures { result ≡ number_given given.now }
{
    match given {
        Ok(_) => 0,
        Err(refusal) => refusal.number(),
    }
}

impl fmt::Display for Refusal {
    fn fmt<W: fmt::Write>(&self, f: &mut fmt::Formatter<W>) -> fmt::Result {
        f.write_str(match self {
            Refusal::Size => "wrong size, or a receiver that there can't be",
            Refusal::Prefix => "the prefix isn't DMRD",
            Refusal::FrameType => "the frame type isn't 2",
            Refusal::SlotType => "no slot-type codeword within 3 bits",
            Refusal::DataType => "the data type isn't that of the slot type, or neither 6 nor 7",
            Refusal::Uncorrectable => "the block field can't be corrected",
            Refusal::Reserved => "a reserved bit is 1",
            Refusal::HeaderCheck => "the header's check fails",
            Refusal::Format => "the header's format isn't known",
            Refusal::NotForUs => "not a confirmed header for this receiver",
            Refusal::BlockCount => "the block count or the pad is out of range",
            Refusal::NoTransaction => "no transaction that fits",
            Refusal::BlockCheck => "the block's check fails",
            Refusal::Serial => "the serial number is past the last block",
            Refusal::OtherOctets => "the block differs from the held one of its number",
            Refusal::Unwritable => "a value is outside its width",
            Refusal::StoredCheck => "a stored block's check fails",
            Refusal::StoredLayout => "the stored contents break the layout",
            Refusal::OtherAddress => "stored for another address",
        })
    }
}

impl Error for Refusal {}

// A number that the table has not.
#[derive(Clone, Copy, Debug, PartialEq, Eq)]
pub struct NotInTable(pub u8);

impl fmt::Display for NotInTable {
    fn fmt<W: fmt::Write>(&self, f: &mut fmt::Formatter<W>) -> fmt::Result {
        write!(f, "the table has no number {}", self.0)
    }
}

impl Error for NotInTable {}

impl TryFrom<u8> for Refusal {
    type Error = NotInTable;

    ghost try_from_gives = { λ number r. r ≡ numbered number };

    #[tactic(auto, unfolding(crate::specs::Refusals::numbered, crate::specs::Refusals::refusal))]
    fn try_from(number: u8) -> Result<Refusal, NotInTable> {
        Ok(match number {
            1 => Refusal::Size,
            2 => Refusal::Prefix,
            3 => Refusal::FrameType,
            4 => Refusal::SlotType,
            5 => Refusal::DataType,
            6 => Refusal::Uncorrectable,
            7 => Refusal::Reserved,
            8 => Refusal::HeaderCheck,
            9 => Refusal::Format,
            10 => Refusal::NotForUs,
            11 => Refusal::BlockCount,
            12 => Refusal::NoTransaction,
            13 => Refusal::BlockCheck,
            14 => Refusal::Serial,
            15 => Refusal::OtherOctets,
            16 => Refusal::Unwritable,
            17 => Refusal::StoredCheck,
            18 => Refusal::StoredLayout,
            19 => Refusal::OtherAddress,
            _ => return Err(NotInTable(number)),
        })
    }
}
