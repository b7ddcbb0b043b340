//! The numbered refusals: every answer of the product that is no result is one of these.
#![tactic(auto)]

ghost use Rattle.std.specs.Prelude.{◌≡◌};
ghost use Rattle.refusal.specs.Number.{number_of};

use thiserror::Error;

/// Why no result is given. A refusal's number is its discriminant.
#[derive(Clone, Copy, Debug, PartialEq, Eq, PartialOrd, Ord, Hash, Error)]
pub enum Refusal {
    #[error("root shorter than 32")]
    RootTooShort = 1,
    #[error("root entries start at or past the root's length")]
    RootStartOutside = 2,
    #[error("root used end past its length")]
    RootEndOutside = 3,
    #[error("root entries start past the used end")]
    RootStartPastEnd = 4,
    #[error("large flag, pool empty")]
    LargeWithoutPool = 5,
    #[error("record or cluster size not allowed")]
    SizeNotAllowed = 6,
    #[error("pool not whole records")]
    PoolNotWholeRecords = 7,
    #[error("fewer than 16 bytes remain for an entry, its length is under 16, or exceeds what remains")]
    EntrySize = 8,
    #[error("key or VCN ends outside the entry")]
    EntryDataRange = 9,
    #[error("subnode wanted, pool empty")]
    SubnodeWithoutPool = 10,
    #[error("subnode wanted at level 8")]
    TooManyLevels = 11,
    #[error("allowance spent: as many records opened as allowed, or more")]
    AllowanceSpent = 12,
    #[error("VCN lies nowhere")]
    VcnNowhere = 13,
    #[error("signature not INDX")]
    Signature = 14,
    #[error("24 + allocated size over record size")]
    AllocatedSize = 15,
    #[error("index size over allocated size")]
    IndexSize = 16,
    #[error("own VCN not the wanted one")]
    OwnVcn = 17,
    #[error("key unreadable as a file name")]
    KeyUnreadable = 18,
    #[error("table not 65,536 units")]
    TableLength = 19,
    #[error("name over 255 units")]
    NameTooLong = 20,
    #[error("marks shorter than the number of records")]
    MarksTooShort = 21,
    #[error("record reached twice")]
    ReachedTwice = 22,
    #[error("node's end wrong")]
    NodeEnd = 23,
    #[error("entry without LAST_ENTRY has no key")]
    KeyMissing = 24,
    #[error("name less than the one listed before it")]
    NameFalls = 25,
    #[error("malformed capture")]
    MalformedCapture = 26,
}

/// A refused walk: why, and how many records were opened before.
#[derive(Clone, Copy, Debug, PartialEq, Eq, PartialOrd, Ord, Hash, Error)]
#[error("{refusal}")]
pub struct Fault {
    /// Why it was refused.
    pub refusal: Refusal,
    /// How many records were opened before.
    pub opened: u64,
}

/// A number that no refusal has.
#[derive(Clone, Copy, Debug, PartialEq, Eq, Error)]
#[error("no refusal has the number {0}")]
pub struct UnknownRefusal(pub u8);

impl Refusal {
    /// Its number, 1 to 26.
    pub fn number(self) -> u8
        ensures { result ≡ number_of self }
    {
        self as u8
    }
}

impl TryFrom<u8> for Refusal {
    ghost use Rattle.refusal.specs.Number.{IsRefusalNumbered};

    type Error = UnknownRefusal;

    ghost try_from_gives = { IsRefusalNumbered };

    fn try_from(number: u8) -> Result<Refusal, UnknownRefusal> {
        Ok(match number {
            1 => Refusal::RootTooShort,
            2 => Refusal::RootStartOutside,
            3 => Refusal::RootEndOutside,
            4 => Refusal::RootStartPastEnd,
            5 => Refusal::LargeWithoutPool,
            6 => Refusal::SizeNotAllowed,
            7 => Refusal::PoolNotWholeRecords,
            8 => Refusal::EntrySize,
            9 => Refusal::EntryDataRange,
            10 => Refusal::SubnodeWithoutPool,
            11 => Refusal::TooManyLevels,
            12 => Refusal::AllowanceSpent,
            13 => Refusal::VcnNowhere,
            14 => Refusal::Signature,
            15 => Refusal::AllocatedSize,
            16 => Refusal::IndexSize,
            17 => Refusal::OwnVcn,
            18 => Refusal::KeyUnreadable,
            19 => Refusal::TableLength,
            20 => Refusal::NameTooLong,
            21 => Refusal::MarksTooShort,
            22 => Refusal::ReachedTwice,
            23 => Refusal::NodeEnd,
            24 => Refusal::KeyMissing,
            25 => Refusal::NameFalls,
            26 => Refusal::MalformedCapture,
            _ => return Err(UnknownRefusal(number)),
        })
    }
}

impl From<Refusal> for u8 {
    ghost from_gives = { λ refusal number. number ≡ number_of refusal };

    fn from(refusal: Refusal) -> u8 {
        refusal.number()
    }
}
