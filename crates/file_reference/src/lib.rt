//! A reference to a file record: eight bytes, record number and sequence.
#![tactic(auto)]

ghost use Rattle.std.specs.Prelude.{◌≡◌};
ghost use Rattle.file_reference.specs.Reference.{reference_of, record_number_of, sequence_of};

/// A file's record number in the low 48 bits, its sequence in the 16 above.
#[derive(Clone, Copy, Debug, PartialEq, Eq, PartialOrd, Ord, Hash)]
pub struct FileReference {
    pub raw: u64,
}

impl FileReference {
    /// 2 ^ 48: the record number lies below, the sequence above.
    pub const SPLIT: u64 = 0x1_0000_0000_0000;

    /// The reference that bytes begin with.
    #[tactic(auto, unfolding(crate::specs::Reference::reference_of))]
    pub fn from_bytes(bytes: &[u8]) -> Self
        ensures { result ≡ reference_of bytes.now }
    {
        Self {
            raw: le::le64(bytes, 0),
        }
    }

    /// The number of the file's record.
    pub fn file_record_number(self) -> u64
        ensures { result ≡ record_number_of self }
    {
        self.raw % Self::SPLIT
    }

    /// How often that record was used before.
    pub fn sequence_number(self) -> u16
        ensures { result ≡ sequence_of self }
    {
        (self.raw / Self::SPLIT) as u16
    }
}
