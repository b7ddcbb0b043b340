ghost use Rattle.std.specs.Prelude.{◌≡◌, ◌≤◌, ◌+◌, length, IfOk};
ghost use Rattle.file_reference.specs.Reference.{reference_of};
ghost use Rattle.index_entry.specs.Entry.{
  entry_at,
  entry_length_of,
  key_length_of,
  flags_of,
  has_subnode,
  is_last,
  key_of,
  vcn_start,
  subnode_of,
};

use file_reference::FileReference;
use refusal::Refusal;

/// The bytes of an entry before any key.
const HEADER_SIZE: usize = 16;

const HAS_SUBNODE: u8 = 0x01;

const LAST_ENTRY: u8 = 0x02;

/// An entry of a node: that very part of the node's bytes. Its methods answer for any bytes.
#[derive(Clone, Copy, Debug, PartialEq, Eq)]
pub struct IndexEntry<'a> {
    pub bytes: &'a [u8],
}

#[tactic(auto, unfolding(crate::specs::Entry::entry_at, crate::specs::Entry::key_of, crate::specs::Entry::subnode_of, crate::specs::Entry::is_last, crate::specs::Entry::has_subnode))]
impl<'a> IndexEntry<'a> {
    ghost use Rattle.index_entry.specs.IndexEntry.{entry_bytes, made, lent};

    /// The entry that begins at `at` of a node's bytes, or 8.
    pub fn new(node: &'a [u8], at: usize) -> Result<IndexEntry<'a>, Refusal>
        ensures is { made result ≡ entry_at node.now at }
        ensures inside { IfOk result (λ entry. at + length (entry_bytes entry) ≤ length node.now) }
        ensures header { IfOk result (λ entry. 16 ≤ length (entry_bytes entry)) }
    {
        let rest = node.get(at..).ok_or(Refusal::EntrySize)?;
        if rest.len() < HEADER_SIZE {
            return Err(Refusal::EntrySize);
        }
        let length = usize::from(u16::from_le_bytes([rest[8], rest[9]]));
        if length < HEADER_SIZE {
            return Err(Refusal::EntrySize);
        }
        let bytes = rest.get(..length).ok_or(Refusal::EntrySize)?;
        Ok(IndexEntry { bytes })
    }

    /// The file that the entry refers to.
    pub fn file_reference(&self) -> FileReference
        ensures { result ≡ reference_of (entry_bytes self.now) }
    {
        FileReference::from_bytes(self.bytes)
    }

    /// Its length in bytes, header and all, as it says itself.
    pub fn index_entry_length(&self) -> u16
        ensures { result ≡ entry_length_of (entry_bytes self.now) }
    {
        le::le16(self.bytes, 8)
    }

    /// Its key's length in bytes, as it says itself.
    pub fn key_length(&self) -> u16
        ensures { result ≡ key_length_of (entry_bytes self.now) }
    {
        le::le16(self.bytes, 10)
    }

    /// Its flags: 0x01 HAS_SUBNODE, 0x02 LAST_ENTRY.
    pub fn flags(&self) -> u8
        ensures { result ≡ flags_of (entry_bytes self.now) }
    {
        self.bytes.get(12).copied().unwrap_or(0)
    }

    /// Whether a subnode lies before it.
    pub fn has_subnode(&self) -> bool
        ensures { result ≡ has_subnode (entry_bytes self.now) }
    {
        self.flags() & HAS_SUBNODE != 0
    }

    /// Whether it is the one that ends its node: it has no key.
    pub fn is_last_entry(&self) -> bool
        ensures { result ≡ is_last (entry_bytes self.now) }
    {
        self.flags() & LAST_ENTRY != 0
    }

    /// The key, if the entry has one, as that very part of the entry; or 9.
    pub fn key(&self) -> Result<Option<&'a [u8]>, Refusal>
        ensures { lent result ≡ key_of (entry_bytes self.now) }
    {
        let length = usize::from(self.key_length());
        if length == 0 || self.is_last_entry() {
            return Ok(None);
        }
        let key = self
            .bytes
            .get(HEADER_SIZE..HEADER_SIZE + length)
            .ok_or(Refusal::EntryDataRange)?;
        Ok(Some(key))
    }

    /// At the very end of the entry, but past the header.
    fn vcn_start(&self) -> usize
        ensures { result ≡ vcn_start (entry_bytes self.now) }
    {
        self.bytes.len().saturating_sub(8).max(HEADER_SIZE)
    }

    /// Where the entry's subnode is, if it has one; or 9.
    pub fn subnode_vcn(&self) -> Result<Option<i64>, Refusal>
        ensures { result ≡ subnode_of (entry_bytes self.now) }
    {
        if !self.has_subnode() {
            return Ok(None);
        }
        let start = self.vcn_start();
        if self.bytes.len() < start + 8 {
            return Err(Refusal::EntryDataRange);
        }
        Ok(Some(le::signed_le64(self.bytes, start)))
    }
}
