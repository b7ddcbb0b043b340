//! A record of an index, "INDX", its update sequence undone before: one node.
#![tactic(auto)]

ghost use Rattle.std.specs.Prelude.{◌≡◌, ◌≤◌, length};
ghost use Rattle.index_record.specs.Record.{record_of};

use refusal::Refusal;

/// Where the node header stands: its offsets count from there.
const NODE_HEADER: usize = 24;

/// "INDX".
const SIGNATURE: u32 = 0x58444e49;

/// A record that was seen: its used end is within its bytes.
#[derive(Clone, Copy, Debug, PartialEq, Eq)]
pub struct IndexRecord<'a> {
    /// The whole record.
    pub bytes: &'a [u8],
    /// Where its entries start: maybe past all that it has.
    pub start: usize,
    /// Its used end.
    pub end: usize,
    ghost end_within: { end ≤ length bytes.now },
}

#[tactic(auto, unfolding(crate::specs::Record::record_of))]
impl<'a> IndexRecord<'a> {
    ghost use Rattle.index_record.specs.IndexRecord.{record_seen, read};

    /// Reads a record that is to be the one of a VCN: 14 to 17.
    pub fn new(bytes: &'a [u8], vcn: i64) -> Result<IndexRecord<'a>, Refusal>
        ensures { read result ≡ record_of bytes.now vcn }
    {
        if le::le32(bytes, 0) != SIGNATURE {
            return Err(Refusal::Signature);
        }
        let allocated_size = le::le32(bytes, 32) as usize;
        if bytes.len() < NODE_HEADER + allocated_size {
            return Err(Refusal::AllocatedSize);
        }
        let index_size = le::le32(bytes, 28) as usize;
        if allocated_size < index_size {
            return Err(Refusal::IndexSize);
        }
        if le::signed_le64(bytes, 16) != vcn {
            return Err(Refusal::OwnVcn);
        }
        Ok(IndexRecord {
            bytes,
            start: NODE_HEADER + le::le32(bytes, 24) as usize,
            end: NODE_HEADER + index_size,
        })
    }
}
