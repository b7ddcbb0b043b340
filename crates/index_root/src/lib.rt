//! The root of an index: its header, and the node that follows it.
#![tactic(auto)]

ghost use Rattle.std.specs.Prelude.{◌≡◌, ◌≤◌, length};
ghost use Rattle.index_root.specs.Root.{is_large, record_size_of, root_of};

use refusal::Refusal;

/// Where the node header stands: its offsets count from there.
const NODE_HEADER: usize = 16;

/// The bytes of a root before any entry.
const HEADER_SIZE: usize = 32;

const LARGE: u8 = 0x01;

/// A root that was seen: its entries start within its bytes, which go to its used end.
#[derive(Clone, Copy, Debug, PartialEq, Eq)]
pub struct IndexRoot<'a> {
    /// The root up to its used end.
    pub bytes: &'a [u8],
    /// Where its entries start.
    pub start: usize,
    /// How many bytes an index record has.
    pub record_size: usize,
    /// Whether the index has records besides its root.
    pub large: bool,
    ghost start_within: { start ≤ length bytes.now },
}

/// How many bytes an index record has, as the root says.
pub fn index_record_size(root: &[u8]) -> usize
    ensures { result ≡ record_size_of root.now }
{
    le::le32(root, 8) as usize
}

/// Whether the index has records besides its root.
pub fn is_large_index(root: &[u8]) -> bool
    ensures { result ≡ is_large root.now }
{
    root.get(28).is_some_and(|flags| flags & LARGE != 0)
}

#[tactic(auto, unfolding(crate::specs::Root::root_of))]
impl<'a> IndexRoot<'a> {
    ghost use Rattle.index_root.specs.IndexRoot.{root_seen, read};

    /// Reads a root: 1 to 4.
    pub fn new(root: &'a [u8]) -> Result<IndexRoot<'a>, Refusal>
        ensures { read result ≡ root_of root.now }
    {
        if root.len() < HEADER_SIZE {
            return Err(Refusal::RootTooShort);
        }
        let start = NODE_HEADER + le::le32(root, 16) as usize;
        let end = NODE_HEADER + le::le32(root, 20) as usize;
        if root.len() <= start {
            return Err(Refusal::RootStartOutside);
        }
        let bytes = root.get(..end).ok_or(Refusal::RootEndOutside)?;
        if end < start {
            return Err(Refusal::RootStartPastEnd);
        }
        Ok(IndexRoot {
            bytes,
            start,
            record_size: index_record_size(root),
            large: is_large_index(root),
        })
    }
}
