ghost use Rattle.std.specs.Prelude.{◌≡◌, ◌<◌, false, OnOk, OnSome, IfOk};
ghost use Rattle.index_entry.specs.IndexEntry.{entry_bytes};
ghost use Rattle.directory.specs.Directory.{passed, records_in, root_node, node_bytes, placed, wanted, opening, subnode, again};

use crate::node::Node;
use crate::place::Place;
use index_allocation::{IndexAllocation, PlacedRecord};
use index_entry::IndexEntry;
use index_root::IndexRoot;
use refusal::Refusal;

/// What is lent: the root, the pool of records, and the size of a cluster.
#[derive(Clone, Copy, Debug, PartialEq, Eq)]
pub struct Directory<'a> {
    /// The bytes of the index root.
    pub root: &'a [u8],
    /// The records of the index allocation, one after another; empty where there is none.
    pub pool: &'a [u8],
    /// How many bytes a VCN counts.
    pub cluster_size: usize,
}

/// A directory that passed 1 to 7.
#[derive(Clone, Copy, Debug, PartialEq, Eq)]
pub struct OpenDirectory<'a> {
    root: IndexRoot<'a>,
    allocation: Option<IndexAllocation<'a>>,
}

#[tactic(auto, unfolding(crate::specs::Directory::passed))]
impl<'a> Directory<'a> {
    ghost use Rattle.directory.specs.Seen.{lent, opened};

    /// What every walk begins with: 1 to 7.
    pub fn open(&self) -> Result<OpenDirectory<'a>, Refusal>
        ensures { opened result ≡ passed (lent self.now) }
    {
        let root = IndexRoot::new(self.root)?;
        if self.pool.is_empty() {
            if root.large {
                return Err(Refusal::LargeWithoutPool);
            }
            return Ok(OpenDirectory {
                root,
                allocation: None,
            });
        }
        let allocation = IndexAllocation::new(self.pool, root.record_size, self.cluster_size)?;
        Ok(OpenDirectory {
            root,
            allocation: Some(allocation),
        })
    }
}

#[tactic(auto, unfolding(crate::specs::Directory::placed, crate::specs::Directory::wanted, crate::specs::Directory::opening, crate::specs::Directory::subnode, crate::specs::Directory::again))]
impl<'a> OpenDirectory<'a> {
    ghost use Rattle.index_allocation.specs.IndexAllocation.{found};
    ghost use Rattle.directory.specs.Seen.{directory_seen, node_seen, read, below, lent_bytes};

    /// The root as a node.
    pub fn root_node(&self) -> Node<'a>
        ensures { node_seen result ≡ root_node (directory_seen self.now) }
    {
        let bytes = self.root.bytes;
        Node {
            bytes,
            start: self.root.start,
            end: bytes.len(),
            place: Place::Root,
        }
    }

    /// How many records there are.
    pub fn records(&self) -> usize
        ensures { result ≡ records_in (directory_seen self.now).allocation }
    {
        match self.allocation {
            Some(allocation) => allocation.records(),
            None => 0,
        }
    }

    /// The bytes of a node, out of the root or of the pool, whichever holds it.
    pub fn node_bytes(&self, place: Place) -> Option<&'a [u8]>
        ensures { lent_bytes result ≡ node_bytes (directory_seen self.now) place }
    {
        match place {
            Place::Root => Some(self.root.bytes),
            Place::Record { number, vcn: _ } => self.allocation?.record(number),
        }
    }

    /// The record that a VCN leads to: 13.
    fn place_in(&self, vcn: i64) -> Result<PlacedRecord<'a>, Refusal>
        ensures is { found result ≡ placed (directory_seen self.now).allocation vcn }
        ensures within { IfOk result (λ it. it.number < records_in (directory_seen self.now).allocation) }
    {
        self.allocation.ok_or(Refusal::VcnNowhere)?.place(vcn)
    }

    /// The record that a subnode is, with so many levels left: 10 to 13.
    pub fn place(&self, left: usize, spent: bool, vcn: i64) -> Result<PlacedRecord<'a>, Refusal>
        ensures is { found result ≡ wanted (directory_seen self.now).allocation left spent vcn }
        ensures within { IfOk result (λ it. it.number < records_in (directory_seen self.now).allocation) }
        ensures allowed { OnOk result ((0 < left) × (spent ≡ false)) }
    {
        if self.allocation.is_none() {
            return Err(Refusal::SubnodeWithoutPool);
        }
        if left == 0 {
            return Err(Refusal::TooManyLevels);
        }
        if spent {
            return Err(Refusal::AllowanceSpent);
        }
        self.place_in(vcn)
    }

    /// A subnode, opened: 10 to 17.
    fn open_subnode(&self, left: usize, spent: bool, vcn: i64) -> Result<Node<'a>, Refusal>
        ensures is { read result ≡ opening (directory_seen self.now) left spent vcn }
        ensures allowed { OnOk result ((0 < left) × (spent ≡ false)) }
    {
        Node::read(self.place(left, spent, vcn)?)
    }

    /// An entry's subnode, if it has one, opened: 9, then 10 to 17.
    pub fn open_below(
        &self,
        left: usize,
        spent: bool,
        entry: &IndexEntry,
    ) -> Result<Option<Node<'a>>, Refusal>
        ensures is { below result ≡ subnode (directory_seen self.now) left spent (entry_bytes entry.now) }
        ensures allowed { IfOk result (λ node. OnSome node ((0 < left) × (spent ≡ false))) }
    {
        let Some(vcn) = entry.subnode_vcn()? else {
            return Ok(None);
        };
        let node = self.open_subnode(left, spent, vcn)?;
        Ok(Some(node))
    }

    /// A record that was opened before: 13 to 17.
    pub fn open_again(&self, vcn: i64) -> Result<Node<'a>, Refusal>
        ensures { read result ≡ again (directory_seen self.now) vcn }
    {
        Node::read(self.place_in(vcn)?)
    }
}
