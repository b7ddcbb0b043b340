//! A node by its name over any lent directory, and the bytes that a place names.
#![tactic(auto)]

ghost use Rattle.std.specs.Prelude.{◌≡◌};
ghost use Rattle.index_entry.specs.Entry.{entry_at, key_of};
ghost use Rattle.index_root.specs.IndexRoot.{read as root_read};
ghost use Rattle.index_allocation.specs.IndexAllocation.{found};
ghost use Rattle.directory.specs.Directory.{spent_at};
ghost use Rattle.directory.specs.Seen.{lent, read};
ghost use Rattle.index_node.specs.Node.{pool_judged, root_in, record_placed, view_of, opened_node};
ghost use Rattle.index_node.specs.Bytes.{part_of, view_bytes, node_bytes, node_start, place_bytes, bytes_of, key_bytes_of};

use directory::{Directory, Node};
use index::NodeName;
use index_allocation::{PlacedRecord, check_sizes, record_from_vcn};
use index_entry::IndexEntry;
use index_root::{IndexRoot, index_record_size};
use refusal::Refusal;

/// A root beside a pool of so many bytes: 5 to 7.
#[tactic(auto, unfolding(crate::specs::Node::pool_judged))]
pub fn check_pool(
    record_size: usize,
    large: bool,
    cluster_size: usize,
    pool: usize,
) -> Result<(), Refusal>
    ensures { result ≡ pool_judged record_size large cluster_size pool }
{
    if pool == 0 {
        if large {
            return Err(Refusal::LargeWithoutPool);
        }
        return Ok(());
    }
    check_sizes(record_size, cluster_size, pool)
}

/// A root beside a pool of so many bytes: 1 to 7.
#[tactic(auto, unfolding(crate::specs::Node::root_in))]
pub fn open_root<'a>(
    root: &'a [u8],
    cluster_size: usize,
    pool: usize,
) -> Result<IndexRoot<'a>, Refusal>
    ensures { root_read result ≡ root_in root.now cluster_size pool }
{
    let root = IndexRoot::new(root)?;
    check_pool(root.record_size, root.large, cluster_size, pool)?;
    Ok(root)
}

/// The record that a VCN leads to, whatever 1 to 7 say of the root: 13.
#[tactic(auto, unfolding(crate::specs::Node::record_placed))]
fn record_placed<'a>(directory: &Directory<'a>, vcn: i64) -> Result<PlacedRecord<'a>, Refusal>
    ensures { found result ≡ record_placed (lent directory.now) vcn }
{
    let size = index_record_size(directory.root);
    let number = record_from_vcn(vcn, directory.cluster_size, size, directory.pool.len())?;
    let start = number * size;
    Ok(PlacedRecord {
        number,
        vcn,
        bytes: &directory.pool[start..start + size],
    })
}

/// A node: the root under 1 to 7, a record under 13 to 17, whatever 1 to 7 say of the root.
#[tactic(auto, unfolding(crate::specs::Node::view_of))]
pub fn open_node<'a>(directory: &Directory<'a>, node: NodeName) -> Result<Node<'a>, Refusal>
    ensures { read result ≡ view_of (lent directory.now) node }
{
    match node {
        NodeName::Root => Ok(directory.open()?.root_node()),
        NodeName::Record(vcn) => Node::read(record_placed(directory, vcn)?),
    }
}

/// A record on the way down, with so many levels left and so many records opened: 10 to 17.
#[tactic(auto, unfolding(crate::specs::Node::opened_node, crate::specs::Node::record_placed, directory::specs::Directory::wanted))]
pub fn open_record<'a>(
    directory: &Directory<'a>,
    allowance: u64,
    opened: u64,
    left: usize,
    vcn: i64,
) -> Result<Node<'a>, Refusal>
    ensures { read result ≡ opened_node (lent directory.now) left (spent_at allowance opened) vcn }
{
    if directory.pool.is_empty() {
        return Err(Refusal::SubnodeWithoutPool);
    }
    if left == 0 {
        return Err(Refusal::TooManyLevels);
    }
    if opened >= allowance {
        return Err(Refusal::AllowanceSpent);
    }
    Node::read(record_placed(directory, vcn)?)
}

/// So many bytes from `at`, or none where they do not lie there.
///
/// The end is reckoned only past `at`, where no sum can wrap.
#[tactic(auto, unfolding(crate::specs::Bytes::part_of))]
fn part(bytes: &[u8], at: usize, size: usize) -> &[u8]
    ensures { result.now ≡ part_of bytes.now at size }
{
    let Some(rest) = bytes.get(at..) else {
        return &[];
    };
    let Some(part) = rest.get(..size) else {
        return &[];
    };
    part
}

/// A node's bytes, by where they lie in what holds it: the root, or the pool.
#[tactic(auto, unfolding(crate::specs::Bytes::view_bytes))]
pub fn node_bytes<'a>(
    directory: &Directory<'a>,
    node: NodeName,
    from: usize,
    size: usize,
) -> &'a [u8]
    ensures { result.now ≡ view_bytes (lent directory.now) node from size }
{
    match node {
        NodeName::Root => part(directory.root, from, size),
        NodeName::Record(_) => part(directory.pool, from, size),
    }
}

/// Where a node begins in what holds it, the root or the pool; 0 at a VCN that leads nowhere.
#[tactic(auto, unfolding(crate::specs::Bytes::node_start))]
pub fn node_start(directory: &Directory<'_>, node: NodeName) -> usize
    ensures { result ≡ node_start (lent directory.now) node }
{
    let NodeName::Record(vcn) = node else {
        return 0;
    };
    let size = index_record_size(directory.root);
    match record_from_vcn(vcn, directory.cluster_size, size, directory.pool.len()) {
        Ok(number) => number * size,
        Err(_) => 0,
    }
}

/// The whole node, read or not; none at a VCN that leads nowhere.
#[tactic(auto, unfolding(crate::specs::Bytes::node_bytes))]
fn whole_node<'a>(directory: &Directory<'a>, node: NodeName) -> &'a [u8]
    ensures { result.now ≡ node_bytes (lent directory.now) node }
{
    match node {
        NodeName::Root => directory.root,
        NodeName::Record(vcn) => match record_placed(directory, vcn) {
            Ok(placed) => placed.bytes,
            Err(_) => &[],
        },
    }
}

/// The bytes of an entry by its place, found anew: none where the place names none.
#[tactic(auto, unfolding(crate::specs::Bytes::place_bytes))]
pub fn place_bytes<'a>(
    directory: &Directory<'a>,
    node: NodeName,
    at: usize,
    size: usize,
) -> &'a [u8]
    ensures { result.now ≡ place_bytes (lent directory.now) node at size }
{
    part(whole_node(directory, node), at, size)
}

/// The bytes of the entry that begins at `at` of a node's, that very part; none where 8 is given.
pub fn entry_bytes(node: &[u8], at: usize) -> &[u8]
    ensures { result.now ≡ bytes_of (entry_at node.now at) }
{
    match IndexEntry::new(node, at) {
        Ok(entry) => entry.bytes,
        Err(_) => &[],
    }
}

/// An entry's key, that very part of it; none where there is no key or 9 is given.
pub fn key_bytes(entry: &[u8]) -> &[u8]
    ensures { result.now ≡ key_bytes_of (key_of entry.now) }
{
    match (IndexEntry { bytes: entry }).key() {
        Ok(Some(key)) => key,
        Ok(None) | Err(_) => &[],
    }
}
