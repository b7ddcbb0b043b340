ghost use Rattle.std.specs.Prelude.{◌≡◌, ◌<◌, ◌≤◌, ◌+◌, ◌^◌, length, IfOk, IfSome, OnSome};
ghost use Rattle.std.specs.Iterator.{YieldsFirstBy, item_count};
ghost use Rattle.index_entry.specs.IndexEntry.{entry_bytes};
ghost use Rattle.directory.specs.Node.{Entries, entries_at, first};
ghost use Rattle.directory.specs.Seen.{made, node_seen};

use crate::place::Place;
use index_allocation::PlacedRecord;
use index_entry::IndexEntry;
use index_record::IndexRecord;
use refusal::Refusal;
use std::marker::Model;

/// A node: its bytes, where its entries start, its used end, and where it stands.
///
/// In the root nothing lies past the used end. In a record an entry may, up to the record's end.
#[derive(Clone, Copy, Debug, PartialEq, Eq)]
pub struct Node<'a> {
    pub bytes: &'a [u8],
    pub start: usize,
    pub end: usize,
    pub place: Place,
}

/// An entry with its place: its node, and where in that node's bytes it begins.
#[derive(Clone, Copy, Debug, PartialEq, Eq)]
pub struct PlacedEntry<'a> {
    pub entry: IndexEntry<'a>,
    pub node: Place,
    pub at: usize,
}

impl<'a> Node<'a> {
    ghost use Rattle.directory.specs.Directory.{node_in};
    ghost use Rattle.directory.specs.Seen.{entry_read, read};
    ghost use Rattle.directory.specs.Node.{entry_in, entries_of};
    ghost use Rattle.index_allocation.specs.IndexAllocation.{place_seen};

    /// What a record holds: 14 to 17.
    #[tactic(auto, unfolding(crate::specs::Directory::node_in))]
    pub fn read(placed: PlacedRecord<'a>) -> Result<Node<'a>, Refusal>
        ensures { read result ≡ node_in (place_seen placed.entry) }
    {
        let held = IndexRecord::new(placed.bytes, placed.vcn)?;
        Ok(Node {
            bytes: held.bytes,
            start: held.start,
            end: held.end,
            place: Place::Record {
                number: placed.number,
                vcn: placed.vcn,
            },
        })
    }

    /// Its entries, from its start on.
    #[tactic(auto, using(crate::proofs::Entries::count_of_walk))]
    pub fn entries(&self) -> NodeEntries<'a>
        ensures left { result ≡ entries_of (node_seen self.now) }
        ensures bound { length result < 2 ^ 64 }
    {
        // Read, so that the check knows its range.
        let Node { start, end, .. } = *self;
        NodeEntries {
            node: Node { end, ..*self },
            next: start,
        }
    }

    /// The entry that begins at `at`, used or not: 8.
    #[tactic(auto, unfolding(crate::specs::Node::entry_in))]
    pub fn entry(&self, at: usize) -> Result<PlacedEntry<'a>, Refusal>
        ensures is { made result ≡ entry_in (node_seen self.now) at }
        ensures stands { IfOk result (λ it. it.at ≡ at) }
        ensures inside { IfOk result (λ it. at + length (entry_bytes it.entry) ≤ length self.now.bytes.now) }
        ensures header { IfOk result (λ it. 16 ≤ length (entry_bytes it.entry)) }
        ensures room { IfOk result (λ it. at + length (entry_bytes it.entry) < 2 ^ 64) }
    {
        let entry = IndexEntry::new(self.bytes, at)?;
        Ok(PlacedEntry {
            entry,
            node: self.place,
            at,
        })
    }

    /// The first of its entries from `at` on.
    #[tactic(auto, using(crate::proofs::Entries::steps_of_walk))]
    pub fn entry_at(&self, at: usize) -> Option<Result<PlacedEntry<'a>, Refusal>>
        ensures is { entry_read result ≡ first (entries_at (node_seen self.now) at) }
        ensures stands { IfSome result (λ entry. IfOk entry (λ it. it.at ≡ at)) }
        ensures inside { IfSome result (λ entry. IfOk entry (λ it. at + length (entry_bytes it.entry) ≤ length self.now.bytes.now)) }
        ensures header { IfSome result (λ entry. IfOk entry (λ it. 16 ≤ length (entry_bytes it.entry))) }
        ensures room { IfSome result (λ entry. IfOk entry (λ it. at + length (entry_bytes it.entry) < 2 ^ 64)) }
        ensures more { OnSome result (at < self.now.end) }
    {
        if at >= self.end {
            return None;
        }
        Some(self.entry(at))
    }
}

/// The entries of a node that are left, one after another by their lengths.
///
/// They end after a LAST_ENTRY, at the node's used end, or after a refusal.
#[derive(Debug, Drop)]
pub struct NodeEntries<'a> {
    node: Node<'a>,
    next: usize,
}

impl<'a> Model for NodeEntries<'a> {
    ghost Value = { Entries };

    ghost view = { λ walk. entries_at (node_seen walk.node) walk.next };
}

impl<'a> Iterator for NodeEntries<'a> {
    type Item = Result<PlacedEntry<'a>, Refusal>;

    ghost next_gives = { YieldsFirstBy made (λ left. left) };

    ghost remaining = { item_count (λ left. left) };

    #[tactic(auto, using(crate::proofs::Entries::steps_of_walk))]
    fn next(&mut self) -> Option<Result<PlacedEntry<'a>, Refusal>> {
        let node = self.node;
        let entry = node.entry_at(self.next)?;
        self.next = match entry {
            Ok(placed) if !placed.entry.is_last_entry() => self.next + placed.entry.bytes.len(),
            _ => node.end,
        };
        Some(entry)
    }
}
