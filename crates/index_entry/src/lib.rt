//! An entry of an index node: its header, its key, and where its subnode is.
#![tactic(auto)]

mod index_entry;

pub use index_entry::IndexEntry;
