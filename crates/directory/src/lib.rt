//! A directory: what is lent, the opening of its nodes, and their entries.
#![tactic(auto)]

mod answer;
mod directory;
mod node;
mod place;

pub use answer::Answer;
pub use directory::{Directory, OpenDirectory};
pub use node::{Node, NodeEntries, PlacedEntry};
pub use place::Place;

/// How many levels a walk has at most; the root is the first.
pub const LEVELS: usize = 8;
