//! A case of one node or of one listing.
use directory::Directory;
use index::NodeName;
use le::{le16, le64, signed_le64};
use replay_cases::{directory_in, number_at, part};

/// What stands before the label.
const HEADER: usize = 28;

/// What a case asks for.
#[derive(Clone, Copy)]
pub enum Operation {
    OpenNode(NodeName),
    /// The entry of a node at the position.
    EntryAt { node: NodeName, position: usize },
    /// The first steps of a listing.
    List { steps: usize, allowance: u64 },
    /// Further steps of the listing before, over this case's memory.
    GoOn { steps: usize, allowance: u64 },
}

impl From<&[u8]> for Operation {
    /// What a case asks for; a number that does not lie in its body is 0.
    fn from(body: &[u8]) -> Operation {
        let [operation, node] = le16(body, 0).to_le_bytes();
        let node = match node {
            0 => NodeName::Root,
            _ => NodeName::Record(signed_le64(body, 8)),
        };
        let count = number_at(body, 4);
        let allowance = le64(body, 8);
        match operation {
            1 => Operation::OpenNode(node),
            3 => Operation::List {
                steps: count,
                allowance,
            },
            4 => Operation::GoOn {
                steps: count,
                allowance,
            },
            _ => Operation::EntryAt {
                node,
                position: count,
            },
        }
    }
}

#[derive(Clone, Copy)]
pub struct NodeCase<'a> {
    pub operation: Operation,
    pub label: &'a [u8],
    pub directory: Directory<'a>,
}

impl<'a> From<&'a [u8]> for NodeCase<'a> {
    fn from(body: &'a [u8]) -> NodeCase<'a> {
        let label = usize::from(le16(body, 2));
        let contents = part(
            body,
            HEADER + label,
            number_at(body, 20) + number_at(body, 24),
        );
        NodeCase {
            operation: Operation::from(body),
            label: part(body, HEADER, label),
            directory: directory_in(part(body, 16, 12), contents),
        }
    }
}
