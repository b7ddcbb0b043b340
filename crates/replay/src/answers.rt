//! What the proved functions answer, as a case's line shows it.
use directory::{Answer, Directory, Place};
use index::{Cursor, NodeName};
use index_allocation::block_number;
use index_node::{node_start, open_node};
use refusal::{Fault, Refusal};
use std::io;
use std::io::Write;

fn write_refusal<W: Write>(writer: &mut W, refusal: Refusal) -> io::Result<()> {
    write!(writer, "refused {}", refusal.number())
}

/// A node opened: where its entries start and end, how long its slice is and where it lies.
pub(crate) fn write_node<W: Write>(
    writer: &mut W,
    directory: &Directory<'_>,
    name: NodeName,
) -> io::Result<()> {
    let node = match open_node(directory, name) {
        Ok(node) => node,
        Err(refusal) => return write_refusal(writer, refusal),
    };
    let size = node.bytes.len();
    let from = node_start(directory, name);
    write!(
        writer,
        "start {} used {} of {size} at {from}",
        node.start, node.end
    )
}

/// The entry of a node at the position.
pub(crate) fn write_entry<W: Write>(
    writer: &mut W,
    directory: &Directory<'_>,
    node: NodeName,
    position: usize,
) -> io::Result<()> {
    let node = match open_node(directory, node) {
        Ok(node) => node,
        Err(refusal) => return write_refusal(writer, refusal),
    };
    match node.entry_at(position) {
        None => write!(writer, "over"),
        Some(Ok(placed)) => write!(writer, "entry of {}", placed.entry.bytes.len()),
        Some(Err(refusal)) => write_refusal(writer, refusal),
    }
}

/// The root, or a record by its VCN.
fn write_place<W: Write>(writer: &mut W, node: Place) -> io::Result<()> {
    match node {
        Place::Root => write!(writer, "root"),
        Place::Record { number: _, vcn } => match block_number(vcn) {
            Ok(number) => write!(writer, "{number}"),
            Err(_) => write!(writer, "-"),
        },
    }
}

/// An entry by its node, offset and length, or how the listing ends; and the count of records opened.
fn write_answer<W: Write>(writer: &mut W, answer: Result<Answer<'_>, Fault>) -> io::Result<()> {
    match answer {
        Ok(
            Answer {
                entry: Some(placed),
                opened,
            },
        ) => {
            write_place(writer, placed.node)?;
            let size = placed.entry.bytes.len();
            write!(writer, " {} {size} opened {opened}", placed.at)
        }
        Ok(
            Answer {
                entry: None,
                opened,
            },
        ) => write!(writer, "end opened {opened}"),
        Err(Fault { refusal, opened }) => {
            write_refusal(writer, refusal)?;
            write!(writer, " opened {opened}")
        }
    }
}

/// So many steps of a listing, from where the cursor stands.
pub(crate) fn write_steps<W: Write>(
    writer: &mut W,
    directory: &Directory<'_>,
    cursor: &mut Cursor,
    steps: usize,
    allowance: u64,
) -> io::Result<()> {
    for _step in 0..steps {
        write!(writer, "\n    ")?;
        write_answer(writer, cursor.step(directory, allowance))?;
    }
    Ok(())
}
