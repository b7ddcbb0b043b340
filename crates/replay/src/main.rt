//! Replays stored cases: reads them from standard input and prints a line for each, as the proved functions answer.
//! A case: the size u32 of what follows, at most 65,536; operation u8, node u8 (0 root, 1 record), label length u16, a u32 and 8 bytes,
//! cluster size u32, root length u32, pool length u32; then the label, the root and the pool. The u32 is an entry's position, or how
//! many steps; the 8 bytes are a record's VCN, signed, or a listing's allowance.
#![tactic(auto)]

mod answers;
mod case;

use answers::{write_entry, write_node, write_steps};
use case::{NodeCase, Operation};
use index::Cursor;
use replay_cases::{Case, LONGEST_BODY, LossyWriter, MOST_CASES, read_case};
use std::io;
use std::io::Write;

/// What a case asks for; the cursor is kept for a case that goes on.
fn answer<W: Write>(writer: &mut W, case: &NodeCase<'_>, cursor: &mut Cursor) -> io::Result<()> {
    let directory = &case.directory;
    match case.operation {
        Operation::OpenNode(node) => write_node(writer, directory, node),
        Operation::EntryAt { node, position } => write_entry(writer, directory, node, position),
        Operation::List { steps, allowance } => {
            *cursor = Cursor::new();
            write_steps(writer, directory, cursor, steps, allowance)
        }
        Operation::GoOn { steps, allowance } => {
            write_steps(writer, directory, cursor, steps, allowance)
        }
    }
}

/// A case's line, written before the next case is read.
fn run_case<W: Write>(writer: &mut W, case: &NodeCase<'_>, cursor: &mut Cursor) -> io::Result<()> {
    writer.write_all(case.label)?;
    write!(writer, ": ")?;
    answer(writer, case, cursor)?;
    writeln!(writer)?;
    writer.flush()
}

fn main(rt: HostRuntime) {
    let mut reader = rt.stdin();
    let mut writer = LossyWriter::new(io::writer(&rt));
    let mut cursor = Cursor::new();
    let mut head = [0; 4];
    let mut room = [0; LONGEST_BODY];
    for _case in 0..MOST_CASES {
        let Ok(Some(Case { body, .. })) = read_case(&mut reader, &mut head, &mut room) else {
            break;
        };
        let _ = run_case(&mut writer, &NodeCase::from(body), &mut cursor);
    }
}
