//! Replays stored cases whose answers are others': 01's own, the crate's and libntfs-3g's. Reads cases from standard input, prints a line for each.
//! A case: the size u32 of what follows the operation, at most 65,536; the operation u32; then
//!   1 memory: cluster size u32, root length u32, pool length u32, the root, the pool. Kept for the cases that follow.
//!   2 the table T, 3 the identity: nothing. 4, 5 the lower and the upper half of a table: 65,536 bytes. Kept too.
//!   6 a listing: its label. 7 a lookup: length u32 of the label, the label, the name's units.
//!   8 and 9 as 6 and 7, but an entry is shown by its file reference and name, and no count of records opened.
//!   10 the allowance u32, how many units of the table are lent u32, then as 7.
#![tactic(auto)]

mod answers;
mod operation;

use answers::{Shown, Walk};
use operation::Operation;
use replay_cases::{Fixture, LONGEST_BODY, LossyWriter, MOST_CASES, number_at, read_case};
use std::io;
use std::io::Write;

/// More than any walk of a stored case opens.
const ALLOWANCE: u64 = 1000000;

/// The units of a longer name are not looked up.
const LONGEST_NAME: usize = 256;

/// The answer of the lookup of a name, where it is not too long.
fn look_up<W: Write>(writer: &mut W, walk: Walk<'_>, table: &[u16], name: &[u8]) -> io::Result<()> {
    let (pairs, _) = name.as_chunks::<2>();
    if pairs.len() > LONGEST_NAME {
        return Ok(());
    }
    let mut units = [0; LONGEST_NAME];
    for (i, pair) in pairs.iter().enumerate() {
        units[i] = u16::from_le_bytes(*pair);
    }
    walk.write_lookup(writer, table, &units[..pairs.len()])
}

/// The label, and the answer of the lookup where a name follows.
fn run_lookup<W: Write>(
    writer: &mut W,
    walk: Walk<'_>,
    table: &[u16],
    body: &[u8],
) -> io::Result<()> {
    if let Some((label, name)) = body
        .get(4..)
        .and_then(|rest| rest.split_at_checked(number_at(body, 0)))
    {
        writer.write_all(label)?;
        look_up(writer, walk, table, name)?;
    }
    writeln!(writer)
}

/// A lookup with an allowance and a part of the table, as the case says.
fn run_lent<W: Write>(writer: &mut W, fixture: &Fixture<'_>, body: &[u8]) -> io::Result<()> {
    let (Some(rest), Some(table)) = (body.get(8..), fixture.table.get(..number_at(body, 4))) else {
        return Ok(());
    };
    let walk = Walk {
        directory: fixture.directory(),
        allowance: number_at(body, 0) as u64,
        shown: Shown::Places,
    };
    run_lookup(writer, walk, table, rest)
}

/// The label, and the entries of the listing.
fn run_listing<W: Write>(
    writer: &mut W,
    fixture: &Fixture<'_>,
    shown: Shown,
    label: &[u8],
) -> io::Result<()> {
    let walk = Walk {
        directory: fixture.directory(),
        allowance: ALLOWANCE,
        shown,
    };
    writer.write_all(label)?;
    walk.write_listing(writer)?;
    writeln!(writer)
}

/// A lookup over the whole table.
fn run_whole<W: Write>(
    writer: &mut W,
    fixture: &Fixture<'_>,
    shown: Shown,
    body: &[u8],
) -> io::Result<()> {
    let walk = Walk {
        directory: fixture.directory(),
        allowance: ALLOWANCE,
        shown,
    };
    run_lookup(writer, walk, fixture.table, body)
}

fn run_case<W: Write>(
    writer: &mut W,
    fixture: &mut Fixture<'_>,
    operation: Operation,
    body: &[u8],
) -> io::Result<()> {
    match operation {
        Operation::SetUp(setup) => {
            fixture.set_up(setup, body);
            Ok(())
        }
        Operation::List(shown) => run_listing(writer, fixture, shown, body),
        Operation::LookUp(shown) => run_whole(writer, fixture, shown, body),
        Operation::LookUpLent => run_lent(writer, fixture, body),
    }
}

fn main(rt: HostRuntime) {
    let mut memory = [0; LONGEST_BODY];
    let mut table = [0; 65536];
    let mut fixture = Fixture {
        memory: &mut memory,
        table: &mut table,
    };
    let mut reader = rt.stdin();
    let mut writer = LossyWriter::new(io::writer(&rt));
    let mut head = [0; 8];
    let mut room = [0; LONGEST_BODY];
    for _case in 0..MOST_CASES {
        let Ok(Some(case)) = read_case(&mut reader, &mut head, &mut room) else {
            break;
        };
        if let Ok(operation) = Operation::try_from(number_at(case.tag, 0)) {
            let _ = run_case(&mut writer, &mut fixture, operation, case.body);
            let _ = writer.flush();
        }
    }
}
