//! Replays stored cases of the checker, whose answers are 01's own, those of a model written from 01, and on real directories known ones.
//! Reads cases from standard input, prints a line for each: its label, the answer, and every byte of the marks lent, as it is afterwards.
//! A case: the size u32 of what follows the operation, at most 65,536; the operation u32; then
//!   1 memory: cluster size u32, root length u32, pool length u32, the root, the pool. Kept for the cases that follow.
//!   2 the table T, 3 the identity: nothing. 4, 5 the lower and the upper half of a table: 65,536 bytes. Kept too.
//!   6 a check: how many marks are lent u32, the byte in each of them u32, how many units of the table are lent u32, its label.
#![tactic(auto)]

use directory::Directory;
use refusal::Fault;
use replay_cases::{
    Fixture, LONGEST_BODY, LossyWriter, MOST_CASES, Setup, UnknownSetup, number_at, read_case,
};
use std::io;
use std::io::Write;

/// More than any stored directory has records; more marks are not lent.
const MOST_MARKS: usize = 256;

/// One more than a table should have, so that too many can be lent.
const UNITS: usize = 65537;

/// What a case asks for.
#[derive(Clone, Copy)]
enum Operation {
    SetUp(Setup),
    Check,
}

impl TryFrom<usize> for Operation {
    type Error = UnknownSetup;

    fn try_from(number: usize) -> Result<Operation, UnknownSetup> {
        match number {
            6 => Ok(Operation::Check),
            _ => Ok(Operation::SetUp(Setup::try_from(number)?)),
        }
    }
}

fn write_answer<W: Write>(writer: &mut W, answer: Result<u64, Fault>) -> io::Result<()> {
    match answer {
        Ok(count) => write!(writer, " passed {count}"),
        Err(Fault { refusal, opened }) => {
            write!(writer, " refused {} {opened}", refusal.number())
        }
    }
}

fn write_marks<W: Write>(writer: &mut W, marks: &[u8]) -> io::Result<()> {
    write!(writer, " marks ")?;
    if marks.is_empty() {
        return write!(writer, "-");
    }
    for mark in marks {
        write!(writer, "{mark:02x}")?;
    }
    Ok(())
}

fn check<W: Write>(
    writer: &mut W,
    directory: Directory<'_>,
    table: &[u16],
    marks: &mut [u8],
) -> io::Result<()> {
    let answer = checker::check_file_names(&directory, table, marks);
    write_answer(writer, answer)?;
    write_marks(writer, marks)
}

/// A check, where no more marks and units are to be lent than there are.
fn run_check<W: Write>(writer: &mut W, fixture: &Fixture<'_>, body: &[u8]) -> io::Result<()> {
    if let Some(label) = body.get(12..) {
        writer.write_all(label)?;
    }
    let count = number_at(body, 0);
    let mark = (number_at(body, 4) % 256) as u8;
    if let Some(table) = fixture.table.get(..number_at(body, 8))
        && count <= MOST_MARKS
    {
        let mut marks = [mark; MOST_MARKS];
        check(writer, fixture.directory(), table, &mut marks[..count])?;
    }
    writeln!(writer)
}

fn run_case<W: Write>(
    writer: &mut W,
    fixture: &mut Fixture<'_>,
    operation: Operation,
    body: &[u8],
) -> io::Result<()> {
    match operation {
        Operation::SetUp(setup) => {
            fixture.set_up(setup, body);
            Ok(())
        }
        Operation::Check => run_check(writer, fixture, body),
    }
}

fn main(rt: HostRuntime) {
    let mut memory = [0; LONGEST_BODY];
    let mut table = [0; UNITS];
    let mut fixture = Fixture {
        memory: &mut memory,
        table: &mut table,
    };
    let mut reader = rt.stdin();
    let mut writer = LossyWriter::new(io::writer(&rt));
    let mut head = [0; 8];
    let mut room = [0; LONGEST_BODY];
    for _case in 0..MOST_CASES {
        let Ok(Some(case)) = read_case(&mut reader, &mut head, &mut room) else {
            break;
        };
        if let Ok(operation) = Operation::try_from(number_at(case.tag, 0)) {
            let _ = run_case(&mut writer, &mut fixture, operation, case.body);
            let _ = writer.flush();
        }
    }
}
