//! Prints the names of a directory, one a line: what a caller of the listing has to write.
//! Standard input: the root's length u32, the root, the pool; clusters of 512 bytes.
#![tactic(auto)]

use directory::{Answer, Directory};
use file_name::FileName;
use index::Cursor;
use index_entry::IndexEntry;
use std::io;
use std::io::{Read, Write};

/// More input is not read.
const LONGEST_INPUT: usize = 65536;

/// Further entries are not listed.
const MOST_ENTRIES: usize = 1000;

const CLUSTER_SIZE: usize = 512;

/// How many records may be opened.
const ALLOWANCE: u64 = 64;

/// A name has at most 255 units, and a newline follows.
const LONGEST_LINE: usize = 256;

/// A unit as a character, where it is one of ASCII's.
fn shown(unit: u16) -> u8 {
    match u8::try_from(unit) {
        Ok(byte) if byte.is_ascii() => byte,
        _ => b'?',
    }
}

/// A line for an entry, empty where it has no name that can be read.
fn write_name<W: Write>(writer: &mut W, entry: IndexEntry<'_>) -> io::Result<()> {
    let mut line = [b'\n'; LONGEST_LINE];
    let mut count = 0;
    if let Ok(Some(key)) = entry.key()
        && let Ok(name) = FileName::try_from(key)
    {
        let (units, _) = name.units.as_chunks::<2>();
        count = units.len().min(LONGEST_LINE - 1);
        for (i, unit) in units[..count].iter().enumerate() {
            line[i] = shown(u16::from_le_bytes(*unit));
        }
    }
    writer.write_all(&line[..count + 1])
}

/// The names, until the listing ends or is refused; a line that is not taken is let go.
fn write_names<W: Write>(writer: &mut W, directory: &Directory<'_>) {
    let mut cursor = Cursor::new();
    for _step in 0..MOST_ENTRIES {
        let Ok(
            Answer {
                entry: Some(placed),
                ..
            },
        ) = cursor.step(directory, ALLOWANCE)
        else {
            break;
        };
        let _ = write_name(writer, placed.entry);
    }
}

/// What there is to read, as far as there is room; an error is taken for the end.
fn read<'a, R: Read>(reader: &mut R, room: &'a mut [u8]) -> &'a [u8] {
    let mut done = 0;
    while done < room.len() {
        match reader.read(&mut room[done..]) {
            Ok(0) | Err(_) => break,
            Ok(n) => done += n,
        }
    }
    &room[..done]
}

/// The root and the pool, or nothing where the input is too short.
fn split(input: &[u8]) -> Option<(&[u8], &[u8])> {
    let (length, rest) = input.split_first_chunk::<4>()?;
    rest.split_at_checked(u32::from_le_bytes(*length) as usize)
}

fn main(rt: HostRuntime) {
    let mut room = [0; LONGEST_INPUT];
    if let Some((root, pool)) = split(read(&mut rt.stdin(), &mut room)) {
        let directory = Directory {
            root,
            pool,
            cluster_size: CLUSTER_SIZE,
        };
        write_names(&mut io::writer(&rt), &directory);
    }
}
