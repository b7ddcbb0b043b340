//! The answers of listings and lookups, as a case's line shows them.
use directory::{Answer, Directory, Place, PlacedEntry};
use file_name::FileName;
use index::{Cursor, NodeName};
use index_entry::IndexEntry;
use index_node::node_start;
use refusal::Fault;
use std::io::Write;
use std::{fmt, io};

/// More than any stored directory has entries.
const STEPS: usize = 1000;

/// What is shown of an entry: where it lies and how many records were opened, or its file reference and name.
#[derive(Clone, Copy, PartialEq, Eq)]
pub enum Shown {
    Places,
    Names,
}

/// A directory, how many records may be opened in it, and what is shown of its entries.
#[derive(Clone, Copy)]
pub struct Walk<'a> {
    pub directory: Directory<'a>,
    pub allowance: u64,
    pub shown: Shown,
}

fn write_refused<W: Write>(writer: &mut W, fault: Fault) -> io::Result<()> {
    write!(
        writer,
        " refused:{}:{}",
        fault.refusal.number(),
        fault.opened
    )
}

/// The file reference of an entry.
#[derive(Clone, Copy)]
struct Reference<'a>(IndexEntry<'a>);

impl fmt::Display for Reference<'_> {
    fn fmt<W: fmt::Write>(&self, f: &mut fmt::Formatter<W>) -> fmt::Result {
        let reference = self.0.file_reference();
        let number = reference.file_record_number();
        write!(f, "{number}:{}", reference.sequence_number())
    }
}

/// The name that an entry's key reads as, if it has a key that can be read.
fn name_of<'a>(entry: IndexEntry<'a>) -> Option<FileName<'a>> {
    let key = entry.key().ok()??;
    FileName::try_from(key).ok()
}

/// The units of an entry's name; none where it has none that can be read.
#[derive(Clone, Copy)]
struct Name<'a>(IndexEntry<'a>);

impl fmt::Display for Name<'_> {
    fn fmt<W: fmt::Write>(&self, f: &mut fmt::Formatter<W>) -> fmt::Result {
        if let Some(name) = name_of(self.0) {
            for pair in name.units.as_chunks::<2>().0 {
                write!(f, "{:04x}", u16::from_le_bytes(*pair))?;
            }
        }
        Ok(())
    }
}

/// Where an entry of a directory lies: the slice, its offset there, its length.
#[derive(Clone, Copy)]
struct Location<'a> {
    directory: Directory<'a>,
    placed: PlacedEntry<'a>,
}

impl fmt::Display for Location<'_> {
    fn fmt<W: fmt::Write>(&self, f: &mut fmt::Formatter<W>) -> fmt::Result {
        let placed = self.placed;
        let (slice, node) = match placed.node {
            Place::Root => ("root", NodeName::Root),
            Place::Record { vcn, .. } => ("pool", NodeName::Record(vcn)),
        };
        let at = node_start(&self.directory, node).saturating_add(placed.at);
        write!(f, "{slice}:{at}:{}", placed.entry.bytes.len())
    }
}

impl<'a> Walk<'a> {
    fn location(&self, placed: PlacedEntry<'a>) -> Location<'a> {
        Location {
            directory: self.directory,
            placed,
        }
    }

    /// An entry of the listing, or its end.
    fn write_listed<W: Write>(&self, writer: &mut W, answer: Answer<'a>) -> io::Result<()> {
        let opened = answer.opened;
        match (self.shown, answer.entry) {
            (Shown::Places, Some(placed)) => write!(writer, " {}:{opened}", self.location(placed)),
            (Shown::Places, None) => write!(writer, " end:{opened}"),
            (Shown::Names, Some(PlacedEntry { entry, .. })) => {
                write!(writer, "\n    {}:{}", Reference(entry), Name(entry))
            }
            (Shown::Names, None) => write!(writer, "\n    end"),
        }
    }

    /// The entry that a lookup found, or that there is none.
    fn write_sought<W: Write>(&self, writer: &mut W, answer: Answer<'a>) -> io::Result<()> {
        let opened = answer.opened;
        match (self.shown, answer.entry) {
            (Shown::Places, Some(placed)) => {
                write!(writer, " found:{}:{opened}", self.location(placed))
            }
            (Shown::Places, None) => write!(writer, " missing:{opened}"),
            (Shown::Names, Some(PlacedEntry { entry, .. })) => {
                write!(writer, " found:{}", Reference(entry))
            }
            (Shown::Names, None) => write!(writer, " missing"),
        }
    }

    /// The entries of the listing, then how it ends.
    pub(crate) fn write_listing<W: Write>(&self, writer: &mut W) -> io::Result<()> {
        let mut cursor = Cursor::new();
        for _step in 0..STEPS {
            let answer = match cursor.step(&self.directory, self.allowance) {
                Ok(answer) => answer,
                Err(fault) => return write_refused(writer, fault),
            };
            self.write_listed(writer, answer)?;
            if answer.entry.is_none() {
                break;
            }
        }
        Ok(())
    }

    /// What the lookup of a name answers.
    pub(crate) fn write_lookup<W: Write>(
        &self,
        writer: &mut W,
        table: &[u16],
        name: &[u16],
    ) -> io::Result<()> {
        match index_finder::find_file_name(&self.directory, table, name, self.allowance) {
            Ok(answer) => self.write_sought(writer, answer),
            Err(fault) => write_refused(writer, fault),
        }
    }
}
