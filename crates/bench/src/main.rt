//! Prints the bench examples P1 to P11 as the proved functions answer them.
#![tactic(auto)]

use index_entry::IndexEntry;
use refusal::Refusal;
use replay_cases::MadeTable;
use std::cmp::Ordering;
use std::fmt;
use upcase_table::{LeUnits, UpcaseTable, compare_by_place};

/// An answer, as its line shows it.
#[derive(Clone, Copy)]
struct Shown<T>(T);

impl fmt::Display for Shown<Refusal> {
    fn fmt<W: fmt::Write>(&self, f: &mut fmt::Formatter<W>) -> fmt::Result {
        write!(f, "refused {}", self.0.number())
    }
}

impl fmt::Display for Shown<Result<Ordering, Refusal>> {
    fn fmt<W: fmt::Write>(&self, f: &mut fmt::Formatter<W>) -> fmt::Result {
        match self.0 {
            Ok(Ordering::Less) => write!(f, "less"),
            Ok(Ordering::Equal) => write!(f, "equal"),
            Ok(Ordering::Greater) => write!(f, "greater"),
            Err(refusal) => write!(f, "{}", Shown(refusal)),
        }
    }
}

impl fmt::Display for Shown<Result<IndexEntry<'_>, Refusal>> {
    fn fmt<W: fmt::Write>(&self, f: &mut fmt::Formatter<W>) -> fmt::Result {
        match self.0 {
            Ok(entry) => write!(f, "entry of {}", entry.bytes.len()),
            Err(refusal) => write!(f, "{}", Shown(refusal)),
        }
    }
}

impl fmt::Display for Shown<Result<Option<&[u8]>, Refusal>> {
    fn fmt<W: fmt::Write>(&self, f: &mut fmt::Formatter<W>) -> fmt::Result {
        match self.0 {
            Ok(Some(_)) => write!(f, "a key"),
            Ok(None) => write!(f, "no key"),
            Err(refusal) => write!(f, "{}", Shown(refusal)),
        }
    }
}

impl fmt::Display for Shown<Result<usize, Refusal>> {
    fn fmt<W: fmt::Write>(&self, f: &mut fmt::Formatter<W>) -> fmt::Result {
        match self.0 {
            Ok(number) => write!(f, "VCN {number}"),
            Err(refusal) => write!(f, "{}", Shown(refusal)),
        }
    }
}

impl fmt::Display for Shown<Result<Option<i64>, Refusal>> {
    fn fmt<W: fmt::Write>(&self, f: &mut fmt::Formatter<W>) -> fmt::Result {
        match self.0 {
            Ok(None) => write!(f, "no VCN"),
            Ok(Some(vcn)) => {
                if vcn == -1 {
                    write!(f, "VCN -1, ")?;
                }
                write!(f, "{}", Shown(index_allocation::block_number(vcn)))
            }
            Err(refusal) => write!(f, "{}", Shown(refusal)),
        }
    }
}

fn table_t() -> [u16; 65536] {
    let mut table = [0; 65536];
    for (i, unit) in table.iter_mut().enumerate() {
        *unit = MadeTable::T.unit((i % 65536) as u16);
    }
    table
}

/// A sought name against a name in a key's bytes.
fn compared(table: &[u16], name: &[u16], other: &[u8]) -> Shown<Result<Ordering, Refusal>> {
    match UpcaseTable::try_from(table) {
        Ok(table) => Shown(Ok(compare_by_place(&table, name, LeUnits::new(other)))),
        Err(refusal) => Shown(Err(refusal)),
    }
}

fn print_names<R: Print>(rt: &R) {
    let table = table_t();
    let _ = println!(rt; "P1 {}", compared(&table, &[0x61], b"A\0"));
    let _ = println!(rt; "P2 {}", compared(&table, &[], b"A\0"));
    let _ = println!(rt; "P3 {}", compared(&table, &[0x61, 0x62], b"A\0"));
    let _ = println!(rt; "P4 {}", compared(&table, &[0x61], b"_\0"));
}

/// A node's bytes: an entry with a key length of 68, and at 16 and at 88 a VCN that is its own offset.
fn node(length: u8, flags: u8) -> [u8; 96] {
    let mut node = [0; 96];
    node[8] = length;
    node[10] = 68;
    node[12] = flags;
    node[16] = 16;
    node[88] = 88;
    node
}

fn entry_in(node: &[u8]) -> Shown<Result<IndexEntry<'_>, Refusal>> {
    Shown(IndexEntry::new(node, 0))
}

fn key_in(node: &[u8]) -> Shown<Result<Option<&[u8]>, Refusal>> {
    match IndexEntry::new(node, 0) {
        Ok(entry) => Shown(entry.key()),
        Err(refusal) => Shown(Err(refusal)),
    }
}

fn vcn_in(node: &[u8]) -> Shown<Result<Option<i64>, Refusal>> {
    match IndexEntry::new(node, 0) {
        Ok(entry) => Shown(entry.subnode_vcn()),
        Err(refusal) => Shown(Err(refusal)),
    }
}

fn print_entries<R: Print>(rt: &R) {
    let _ = println!(rt; "P5 {}", entry_in(&node(15, 0)));
    let _ = println!(rt; "P6 {}", key_in(&node(16, 2)));
    let _ = println!(rt; "P6 {}", vcn_in(&node(16, 2)));
    let _ = println!(rt; "P7 {}", vcn_in(&node(16, 3)));
    let _ = println!(rt; "P8 {}", vcn_in(&node(23, 1)));
    let _ = println!(rt; "P9 {}", vcn_in(&node(24, 3)));
    let _ = println!(rt; "P10 {}", vcn_in(&node(96, 1)));
}

/// A VCN of eight bytes 0xFF.
fn print_negative<R: Print>(rt: &R) {
    let entry = b"\0\0\0\0\0\0\0\0\x18\0\x44\0\x01\0\0\0\xFF\xFF\xFF\xFF\xFF\xFF\xFF\xFF";
    let _ = println!(rt; "P11 {}", vcn_in(entry));
}

fn main(rt: HostRuntime) {
    print_names(&rt);
    print_entries(&rt);
    print_negative(&rt);
}
