//! The lines of a capture's listing.
#![tactic(auto)]

mod bytes;
mod parts;

ghost use Rattle.std.specs.Prelude.{◌≡◌, ◌≤◌, Some, length, get_or, IfSome};
ghost use Rattle.index_entry.specs.Entry.{key_of};
ghost use Rattle.index_entry.specs.IndexEntry.{entry_bytes};
ghost use Rattle.file_name.specs.Key.{name_of};
ghost use Rattle.capture_line.specs.Text.{named_text, key_text, key_part_text, line_of, opened_line, refused_line, closing_line};

use crate::bytes::{byte_at, byte_behind};
use crate::parts::{
    NEWLINE, SPACE, push_all, push_byte, push_ended, push_name, push_number, push_reference,
};
use arrayvec::ArrayVec;
use file_name::FileName;
use index_entry::IndexEntry;
use refusal::Refusal;
use std::fmt;

/// Room for the longest line: three numbers of up to 20 digits, 255 units of four, three spaces and a newline.
pub type Text = ArrayVec<u8, 1084>;

/// The name that a key reads as, if it can be read.
fn read_name(key: &[u8]) -> Option<FileName<'_>>
    ensures text { named_text result ≡ key_text (name_of key.now) key.now }
    ensures short { IfSome result (λ name. length name.units.now ≤ 510) }
{
    FileName::try_from(key).ok()
}

/// The name that an entry's key reads as, if it has a key that can be read.
fn name_of<'a>(entry: &IndexEntry<'a>) -> Option<FileName<'a>>
    ensures text { named_text result ≡ key_part_text (key_of (entry_bytes entry.now)) }
    ensures short { IfSome result (λ name. length name.units.now ≤ 510) }
{
    read_name(entry.key().ok()??)
}

/// The line of an entry: record number, sequence, namespace, units.
#[derive(Clone, Copy, Debug)]
pub struct Line<'a> {
    pub entry: IndexEntry<'a>,
}

impl Line<'_> {
    /// Its bytes.
    pub fn bytes(&self) -> Text
        ensures { result.items ≡ line_of (entry_bytes self.now.entry) }
    {
        let mut text = ArrayVec::new();
        let file = self.entry.file_reference();
        push_reference(&mut text, file);
        push_name(&mut text, name_of(&self.entry));
        push_byte(&mut text, NEWLINE);
        text
    }
}

impl fmt::Display for Line<'_> {
    ghost output = { λ line. Some (line_of (entry_bytes line.entry)) };

    fn fmt<W: fmt::Write>(&self, f: &mut fmt::Formatter<W>) -> fmt::Result {
        let bytes = self.bytes();
        let text = str::from_utf8(bytes.as_slice()).map_err(|_| fmt::Error)?;
        f.write_str(text)
    }
}

/// The last line of a listing: how many records were opened, or the refusal that ended it.
#[derive(Clone, Copy, Debug, PartialEq, Eq)]
pub struct Closing(pub Result<u64, Refusal>);

impl Closing {
    /// Its bytes.
    pub fn bytes(&self) -> Text
        ensures { result.items ≡ closing_line self.now.0 }
    {
        let mut text = ArrayVec::new();
        match self.0 {
            Ok(opened) => {
                push_all(&mut text, b"opened ");
                push_ended(&mut text, opened);
            }
            Err(refusal) => {
                push_all(&mut text, b"refused ");
                push_ended(&mut text, u64::from(refusal.number()));
            }
        }
        text
    }
}

impl fmt::Display for Closing {
    ghost output = { λ closing. Some (closing_line closing.0) };

    fn fmt<W: fmt::Write>(&self, f: &mut fmt::Formatter<W>) -> fmt::Result {
        let bytes = self.bytes();
        let text = str::from_utf8(bytes.as_slice()).map_err(|_| fmt::Error)?;
        f.write_str(text)
    }
}

/// How long the line of these bytes is, taken for an entry.
pub fn line_length(entry: &[u8]) -> usize
    ensures { result ≡ length (line_of entry.now) }
{
    let entry = IndexEntry { bytes: entry };
    Line { entry }.bytes().len()
}

/// A byte of that line; past its end 0.
pub fn line_byte(entry: &[u8], i: usize) -> u8
    ensures { result ≡ get_or (line_of entry.now) i 0 }
{
    let entry = IndexEntry { bytes: entry };
    let mut head = ArrayVec::new();
    push_reference(&mut head, entry.file_reference());
    match name_of(&entry) {
        Some(name) => {
            push_number(&mut head, name.namespace as u64);
            push_byte(&mut head, SPACE);
            byte_behind(head.as_slice(), name.units, i)
        }
        None => {
            push_all(&mut head, b"- -\n");
            byte_at(head.as_slice(), i)
        }
    }
}

/// How long the line `opened` is.
pub fn opened_length(opened: u64) -> usize
    ensures { result ≡ length (opened_line opened) }
{
    Closing(Ok(opened)).bytes().len()
}

/// A byte of it; past its end 0.
pub fn opened_byte(opened: u64, i: usize) -> u8
    ensures { result ≡ get_or (opened_line opened) i 0 }
{
    byte_at(Closing(Ok(opened)).bytes().as_slice(), i)
}

/// How long the line `refused` is.
pub fn refused_length(refusal: Refusal) -> usize
    ensures { result ≡ length (refused_line refusal) }
{
    Closing(Err(refusal)).bytes().len()
}

/// A byte of it; past its end 0.
pub fn refused_byte(refusal: Refusal, i: usize) -> u8
    ensures { result ≡ get_or (refused_line refusal) i 0 }
{
    byte_at(Closing(Err(refusal)).bytes().as_slice(), i)
}
