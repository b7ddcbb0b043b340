ghost use Rattle.std.specs.Prelude.{◌≡◌, IfSome, OnOk};
ghost use Rattle.std.specs.Io.KnownBytes.{Appends};
ghost use Rattle.directory.specs.Seen.{lent};
ghost use Rattle.index.specs.Cursor.{new_cursor};
ghost use Rattle.capture.specs.Format.{parsed};
ghost use Rattle.capture_show.specs.Front.{AppendsFront};
ghost use Rattle.capture_show.specs.Text.{most_steps, lines_from, lines_of, listing_text, output_of};

use crate::read::read_front;
use crate::written::write_front;
use capture_line::{Closing, Line};
use directory::{Answer, Directory};
use index::Cursor;
use std::io;
use std::io::{Read, Write};

/// What is read of a capture: one byte more than the longest, so that a longer one is seen.
pub const MOST_READ: usize = 65536;

/// The largest pool that a capture holds.
const MOST_POOL: usize = 57344;

/// As many records as are opened for a listing.
const ALLOWANCE: u64 = 64;

/// More steps than a capture can take: 64 records of at most 256 entries, and a root of at most 4,096.
const STEPS: usize = 32768;

/// Writes a line for each entry of a directory, and the closing line. At an error a front of them has been written, and nothing else.
fn write_lines<W: Write>(directory: &Directory, writer: &mut W) -> io::Result<()>
    ensures ok { OnOk result (Appends (W.contents writer.old) (W.contents writer.new) (lines_from most_steps (lent directory.now) new_cursor)) }
    ensures front { AppendsFront (W.contents writer.old) (W.contents writer.new) (lines_from most_steps (lent directory.now) new_cursor) }
{
    let mut cursor = Cursor::new();
    for step in 0..STEPS {
        match cursor.step(directory, ALLOWANCE) {
            Ok(
                Answer {
                    entry: Some(placed),
                    opened: _,
                },
            ) => {
                let line = Line {
                    entry: placed.entry,
                };
                write_front(writer, line.bytes().as_slice())?;
            }
            Ok(
                Answer {
                    entry: None,
                    opened,
                },
            ) => return write_front(writer, Closing(Ok(opened)).bytes().as_slice()),
            Err(fault) => {
                return write_front(writer, Closing(Err(fault.refusal)).bytes().as_slice());
            }
        }
    }
    Ok(())
}

/// Writes all of a capture's listing but its first line. At an error a front of it has been written, and nothing else.
fn write_capture<W: Write>(input: &[u8], writer: &mut W) -> io::Result<()>
    ensures ok { OnOk result (Appends (W.contents writer.old) (W.contents writer.new) (lines_of (parsed input.now))) }
    ensures front { AppendsFront (W.contents writer.old) (W.contents writer.new) (lines_of (parsed input.now)) }
{
    match capture::parse(input) {
        Ok(capture) => {
            let mut pool = [0; MOST_POOL];
            let length = capture.copy_pool(&mut pool);
            let directory = Directory {
                root: capture.root,
                pool: &pool[..length],
                cluster_size: capture.cluster_size as usize,
            };
            write_lines(&directory, writer)
        }
        Err(refusal) => write_front(writer, Closing(Err(refusal)).bytes().as_slice()),
    }
}

/// Writes the listing of a capture: `entries` first, whatever follows. At an error a front of it has been written, and nothing else.
pub fn show_capture<W: Write>(input: &[u8], writer: &mut W) -> io::Result<()>
    ensures ok { OnOk result (Appends (W.contents writer.old) (W.contents writer.new) (listing_text input.now)) }
    ensures front { AppendsFront (W.contents writer.old) (W.contents writer.new) (listing_text input.now) }
{
    write_front(writer, b"entries\n")?;
    write_capture(input, writer)
}

/// Writes the listing of a capture, as far as the writer takes it.
pub fn show<W: Write>(input: &[u8], writer: &mut W)
    ensures { AppendsFront (W.contents writer.old) (W.contents writer.new) (listing_text input.now) }
{
    let _ = show_capture(input, writer);
}

/// Reads a capture and writes its listing, and nothing else. At an error of the reader nothing has been written, and at one of the writer a
/// front of the listing.
pub fn show_read<R: Read, W: Write>(reader: &mut R, writer: &mut W) -> io::Result<()>
    ensures ok { OnOk result (IfSome (R.remaining reader.old) (λ input. Appends (W.contents writer.old) (W.contents writer.new) (output_of input))) }
    ensures front { IfSome (R.remaining reader.old) (λ input. AppendsFront (W.contents writer.old) (W.contents writer.new) (output_of input)) }
{
    let mut input = [0; MOST_READ];
    let (length, ended) = read_front(reader, &mut input);
    ended?;
    show_capture(&input[..length], writer)
}
