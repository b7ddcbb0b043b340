//! The cases that a reader gives, one at a time.
ghost use Rattle.std.specs.Prelude.{◌≡◌, ◌≤◌, Some, IfSome, IfOk, length, drop};
ghost use Rattle.replay_cases.specs.Cases.{Fills, ReadsCase, length_read};

use crate::cases::Case;
use crate::number::number_at;
use std::io;
use std::io::Read;

// Reads until the bytes are full or the input ends, and tells how many were read.
fn fill<R: Read>(reader: &mut R, bytes: &mut [u8]) -> io::Result<usize>
    ensures length { length bytes.new ≡ length bytes.old }
    ensures within { IfOk result (λ n. n ≤ length bytes.old) }
    ensures read { IfOk result (Fills (length bytes.old) (R.remaining reader.old) (R.remaining reader.new) bytes.new) }
{
    let mut done = 0;
    while done < bytes.len() {
        match reader.read(&mut bytes[done..])? {
            0 => return Ok(done),
            n => done += n,
        }
    }
    Ok(done)
}

/// Reads a case, or none where no whole one is left: its size u32 and its tag into the head, and then its body, if there is room for it.
pub fn read_case<'a, R: Read>(
    reader: &mut R,
    head: &'a mut [u8],
    room: &'a mut [u8],
) -> io::Result<Option<Case<'a>>>
    ensures case { IfOk result (λ found. IfSome (R.remaining reader.old) (ReadsCase (length head.old) (length room.old) found)) }
    ensures rest { IfOk result (λ _. IfSome (R.remaining reader.old) (λ input. R.remaining reader.new ≡ Some (drop (length_read (length head.old) (length room.old) input) input))) }
{
    if fill(reader, head)? < head.len() {
        return Ok(None);
    }
    let size = number_at(head, 0);
    if size > room.len() {
        return Ok(None);
    }
    let body = &mut room[..size];
    if fill(reader, body)? < size {
        return Ok(None);
    }
    let tag = &head[head.len().min(4)..];
    Ok(Some(Case { tag, body }))
}
