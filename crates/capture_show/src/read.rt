//! Reading that says how far it came.
ghost use Rattle.std.specs.Prelude.{◌≡◌, ◌≤◌, ◌<◌, OnOk, length, take};
ghost use Rattle.std.specs.Io.KnownBytes.{Consumes, IsAtEnd};

use std::io;
use std::io::{ErrorKind, Read};

/// Reads to the end, or until the buffer is full, and answers how many bytes stand at its front: all that the reader lost, at an error too.
pub fn read_front<R: Read>(reader: &mut R, buffer: &mut [u8]) -> (usize, io::Result<()>)
    ensures room { length buffer.new ≡ length buffer.old }
    ensures bound { result.0 ≤ length buffer.new }
    ensures bytes { Consumes (R.remaining reader.old) (R.remaining reader.new) (take result.0 buffer.new) }
    ensures end { OnOk result.1 (result.0 < length buffer.new → IsAtEnd (R.remaining reader.new)) }
{
    let mut done = 0;
    for _turn in 0..u64::MAX {
        if done == buffer.len() {
            return (done, Ok(()));
        }
        match reader.read(&mut buffer[done..]) {
            Ok(0) => return (done, Ok(())),
            Ok(n) => done += n,
            Err(e) => {
                if e.kind() != ErrorKind::Interrupted {
                    return (done, Err(e));
                }
            }
        }
    }
    (done, Err(io::Error::from(ErrorKind::TimedOut)))
}
