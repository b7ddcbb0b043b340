//! A writer that no failure stops.
ghost use Rattle.std.specs.Prelude.{◌≡◌, None, Ok, IsOk, OnOk, length};
ghost use Rattle.std.specs.Io.{WritesAtMost};
ghost use Rattle.std.specs.Io.KnownBytes.{Appends, Keeps, WriteAppends};

use std::io;
use std::io::Write;

/// As many bytes as are held before they are written.
const CAPACITY: usize = 8192;

/// A buffered writer that never fails: what the writer behind it does not take is lost, and what follows is tried again.
#[derive(Drop)]
pub struct LossyWriter<W> {
    writer: W,
    held: [u8; CAPACITY],
    count: usize,
}

impl<W: Write> LossyWriter<W> {
    /// Nothing is held yet.
    pub fn new(writer: W) -> LossyWriter<W>
        ensures writer { result.writer ≡ writer }
        ensures empty { result.count ≡ 0 }
    {
        LossyWriter {
            writer,
            held: [0; CAPACITY],
            count: 0,
        }
    }

    // Writes what is held.
    fn let_go(&mut self) {
        let count = self.count.min(CAPACITY);
        self.count = 0;
        let held = &self.held[..];
        let _ = self.writer.write_all(&held[..count]);
    }
}

impl<W: Write> Write for LossyWriter<W> {
    fn write(&mut self, bytes: &[u8]) -> io::Result<usize>
        ensures bound { WritesAtMost result bytes.now }
        ensures bytes { WriteAppends None None result bytes.now }
        ensures all { result ≡ Ok (length bytes.now) }
    {
        let _ = self.write_all(bytes);
        Ok(bytes.len())
    }

    fn flush(&mut self) -> io::Result<()>
        ensures bytes { Keeps None None }
        ensures ok { IsOk result }
    {
        self.let_go();
        Ok(())
    }

    fn write_all(&mut self, bytes: &[u8]) -> io::Result<()>
        ensures bytes { OnOk result (Appends None None bytes.now) }
        ensures ok { IsOk result }
    {
        if CAPACITY.saturating_sub(self.count) < bytes.len() {
            self.let_go();
        }
        let (from, more) = (self.count, bytes.len());
        if from <= CAPACITY && more <= CAPACITY - from {
            self.held[from..from + more].copy_from_slice(bytes);
            self.count = from + more;
        } else {
            let _ = self.writer.write_all(bytes);
        }
        Ok(())
    }
}
