// A source over any reader and a sink over any writer of std.
ghost use Rattle.std.specs.Prelude.{◌≡◌, ◌<◌, ◌≤◌, length, take, IfSome, MatchOption};
ghost use Rattle.std.specs.Io.KnownBytes.{Appends, Keeps};
ghost use Rattle.gl_io.specs.Adapters.{reader_left, reader_faults, writer_written, writer_faults};

use crate::{Failed, Sink, Source};
use std::io::{Read, Write};

/// A reader, with a count of its faults. It tells what it has left where the reader does.
#[derive(Drop)]
pub struct ReaderSource<R> {
    reader: R,
    faults: u64,
}

impl<R: Read> ReaderSource<R> {
    /// A source of all that the reader has left, with no fault so far.
    pub fn new(reader: R) -> Self
        ensures left { reader_left R.remaining result ≡ R.remaining reader }
        ensures faults { reader_faults result ≡ 0 }
    {
        ReaderSource { reader, faults: 0 }
    }
}

impl<R: Read> Source for ReaderSource<R> {
    ghost left = { λ s. R.remaining s.reader };

    ghost faults = { λ s. s.faults };

    fn read(&mut self, buf: &mut [u8]) -> Result<usize, Failed> {
        match self.reader.read(buf) {
            Ok(count) => Ok(count),
            Err(_) => {
                self.faults = self.faults.saturating_add(1);
                Err(Failed)
            }
        }
    }
}

/// A writer that is flushed after each write, with a count of its faults. What it tells as written is what the
/// writer holds, less the bytes of a flush that failed. After such a flush each further write is a fault.
#[derive(Drop)]
pub struct WriterSink<W> {
    writer: W,
    lost: usize,
    faults: u64,
}

impl<W: Write> WriterSink<W> {
    /// A sink behind what the writer holds, with no fault so far.
    pub fn new(writer: W) -> Self
        ensures written { writer_written W.contents result ≡ W.contents writer }
        ensures faults { writer_faults result ≡ 0 }
    {
        WriterSink {
            writer,
            lost: 0,
            faults: 0,
        }
    }

    // Hands bytes on to the writer and flushes it.
    fn hand_on(&mut self, piece: &[u8]) -> Option<usize>
        ensures some { IfSome result (λ n. (0 < n) × (n ≤ length piece.now)) }
        ensures bytes { MatchOption result
            (Keeps (writer_written W.contents self.old) (writer_written W.contents self.new))
            (λ n. Appends (writer_written W.contents self.old) (writer_written W.contents self.new) (take n piece.now)) }
        ensures faults { writer_faults self.new ≡ writer_faults self.old }
    {
        if self.lost != 0 {
            return None;
        }
        let count = self.writer.write(piece).ok()?;
        if self.writer.flush().is_err() {
            self.lost = count;
            return None;
        }
        if count == 0 { None } else { Some(count) }
    }
}

impl<W: Write> Sink for WriterSink<W> {
    ghost use Rattle.gl_io.specs.Adapters.{writer_written};

    ghost written = { λ k. writer_written W.contents k };

    ghost faults = { λ k. k.faults };

    fn write(&mut self, piece: &[u8]) -> Result<usize, Failed> {
        match self.hand_on(piece) {
            Some(count) => Ok(count),
            None => {
                self.faults = self.faults.saturating_add(1);
                Err(Failed)
            }
        }
    }
}
