//! Streams of which it is noted what a person at the terminal should know.

ghost use Rattle.std.specs.Prelude.{◌≡◌};
ghost use Rattle.mrp_words.specs.Hints.{begins_utf16, says_refused};

use std::cell::Cell;
use std::io;
use std::io::{ErrorKind, Read, Write};

/// What was seen of a program's streams.
#[derive(Drop)]
pub struct Sights {
    is_begun: Cell<bool>,
    is_folder: Cell<bool>,
    is_utf16: Cell<bool>,
    is_closed: Cell<bool>,
    is_refused: Cell<bool>,
}

impl Sights {
    /// Of streams that nothing was done with yet.
    pub fn new() -> Sights {
        Sights {
            is_begun: Cell::new(false),
            is_folder: Cell::new(false),
            is_utf16: Cell::new(false),
            is_closed: Cell::new(false),
            is_refused: Cell::new(false),
        }
    }

    /// Whether the input could not be read as it is a folder.
    pub fn is_folder(&self) -> bool {
        self.is_folder.get()
    }

    /// Whether the input begins with a byte order mark of UTF-16.
    pub fn is_utf16(&self) -> bool {
        self.is_utf16.get()
    }

    /// Whether a bundle was said to be refused.
    pub fn is_refused(&self) -> bool {
        self.is_refused.get()
    }

    // Notes how the input begins, by the first bytes that a read of it gave.
    fn note_bytes(&self, bytes: &[u8]) {
        if !self.is_begun.replace(true) {
            self.is_utf16.set(begins_utf16(bytes));
        }
    }

    // Notes what a read of the input gave.
    fn note_read(&self, outcome: &io::Result<usize>, buf: &[u8]) {
        match outcome {
            Ok(n) => self.note_bytes(&buf[..buf.len().min(*n)]),
            Err(error) => self
                .is_folder
                .set(matches!(error.kind(), ErrorKind::IsADirectory)),
        }
    }

    // Notes what a write to the output gave.
    fn note_write(&self, outcome: &io::Result<usize>) {
        if let Err(error) = outcome {
            if matches!(error.kind(), ErrorKind::BrokenPipe) {
                self.is_closed.set(true);
            }
        }
    }
}

// Whether what is said of a refused bundle begins with these bytes.
fn says_refused(said: &[u8]) -> bool
    ensures { result ≡ says_refused said.now }
{
    said.starts_with(b"refused: ")
}

/// Whether bytes begin with a byte order mark of UTF-16.
pub fn begins_utf16(bytes: &[u8]) -> bool
    ensures { result ≡ begins_utf16 bytes.now }
{
    bytes.starts_with(b"\xFF\xFE") || bytes.starts_with(b"\xFE\xFF")
}

/// An input that is seen.
#[derive(Drop)]
pub struct SeenInput<'a, R> {
    /// The input.
    pub inner: R,
    /// Where it is noted what is seen of it.
    pub sights: &'a Sights,
}

impl<R: Read> Read for SeenInput<'_, R> {
    ghost remaining = { λ input. R.remaining input.inner };

    fn read(&mut self, buf: &mut [u8]) -> io::Result<usize> {
        let outcome = self.inner.read(buf);
        self.sights.note_read(&outcome, buf);
        outcome
    }
}

/// An output that is seen.
#[derive(Drop)]
pub struct SeenOutput<'a, W> {
    /// The output.
    pub inner: W,
    /// Where it is noted what is seen of it.
    pub sights: &'a Sights,
}

impl<W: Write> Write for SeenOutput<'_, W> {
    ghost contents = { λ output. W.contents output.inner };

    fn write(&mut self, buf: &[u8]) -> io::Result<usize> {
        let outcome = self.inner.write(buf);
        self.sights.note_write(&outcome);
        outcome
    }

    fn flush(&mut self) -> io::Result<()> {
        self.inner.flush()
    }
}

/// An error stream on which nothing is said any more once the output's reader has gone away, as `head`
/// does when it has read enough.
#[derive(Drop)]
pub struct QuietErrors<'a, E> {
    /// The error stream.
    pub inner: E,
    /// What is seen of the output.
    pub sights: &'a Sights,
}

impl<E: Write> Write for QuietErrors<'_, E> {
    ghost use Rattle.std.specs.Prelude.{◌≡◌, ◌⊎◌, None, Ok, length};
    ghost use Rattle.std.specs.Io.{WritesAtMost};
    ghost use Rattle.std.specs.Io.KnownBytes.{WriteAppends};

    fn write(&mut self, buf: &[u8]) -> io::Result<usize>
        ensures bound { WritesAtMost result buf.now }
        ensures bytes { WriteAppends None None result buf.now }
        ensures said { WriteAppends (E.contents self.old.inner) (E.contents self.new.inner) result buf.now
            ⊎ ((result ≡ Ok (length buf.now)) × (self.new.inner ≡ self.old.inner)) }
    {
        if self.sights.is_closed.get() {
            return Ok(buf.len());
        }
        if says_refused(buf) {
            self.sights.is_refused.set(true);
        }
        self.inner.write(buf)
    }

    fn flush(&mut self) -> io::Result<()> {
        self.inner.flush()
    }
}
