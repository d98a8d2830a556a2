//! A stream that gets a line in one write.

ghost use Rattle.std.specs.Prelude.{◌≡◌, ◌≤◌, length};
ghost use Rattle.mrp_open.specs.Lines.{is_whole, line_len};

use arrayvec::ArrayVec;
use memchr::memchr;
use mrp_rows::Told;
use std::io;
use std::io::Write;

/// How many bytes of a line are kept at most until it ends.
pub const MOST_KEPT: usize = 512;

/// A stream that several threads write to, of which each gets one of its own: it writes a line only once it has ended,
/// and then in one write, so that nothing gets into it that another thread writes. What is longer than 512 bytes is
/// written in parts.
#[derive(Drop)]
pub struct WholeLines<E> {
    inner: Told<E>,
    line: ArrayVec<u8, MOST_KEPT>,
}

// How many bytes there are up to the end of the first line.
fn line_len(bytes: &[u8]) -> usize
    ensures within { result ≤ length bytes.now }
    ensures end { result ≡ line_len bytes.now }
{
    match memchr(b'\n', bytes) {
        Some(at) => at + 1,
        None => bytes.len(),
    }
}

// Whether a line is written: it has ended, or there is no room for more.
fn is_whole(line: &[u8]) -> bool
    ensures { result ≡ is_whole line.now }
{
    line.len() >= MOST_KEPT || (!line.is_empty() && line[line.len() - 1] == b'\n')
}

impl<E: Write> WholeLines<E> {
    ghost use Rattle.std.specs.Prelude.{◌≡◌, ◌≤◌, ◌++◌, [], OnOk, length, take};
    ghost use Rattle.std.specs.Io.KnownBytes.{Appends};
    ghost use Rattle.mrp_open.specs.Lines.{kept_line, stream_of, taken_len};

    /// A stream of which nothing is kept yet.
    pub fn new(inner: E) -> WholeLines<E>
        ensures stream { stream_of result ≡ inner }
        ensures nothing { kept_line result ≡ [] }
    {
        WholeLines {
            inner: Told::new(inner),
            line: ArrayVec::new(),
        }
    }

    // Keeps bytes up to the end of a line, as far as there is room. Returns how many.
    fn keep(&mut self, bytes: &[u8]) -> usize
        ensures within { result ≤ length bytes.now }
        ensures count { result ≡ taken_len (kept_line self.old) bytes.now }
        ensures kept { kept_line self.new ≡ kept_line self.old ++ take result bytes.now }
        ensures same { stream_of self.new ≡ stream_of self.old }
    {
        let count = line_len(bytes).min(self.line.remaining_capacity());
        let (front, _) = bytes.split_at(count);
        self.line.try_extend_from_slice(front).unwrap();
        count
    }

    // Writes what is kept.
    fn write_kept(&mut self) -> io::Result<()>
        ensures written { OnOk result (Appends (E.contents (stream_of self.old)) (E.contents (stream_of self.new)) (kept_line self.old)) }
        ensures nothing { kept_line self.new ≡ [] }
    {
        let outcome = self.inner.write_all(self.line.as_slice());
        self.line.clear();
        outcome
    }
}

impl<E: Write> Write for WholeLines<E> {
    ghost use Rattle.std.specs.Prelude.{◌≡◌, [], None, IfOk, OnErr, OnOk, take};
    ghost use Rattle.std.specs.Io.{WritesAtMost};
    ghost use Rattle.std.specs.Io.KnownBytes.{Keeps, WriteAppends};
    ghost use Rattle.mrp_journal.specs.Journal.{WritesThrough};
    ghost use Rattle.mrp_open.specs.Lines.{TakesLines, kept_line, stream_of, taken_len, told_stream};

    fn write(&mut self, buf: &[u8]) -> io::Result<usize>
        ensures bound { WritesAtMost result buf.now }
        ensures bytes { WriteAppends None None result buf.now }
        ensures count { IfOk result (λ n. n ≡ taken_len (kept_line self.old) buf.now) }
        ensures lines { IfOk result (λ n. TakesLines E.contents self.old self.new (take n buf.now)) }
        ensures given_up { OnErr result (kept_line self.new ≡ []) }
    {
        let count = self.keep(buf);
        if is_whole(self.line.as_slice()) {
            self.write_kept()?;
        }
        Ok(count)
    }

    #[tactic(auto, using(crate::proofs::Flushed::flushed))]
    fn flush(&mut self) -> io::Result<()>
        ensures bytes { Keeps None None }
        ensures written { OnOk result (WritesThrough E.contents (told_stream self.old) (told_stream self.new) (kept_line self.old)) }
        ensures nothing { kept_line self.new ≡ [] }
    {
        self.write_kept()?;
        self.inner.flush()
    }
}
