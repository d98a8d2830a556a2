//! A reader that tries interrupted reads again.

use mrp_rows::Told;
use std::io;
use std::io::{ErrorKind, Read};

// A `Told` reader whose interrupted reads are tried again, within a limit of calls.
#[derive(Drop)]
pub(crate) struct Steady<'a, R> {
    pub(crate) reader: &'a mut Told<R>,
    pub(crate) calls_left: u32,
}

impl<R: Read> Read for Steady<'_, R> {
    ghost use Rattle.std.specs.Prelude.{◌≡◌, ◌≤◌, ◌+◌, ◌⊎◌, IfErr, OnErr, false};
    ghost use Rattle.std.specs.Io.{ReadsAtMost};
    ghost use Rattle.std.specs.Io.KnownBytes.{ReadConsumes};
    ghost use Rattle.std.specs.IoError.{error_kind};
    ghost use Rattle.mrp_rows.specs.Told.{HasRisenBy, calls_of, failures_of, inner_of, is_interruption};

    ghost remaining = { λ steady. R.remaining (inner_of steady.reader.now) };

    fn read(&mut self, buf: &mut [u8]) -> io::Result<usize>
        ensures bound { ReadsAtMost result buf.new }
        ensures bytes { ReadConsumes (R.remaining (inner_of self.old.reader.now)) (R.remaining (inner_of self.new.reader.now)) result buf.new }
        ensures calls { calls_of self.new.reader.now + self.new.calls_left ≤ calls_of self.old.reader.now + self.old.calls_left }
        ensures again { IfErr result (λ error. is_interruption (error_kind error) ≡ false) }
        ensures stopped { OnErr result (HasRisenBy 1 (failures_of self.old.reader.now) (failures_of self.new.reader.now) ⊎ HasRisenBy self.old.calls_left (calls_of self.old.reader.now) (calls_of self.new.reader.now)) }
    {
        for _ in 0..self.calls_left {
            self.calls_left = self.calls_left.saturating_sub(1);
            match self.reader.read(buf) {
                Ok(count) => return Ok(count),
                Err(error) => {
                    if !matches!(error.kind(), ErrorKind::Interrupted) {
                        return Err(error);
                    }
                }
            }
        }
        Err(io::Error::from(ErrorKind::TimedOut))
    }
}
