//! Readers and writers that count their calls.

ghost use Rattle.std.specs.Prelude.{◌≡◌, length};
ghost use Rattle.std.specs.Io.{ReadsAtMost, WritesAtMost};
ghost use Rattle.std.specs.Io.KnownBytes.{Keeps, ReadConsumes, WriteAppends};
ghost use Rattle.std.specs.IoError.{error_kind};
ghost use Rattle.mrp_rows.specs.Told.{counted, counted_if, is_interruption, was_interrupted, has_failed, moved_in};

use std::io;
use std::io::{ErrorKind, Read, Write};

// The outcomes of the calls so far. Each count saturates.
#[derive(Clone, Copy)]
struct Counts {
    calls: u64,
    interrupted: u64,
    failures: u64,
    moved: u64,
}

const NONE: Counts = Counts {
    calls: 0,
    interrupted: 0,
    failures: 0,
    moved: 0,
};

pub(crate) fn is_interrupted(error: &io::Error) -> bool
    ensures { result ≡ is_interruption (error_kind error.now) }
{
    matches!(error.kind(), ErrorKind::Interrupted)
}

// The bytes that a read gave or a write took.
fn moved(outcome: &io::Result<usize>) -> u64
    ensures { result ≡ moved_in outcome.now }
{
    match outcome {
        Ok(n) => *n as u64,
        Err(_) => 0,
    }
}

impl Counts {
    // Counts a call that had this outcome.
    fn count_call<X>(&mut self, outcome: &io::Result<X>)
        ensures calls { self.new.calls ≡ counted 1 self.old.calls }
        ensures interrupted { self.new.interrupted
            ≡ counted_if (was_interrupted outcome.now) self.old.interrupted }
        ensures failures { self.new.failures
            ≡ counted_if (has_failed outcome.now) self.old.failures }
        ensures moved { self.new.moved ≡ self.old.moved }
    {
        self.calls = self.calls.saturating_add(1);
        if let Err(error) = outcome {
            if is_interrupted(error) {
                self.interrupted = self.interrupted.saturating_add(1);
            } else {
                self.count_failure();
            }
        }
    }

    fn count_failure(&mut self)
        ensures { self.new ≡ record self.old { failures = counted 1 self.old.failures } }
    {
        self.failures = self.failures.saturating_add(1);
    }
}

/// A reader or a writer that counts the calls of its inner value, those that were interrupted,
/// and those that failed: an error other than an interruption, or a non-empty write that took no byte.
///
/// Each count saturates at `u64::MAX`, and there counts as risen by any amount.
#[derive(Drop)]
pub struct Told<T> {
    inner: T,
    counts: Counts,
}

impl<T> Told<T> {
    ghost use Rattle.std.specs.Prelude.{◌≡◌};
    ghost use Rattle.mrp_rows.specs.Told.{inner_of, calls_of, interrupted_of, failures_of, moved_of};

    /// A reader or a writer with nothing counted yet.
    pub fn new(inner: T) -> Told<T>
        ensures inner { inner_of result ≡ inner }
        ensures calls { calls_of result ≡ 0 }
        ensures interrupted { interrupted_of result ≡ 0 }
        ensures failures { failures_of result ≡ 0 }
        ensures moved { moved_of result ≡ 0 }
    {
        Told {
            inner,
            counts: NONE,
        }
    }

    /// How many calls of the inner value were made.
    pub fn calls(&self) -> u64
        ensures { result ≡ calls_of self.now }
    {
        self.counts.calls
    }

    /// How many of them were interrupted.
    pub fn interrupted(&self) -> u64
        ensures { result ≡ interrupted_of self.now }
    {
        self.counts.interrupted
    }

    /// How many of them failed.
    pub fn failures(&self) -> u64
        ensures { result ≡ failures_of self.now }
    {
        self.counts.failures
    }

    /// The inner value.
    pub fn into_inner(self) -> T
        ensures { result ≡ inner_of self }
    {
        let Told { inner, counts: _ } = self;
        inner
    }
}

impl<R: Read> Read for Told<R> {
    ghost use Rattle.std.specs.Prelude.{◌≡◌};
    ghost use Rattle.std.specs.Io.{ReadsAtMost};
    ghost use Rattle.std.specs.Io.KnownBytes.{ReadConsumes};
    ghost use Rattle.mrp_rows.specs.Told.{inner_of, calls_of, interrupted_of, failures_of, moved_of, counted, counted_if, was_interrupted, has_failed, moved_in};

    ghost remaining = { λ told. R.remaining (inner_of told) };

    fn read(&mut self, buf: &mut [u8]) -> io::Result<usize>
        ensures bound { ReadsAtMost result buf.new }
        ensures bytes { ReadConsumes
            (R.remaining (inner_of self.old)) (R.remaining (inner_of self.new)) result buf.new }
        ensures calls { calls_of self.new ≡ counted 1 (calls_of self.old) }
        ensures interrupted { interrupted_of self.new
            ≡ counted_if (was_interrupted result) (interrupted_of self.old) }
        ensures failures { failures_of self.new
            ≡ counted_if (has_failed result) (failures_of self.old) }
        ensures moved { moved_of self.new ≡ counted (moved_in result) (moved_of self.old) }
    {
        let outcome = self.inner.read(buf);
        self.counts.count_call(&outcome);
        self.counts.moved = self.counts.moved.saturating_add(moved(&outcome));
        outcome
    }
}

impl<W: Write> Write for Told<W> {
    ghost use Rattle.std.specs.Prelude.{◌≡◌, length};
    ghost use Rattle.std.specs.Io.{WritesAtMost};
    ghost use Rattle.std.specs.Io.KnownBytes.{Keeps, WriteAppends};
    ghost use Rattle.mrp_rows.specs.Told.{inner_of, calls_of, interrupted_of, failures_of, moved_of, counted, counted_if, was_interrupted, has_failed, write_has_failed, moved_in};

    ghost contents = { λ told. W.contents (inner_of told) };

    fn write(&mut self, buf: &[u8]) -> io::Result<usize>
        ensures bound { WritesAtMost result buf.now }
        ensures bytes { WriteAppends
            (W.contents (inner_of self.old)) (W.contents (inner_of self.new)) result buf.now }
        ensures calls { calls_of self.new ≡ counted 1 (calls_of self.old) }
        ensures interrupted { interrupted_of self.new
            ≡ counted_if (was_interrupted result) (interrupted_of self.old) }
        ensures failures { failures_of self.new
            ≡ counted_if (write_has_failed (length buf.now) result) (failures_of self.old) }
        ensures moved { moved_of self.new ≡ counted (moved_in result) (moved_of self.old) }
    {
        let outcome = self.inner.write(buf);
        self.counts.count_call(&outcome);
        self.counts.moved = self.counts.moved.saturating_add(moved(&outcome));
        if matches!(outcome, Ok(0)) && !buf.is_empty() {
            self.counts.count_failure();
        }
        outcome
    }

    fn flush(&mut self) -> io::Result<()>
        ensures bytes { Keeps (W.contents (inner_of self.old)) (W.contents (inner_of self.new)) }
        ensures calls { calls_of self.new ≡ counted 1 (calls_of self.old) }
        ensures interrupted { interrupted_of self.new
            ≡ counted_if (was_interrupted result) (interrupted_of self.old) }
        ensures failures { failures_of self.new
            ≡ counted_if (has_failed result) (failures_of self.old) }
        ensures moved { moved_of self.new ≡ moved_of self.old }
    {
        let outcome = self.inner.flush();
        self.counts.count_call(&outcome);
        outcome
    }
}
