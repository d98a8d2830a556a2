//! Streams for tests: a reader and a writer that are told what to do in each call.
//!
//! A reader that gives 7 bytes a call and fails at its third:
//!
//! ```text
//! let usual = Act::Moves(7);
//! let stretches = one_else(2, Act::Fails(ErrorKind::Other), usual);
//! let acts = Acts { stretches: &stretches, after: usual };
//! let mut reader = Told::new(Pieces::new(bytes, acts));
//! ```

ghost use Rattle.std.specs.Prelude.{◌≡◌, ℕ};
ghost use Rattle.mrp_rows.specs.Devices.{Ends, act_at, act_in, error_in, most_in, one_else};

use mrp_qty::NoMemory;
use std::alloc::Global;
use std::io;
use std::io::{ErrorKind, Read, Write};

/// What a stream does in a call.
#[derive(Clone, Copy)]
pub enum Act {
    /// It moves so many bytes at most; a reader moves at least one of those that it has left, and a flush
    /// succeeds.
    Moves(usize),
    /// It is interrupted.
    Interrupts,
    /// It fails with an error of this kind.
    Fails(ErrorKind),
}

/// So many calls in a row, and what each of them does.
#[derive(Clone, Copy)]
pub struct Stretch(pub u64, pub Act);

/// What a stream does, call by call.
#[derive(Clone, Copy)]
pub struct Acts<'a> {
    /// Its first calls, in order.
    pub stretches: &'a [Stretch],
    /// What it does in each call after them.
    pub after: Act,
}

/// Everything is moved, in each call.
pub const EVERYTHING: Acts<'static> = Acts {
    stretches: &[],
    after: Act::Moves(usize::MAX),
};

/// The stretches of a stream that does `usual` in each call but the one after `before` others, which does
/// `act`. After the stretches it has to do `usual` too.
pub fn one_else(before: u64, act: Act, usual: Act) -> [Stretch; 2]
    ensures { (call : ℕ) → act_at result usual call ≡ one_else before act usual call }
{
    [Stretch(before, usual), Stretch(1, act)]
}

impl Acts<'_> {
    // What the call after so many does.
    fn act(&self, call: u64) -> Act
        ensures { result ≡ act_in self.now call }
    {
        let mut call = call;
        for stretch in self.stretches {
            if call < stretch.0 {
                return stretch.1;
            }
            call -= stretch.0;
        }
        self.after
    }
}

// How many bytes a call moves at most.
fn most_in(act: Act) -> io::Result<usize>
    ensures { Ends (error_in act) (most_in act) result }
{
    match act {
        Act::Moves(most) => Ok(most),
        Act::Interrupts => Err(io::Error::from(ErrorKind::Interrupted)),
        Act::Fails(why) => Err(io::Error::from(why)),
    }
}

/// A reader that hands over bytes, and in each call does what it is told.
#[derive(Drop)]
pub struct Pieces<'a> {
    bytes: &'a [u8],
    acts: Acts<'a>,
    calls: u64,
}

impl<'a> Pieces<'a> {
    ghost use Rattle.std.specs.Prelude.{◌≡◌};
    ghost use Rattle.mrp_rows.specs.Devices.{left_in, read_acts, reads_of};

    /// A reader of these bytes that was not called yet.
    pub fn new(bytes: &'a [u8], acts: Acts<'a>) -> Pieces<'a>
        ensures left { left_in result ≡ bytes.now }
        ensures acts { read_acts result ≡ acts.entry }
        ensures calls { reads_of result ≡ 0 }
    {
        Pieces {
            bytes,
            acts,
            calls: 0,
        }
    }

    /// The bytes that it has left.
    pub fn left(&self) -> &'a [u8]
        ensures { result.now ≡ left_in self.now }
    {
        let Pieces {
            bytes: left,
            acts: _,
            calls: _,
        } = self;
        *left
    }
}

impl Read for Pieces<'_> {
    ghost use Rattle.std.specs.Prelude.{◌≡◌, Some, drop, length, max, min, IfOk, OnErr};
    ghost use Rattle.std.specs.Io.{ReadsAtMost};
    ghost use Rattle.std.specs.Io.KnownBytes.{ReadConsumes};
    ghost use Rattle.mrp_rows.specs.Devices.{Ends, error_in, left_in, most_in, next_read, read_acts, reads_of};
    ghost use Rattle.mrp_rows.specs.Told.{counted};

    ghost remaining = { λ pieces. Some (left_in pieces) };

    fn read(&mut self, buf: &mut [u8]) -> io::Result<usize>
        ensures bound { ReadsAtMost result buf.new }
        ensures bytes { ReadConsumes (Some (left_in self.old)) (Some (left_in self.new)) result buf.new }
        ensures act { Ends (error_in (next_read self.old))
            (min (max (most_in (next_read self.old)) 1) (min (length buf.old) (length (left_in self.old)))) result }
        ensures behind { IfOk result (λ n. drop n buf.new ≡ drop n buf.old) }
        ensures untouched { OnErr result (buf.new ≡ buf.old) }
        ensures calls { reads_of self.new ≡ counted 1 (reads_of self.old) }
        ensures acts { read_acts self.new ≡ read_acts self.old }
    {
        let act = self.acts.act(self.calls);
        self.calls = self.calls.saturating_add(1);
        let most = most_in(act)?.max(1);
        let count = most.min(buf.len().min(self.bytes.len()));
        let (given, left) = self.bytes.split_at(count);
        let (room, _) = buf.split_at_mut(count);
        room.copy_from_slice(given);
        self.bytes = left;
        Ok(count)
    }
}

/// A writer that holds the bytes that it takes, and in each call does what it is told.
#[derive(Drop)]
pub struct Fussy<'a> {
    taken: Vec<u8>,
    acts: Acts<'a>,
    calls: u64,
}

impl<'a> Fussy<'a> {
    ghost use Rattle.std.specs.Prelude.{◌≡◌, ◌≤◌, [], IfOk};
    ghost use Rattle.mrp_rows.specs.Devices.{next_write, room_in, taken_in, write_acts, writes_of};
    ghost use Rattle.mrp_rows.specs.Told.{counted};

    // A writer of these acts that was not called yet, and holds these bytes.
    fn holding(taken: Vec<u8>, acts: Acts<'a>) -> Fussy<'a>
        ensures { result ≡ record { taken = taken; acts = acts.entry; calls = 0 } }
    {
        Fussy {
            taken,
            acts,
            calls: 0,
        }
    }

    /// A writer that was not called yet.
    pub fn new(alloc: Global, acts: Acts<'a>) -> Fussy<'a>
        ensures taken { taken_in result ≡ [] }
        ensures acts { write_acts result ≡ acts.entry }
        ensures calls { writes_of result ≡ 0 }
    {
        Fussy::holding(Vec::new(alloc), acts)
    }

    /// A writer that was not called yet, with room for so many bytes: it allocates nothing to take them.
    ///
    /// Errors: `NoMemory` if an allocation fails.
    pub fn with_room(alloc: Global, acts: Acts<'a>, room: usize) -> Result<Fussy<'a>, NoMemory>
        ensures room { IfOk result (λ fussy. room ≤ room_in fussy) }
        ensures taken { IfOk result (λ fussy. taken_in fussy ≡ []) }
        ensures acts { IfOk result (λ fussy. write_acts fussy ≡ acts.entry) }
        ensures calls { IfOk result (λ fussy. writes_of fussy ≡ 0) }
    {
        let taken = Vec::with_capacity(alloc, room)?;
        Ok(Fussy::holding(taken, acts))
    }

    /// The bytes that it took.
    pub fn taken(&self) -> &[u8]
        ensures { result.now ≡ taken_in self.now }
    {
        self.taken.as_slice()
    }

    /// The same, owned.
    pub fn into_taken(self) -> Vec<u8>
        ensures { result.items ≡ taken_in self.entry }
    {
        let Fussy {
            taken: held,
            acts: _,
            calls: _,
        } = self;
        held
    }

    // What the next call does, which is counted.
    fn next_act(&mut self) -> Act
        ensures act { result ≡ next_write self.old }
        ensures calls { self.new ≡ record self.old { calls = counted 1 (writes_of self.old) } }
    {
        let act = self.acts.act(self.calls);
        self.calls = self.calls.saturating_add(1);
        act
    }
}

impl Write for Fussy<'_> {
    ghost use Rattle.std.specs.Prelude.{◌≡◌, ◌≤◌, ◌<◌, ◌+◌, ◌⊎◌, Some, length, min};
    ghost use Rattle.std.specs.Io.{WritesAtMost};
    ghost use Rattle.std.specs.Io.KnownBytes.{Keeps, WriteAppends};
    ghost use Rattle.mrp_rows.specs.Devices.{Ends, EndsEmpty, HasNoRoom, error_in, most_in, moved_by, next_write, room_in, taken_in, write_acts, writes_of};
    ghost use Rattle.mrp_rows.specs.Told.{counted};

    ghost contents = { λ fussy. Some (taken_in fussy) };

    fn write(&mut self, buf: &[u8]) -> io::Result<usize>
        ensures bound { WritesAtMost result buf.now }
        ensures bytes { WriteAppends (Some (taken_in self.old)) (Some (taken_in self.new)) result buf.now }
        ensures act { Ends (error_in (next_write self.old))
            (min (most_in (next_write self.old)) (length buf.now)) result
            ⊎ (HasNoRoom result
            × (room_in self.old < min (most_in (next_write self.old)) (length buf.now))) }
        ensures room { room_in self.old ≤ room_in self.new + moved_by result }
        ensures calls { writes_of self.new ≡ counted 1 (writes_of self.old) }
        ensures acts { write_acts self.new ≡ write_acts self.old }
    {
        let most = most_in(self.next_act())?;
        let count = most.min(buf.len());
        let (front, _) = buf.split_at(count);
        self.taken.extend_from_slice(front)?;
        Ok(count)
    }

    fn flush(&mut self) -> io::Result<()>
        ensures bytes { Keeps (Some (taken_in self.old)) (Some (taken_in self.new)) }
        ensures act { EndsEmpty (error_in (next_write self.old)) result }
        ensures room { room_in self.old ≤ room_in self.new }
        ensures calls { writes_of self.new ≡ counted 1 (writes_of self.old) }
        ensures acts { write_acts self.new ≡ write_acts self.old }
    {
        most_in(self.next_act())?;
        Ok(())
    }
}
