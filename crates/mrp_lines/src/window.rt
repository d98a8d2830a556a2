//! Bytes that were read ahead.

ghost use Rattle.std.specs.Prelude.{◌≡◌, ◌⊎◌, ◌+◌, ◌-◌, ◌<◌, ◌≤◌, [], IfOk, OnErr, drop, length, slice_range, take, true};
ghost use Rattle.std.specs.Io.KnownBytes.{Consumes, IsAtEnd, Keeps, prepend_known};
ghost use Rattle.mrp_lines.specs.Lines.{ArePlain, IsFront, IsKnown, IsMore};

use memchr::{memchr, memchr2};
use mrp_qty::NoMemory;
use std::alloc::Global;
use std::io;
use std::io::Read;
use std::marker::Model;

// How many bytes are read ahead. No line of a day is longer.
pub(crate) const ROOM: usize = 65_536;

// The first byte of a byte order mark, which csv skips at the start of a text.
const MARK: u8 = 0xEF;

// What the bytes that were read ahead begin with.
pub(crate) enum Front {
    // A line of this many bytes, which csv would read as its cells.
    Line(usize),
    // Maybe a line that was not read to its end.
    Part,
    // What is left to csv.
    Other,
}

// Whether no byte is a quote or a carriage return.
fn are_plain(bytes: &[u8]) -> bool
    ensures { IsKnown result bytes.now }
{
    memchr2(b'"', b'\r', bytes).is_none()
}

// The same of bytes that are known to be plain, or not known to be.
fn are_still_plain(known: bool, bytes: &[u8]) -> bool
    requires { known ≡ true → ArePlain bytes.now }
    ensures { IsKnown result bytes.now }
{
    known || are_plain(bytes)
}

// Moves the bytes between two places to the start of a buffer, and tells how many they are.
fn move_to_start(buffer: &mut Vec<u8>, start: usize, end: usize) -> usize
    requires ordered { start ≤ end }
    requires inside { end ≤ length buffer.old.items }
    ensures count { result ≡ end - start }
    ensures long { length buffer.new.items ≡ length buffer.old.items }
    ensures moved { take result buffer.new.items ≡ slice_range buffer.old.items start end }
{
    buffer.as_mut_slice().copy_within(start..end, 0);
    end - start
}

// Reads once into a buffer, from a place on.
fn read_behind<R: Read>(input: &mut R, buffer: &mut Vec<u8>, place: usize) -> io::Result<usize>
    requires { place ≤ length buffer.old.items }
    ensures long { length buffer.new.items ≡ length buffer.old.items }
    ensures front { take place buffer.new.items ≡ take place buffer.old.items }
    ensures within { IfOk result (λ count. place + count ≤ length buffer.old.items) }
    ensures read { IfOk result (λ count. Consumes (R.remaining input.old) (R.remaining input.new) (take count (drop place buffer.new.items))) }
    ensures none { IfOk result (λ count. count ≡ 0 → place < length buffer.old.items → IsAtEnd (R.remaining input.new)) }
    ensures failed { OnErr result (Keeps (R.remaining input.old) (R.remaining input.new)) }
{
    input.read(&mut buffer.as_mut_slice()[place..])
}

// Bytes that were read ahead; contracts see them as their list.
#[derive(Drop)]
pub(crate) struct Window {
    buffer: Vec<u8>,
    start: usize,
    end: usize,
    // Whether no byte of them is a quote or a carriage return.
    is_plain: bool,
}

impl Model for Window {
    ghost use Rattle.std.specs.Prelude.{List, slice_range, ℕ};
    ghost use Rattle.mrp_lines.specs.Lines.{IsWithin};

    ghost Value = { List ℕ };

    ghost view = { λ w. slice_range w.buffer.items w.start w.end };

    ghost invariant = { λ w. IsWithin w.start w.end w.is_plain w.buffer.items };
}

impl Window {
    // No bytes.
    pub(crate) fn new(alloc: Global) -> Result<Window, NoMemory>
        ensures { IfOk result (λ window. window ≡ []) }
    {
        let mut buffer = Vec::with_capacity(alloc, ROOM)?;
        buffer.resize(ROOM, 0)?;
        Ok(Window {
            buffer,
            start: 0,
            end: 0,
            is_plain: true,
        })
    }

    // The bytes.
    pub(crate) fn bytes(&self) -> &[u8]
        ensures { result.now ≡ self.now }
    {
        let all = self.buffer.as_slice();
        &all[self.start..self.end]
    }

    // What they begin with.
    pub(crate) fn front(&self) -> Front
        ensures { IsFront self.now result }
    {
        if !self.is_plain {
            return Front::Other;
        }
        let bytes = self.bytes();
        match bytes.first().copied() {
            None => Front::Part,
            Some(b'\n' | MARK) => Front::Other,
            Some(_) => match memchr(b'\n', bytes) {
                Some(len) => Front::Line(len),
                None => Front::Part,
            },
        }
    }

    // Takes the first bytes off.
    pub(crate) fn advance(&mut self, count: usize)
        requires { count ≤ length self.old }
        ensures { self.new ≡ drop count self.old }
    {
        self.start += count;
        // The quote or the carriage return among the bytes may be taken off.
        self.is_plain = are_still_plain(
            self.is_plain,
            &self.buffer.as_slice()[self.start..self.end],
        );
    }

    // Reads once, behind the bytes, and returns how many more there are: none at the end of the
    // input, or if there is no room.
    pub(crate) fn fill<R: Read>(&mut self, input: &mut R) -> io::Result<usize>
        ensures kept { Keeps (prepend_known self.old (R.remaining input.old)) (prepend_known self.new (R.remaining input.new)) }
        ensures more { IfOk result (IsMore self.old self.new) }
        ensures room { IfOk result (λ count. length self.new ≤ ROOM) }
        ensures none { IfOk result (λ count. count ≡ 0 → (length self.new ≡ ROOM) ⊎ IsAtEnd (R.remaining input.new)) }
    {
        self.end = move_to_start(&mut self.buffer, self.start, self.end);
        self.start = 0;
        let count = read_behind(input, &mut self.buffer, self.end)?;
        self.end += count;
        self.is_plain = are_plain(&self.buffer.as_slice()[self.start..self.end]);
        Ok(count)
    }
}
