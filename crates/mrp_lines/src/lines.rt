//! An input read line by line.

ghost use Rattle.std.specs.Prelude.{◌≡◌, ◌≤◌, IfOk, drop, length, take};
ghost use Rattle.std.specs.Io.KnownBytes.{Consumes, Keeps};
ghost use Rattle.mrp_lines.specs.Left.{IsNext, ahead_of, left_of};
ghost use Rattle.mrp_lines.specs.Lines.{IsLineAt};
ghost use Rattle.mrp_lines.specs.Next.{IsRest};

use crate::line::Line;
use crate::window::{Front, ROOM, Window};
use memchr::memrchr2;
use mrp_qty::NoMemory;
use std::alloc::Global;
use std::io;
use std::io::Read;

/// What an input begins with.
#[derive(Clone, Copy)]
pub enum Next {
    /// A line of this many bytes, which is a record without quotes.
    Line(usize),
    /// Lines of this many bytes, whose records csv has to find.
    Lines(usize),
    /// The rest of the input, of this many bytes, whose records csv has to find.
    Rest(usize),
    /// 65,536 bytes of one line.
    Long,
}

// What bytes begin with that are the input's last or fill the room to read ahead.
fn rest_of(bytes: &[u8]) -> Next
    requires { length bytes.now ≤ ROOM }
    ensures { IsRest bytes.now result }
{
    if bytes.len() < ROOM {
        return Next::Rest(bytes.len());
    }
    match memrchr2(b'\n', b'\r', bytes) {
        Some(place) => Next::Lines(place + 1),
        None => Next::Long,
    }
}

/// An input of which lines are taken.
#[derive(Drop)]
pub struct Lines<R> {
    input: R,
    window: Window,
}

impl<R: Read> Lines<R> {
    /// The lines of an input.
    ///
    /// Errors: `NoMemory` if an allocation fails; the input is dropped then.
    pub fn new(alloc: Global, input: R) -> Result<Lines<R>, NoMemory>
    where
        R: Drop,
        ensures { IfOk result (λ lines. left_of R.remaining lines ≡ R.remaining input) }
    {
        let window = Window::new(alloc)?;
        Ok(Lines { input, window })
    }

    /// What the input begins with. Where a line feed, a quote, a carriage return or what begins a byte order
    /// mark stands in the way, that is lines or the rest, of up to 65,536 bytes.
    ///
    /// Errors: those of the input.
    pub fn find(&mut self) -> io::Result<Next>
        ensures kept { Keeps (left_of R.remaining self.old) (left_of R.remaining self.new) }
        ensures next { IfOk result (IsNext R.remaining self.new) }
    {
        loop {
            match self.window.front() {
                Front::Line(len) => return Ok(Next::Line(len)),
                Front::Other | Front::Part => {
                    if self.window.fill(&mut self.input)? == 0 {
                        return Ok(rest_of(self.window.bytes()));
                    }
                }
            }
        }
    }

    /// The line of this many bytes that was found.
    pub fn line(&self, len: usize) -> Line<'_>
        requires { IsLineAt len (ahead_of self.now) }
        ensures { result ≡ take len (ahead_of self.now) }
    {
        Line::of(self.window.bytes(), len)
    }

    /// This many bytes of those that were read ahead.
    pub fn front(&self, len: usize) -> &[u8]
        requires { len ≤ length (ahead_of self.now) }
        ensures { result.now ≡ take len (ahead_of self.now) }
    {
        &self.window.bytes()[..len]
    }

    /// Takes off this many bytes of those that were read ahead.
    pub fn advance(&mut self, count: usize)
        requires { count ≤ length (ahead_of self.old) }
        ensures ahead { ahead_of self.new ≡ drop count (ahead_of self.old) }
        ensures left { Consumes (left_of R.remaining self.old) (left_of R.remaining self.new) (take count (ahead_of self.old)) }
    {
        self.window.advance(count);
    }
}
