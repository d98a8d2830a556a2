//! In which line a byte of a file stands.

use mrp_survey::ends_own_line;

// The line of a byte, and whether a carriage return precedes it, so that a line feed ends no further line.
#[derive(Clone, Copy)]
pub(crate) struct Counter {
    pub(crate) line: u64,
    pub(crate) after_return: bool,
}

impl Counter {
    ghost use Rattle.std.specs.Prelude.{◌≡◌, ◌+◌, ◌<◌, ◌≤◌, ◌^◌, length};
    ghost use Rattle.mrp_inspect.specs.Lines.{at_front, counted, counted_all};

    // At the start of a file.
    pub(crate) fn new() -> Counter
        ensures { result ≡ at_front }
    {
        Counter {
            line: 1,
            after_return: false,
        }
    }

    // Behind one byte more.
    fn after(self, byte: u8) -> Counter
        requires { self.line + 1 < 2 ^ 64 }
        ensures { result ≡ counted self byte }
    {
        Counter {
            line: if ends_own_line(self.after_return, byte) {
                self.line + 1
            } else {
                self.line
            },
            after_return: byte == b'\r',
        }
    }

    // Behind more bytes.
    pub(crate) fn behind(self, bytes: &[u8]) -> Counter
        requires { self.line + length bytes.now < 2 ^ 64 }
        ensures all { result ≡ counted_all self bytes.now }
        ensures most { result.line ≤ self.line + length bytes.now }
    {
        let mut counter = self;
        for byte in bytes {
            counter = counter.after(*byte);
        }
        counter
    }
}
