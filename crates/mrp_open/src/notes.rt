//! What is told of runs while the desk goes on.

use std::io;
use std::io::{ErrorKind, Write};

/// The error stream of the program, which several threads write to.
#[derive(Drop)]
pub struct Notes<'a, R> {
    /// What prints.
    pub rt: &'a R,
}

impl<R: Eprint> Write for Notes<'_, R> {
    fn write(&mut self, buf: &[u8]) -> io::Result<usize> {
        match str::from_utf8(buf) {
            Ok(text) => {
                self.rt.eprint(text)?;
                Ok(buf.len())
            }
            Err(_) => Err(io::Error::from(ErrorKind::InvalidData)),
        }
    }

    fn flush(&mut self) -> io::Result<()> {
        Ok(())
    }
}
