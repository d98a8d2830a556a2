//! What is made of sample shops, and what is said of calls.

ghost use Rattle.std.specs.Prelude.{◌≡◌, IfOk};

use mrp_book::Reply;
use sample_shops::said;
use std::io;
use std::io::{Eprint, ErrorKind};
use std::process::Termination;
use std::rt::Runtime;
use std::test::Fail;

// The call was out of memory twice.
pub(crate) fn out_of_memory() -> io::Error {
    io::Error::from(ErrorKind::OutOfMemory)
}

// What was made of a sample shop. Tells on standard error why nothing was.
pub(crate) fn given<R: Eprint, T>(rt: &R, made: Result<T, Fail>) -> io::Result<T>
    ensures { IfOk result (λ value. made ≡ Ok value) }
{
    match made {
        Ok(value) => Ok(value),
        Err(fail) => {
            let _status = Err::<(), Fail>(fail).report(rt);
            Err(out_of_memory())
        }
    }
}

// Prints an entry of an order book.
pub(crate) fn tell<R: Runtime>(rt: &R, number: u64, reply: &Reply) -> io::Result<()> {
    let (word, of_reply) = said(reply);
    println!(rt; "{number} {word} {of_reply}")
}

// Prints how often calls were out of memory.
pub(crate) fn tell_lacks<R: Runtime>(rt: &R, lacks: u64) -> io::Result<()> {
    println!(rt; "out of memory: {lacks}")
}
