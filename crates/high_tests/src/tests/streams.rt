//! Readers and writers that are told what to do in each call.

use mrp_rows::Told;
use mrp_rows::devices::{Act, Acts, Fussy, Pieces, Stretch};
use std::alloc::Global;
use std::io::ErrorKind;

// A call that fails.
pub const FAILS: Act = Act::Fails(ErrorKind::BrokenPipe);

// Everything is moved.
pub const ALL: Act = Act::Moves(usize::MAX);

// A stream that does these, and from then on this.
pub fn acts(stretches: &[Stretch], after: Act) -> Acts<'_> {
    Acts { stretches, after }
}

pub fn reader<'a>(acts: Acts<'a>, text: &'a str) -> Told<Pieces<'a>> {
    Told::new(Pieces::new(text.as_bytes(), acts))
}

pub fn writer<'a>(alloc: Global, acts: Acts<'a>) -> Told<Fussy<'a>> {
    Told::new(Fussy::new(alloc, acts))
}
