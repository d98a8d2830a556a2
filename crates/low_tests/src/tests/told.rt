//! Readers and writers that count their calls, over fakes that move little, are interrupted or fail.

use super::same;
use mrp_rows::Told;
use mrp_rows::devices::{Act, Acts, Fussy, Pieces, Stretch};
use std::alloc::Global;
use std::io::{ErrorKind, Read, Write};
use std::process::Abort;

// These calls, and after them those that move everything.
fn acts(stretches: &[Stretch]) -> Acts<'_> {
    Acts {
        stretches,
        after: Act::Moves(usize::MAX),
    }
}

pub fn fake_reader<'a>(stretches: &'a [Stretch], bytes: &'a [u8]) -> Told<Pieces<'a>> {
    Told::new(Pieces::new(bytes, acts(stretches)))
}

pub fn fake_writer(alloc: Global, stretches: &[Stretch]) -> Told<Fussy<'_>> {
    Told::new(Fussy::new(alloc, acts(stretches)))
}

// The number of calls of a reader or a writer, and of those that were interrupted and that failed.
pub fn counts<T>(told: &Told<T>) -> (u64, u64, u64) {
    (told.calls(), told.interrupted(), told.failures())
}

#[test]
fn reads_are_told_by_what_came_of_them(rt: HostRuntime) {
    const TURNS: &[Stretch] = &[
        Stretch(1, Act::Moves(2)),
        Stretch(1, Act::Interrupts),
        Stretch(1, Act::Fails(ErrorKind::BrokenPipe)),
        Stretch(1, Act::Interrupts),
    ];
    // The bytes that each read moves, and the buffer after it.
    const READS: &[(Option<usize>, [u8; 4])] = &[
        (Some(2), [b'a', b'b', 0, 0]),
        (None, [b'a', b'b', 0, 0]),
        (None, [b'a', b'b', 0, 0]),
        (None, [b'a', b'b', 0, 0]),
        (Some(3), [b'c', b'd', b'e', 0]),
        (Some(0), [b'c', b'd', b'e', 0]),
    ];
    let mut reader = fake_reader(TURNS, b"abcde");
    let mut buf = [0; 4];
    same(&rt, counts(&reader), (0, 0, 0));
    for want in READS {
        same(&rt, (reader.read(&mut buf).ok(), buf), *want);
    }
    same(&rt, counts(&reader), (6, 2, 1));
    same(&rt, reader.into_inner().left().len(), 0);
}

// Fails unless a writer has taken these bytes.
pub fn has_taken(rt: &impl Abort, writer: Told<Fussy<'_>>, want: &[u8]) {
    let writer = writer.into_inner();
    same(rt, writer.taken(), want);
    drop(writer);
}

#[test]
fn writes_of_no_byte_of_some_are_failures(rt: HostRuntime) {
    const TURNS: &[Stretch] = &[
        Stretch(1, Act::Moves(1)),
        Stretch(1, Act::Moves(0)),
        Stretch(1, Act::Interrupts),
        Stretch(1, Act::Fails(ErrorKind::BrokenPipe)),
        Stretch(1, Act::Interrupts),
    ];
    // The bytes written, how many of them are taken, and the number of calls that have then failed.
    const WRITES: &[(&[u8], Option<usize>, u64)] = &[
        (b"ab", Some(1), 0),
        (b"cd", Some(0), 1),
        (b"ef", None, 1),
        (b"gh", None, 2),
        (b"", None, 2),
        (b"", Some(0), 2),
        (b"ij", Some(2), 2),
    ];
    let mut writer = fake_writer(rt.alloc(), TURNS);
    for (bytes, taken, failures) in WRITES {
        let written = writer.write(bytes).ok();
        same(&rt, (written, writer.failures()), (*taken, *failures));
    }
    same(&rt, writer.flush().is_ok(), true);
    same(&rt, counts(&writer), (8, 2, 2));
    has_taken(&rt, writer, b"aij");
}

#[test]
fn a_flush_is_a_call_too(rt: HostRuntime) {
    const TURNS: &[Stretch] = &[
        Stretch(1, Act::Interrupts),
        Stretch(1, Act::Fails(ErrorKind::BrokenPipe)),
    ];
    let mut writer = fake_writer(rt.alloc(), TURNS);
    for want in [(1, 1, 0), (2, 1, 1)] {
        same(&rt, writer.flush().is_ok(), false);
        same(&rt, counts(&writer), want);
    }
}
