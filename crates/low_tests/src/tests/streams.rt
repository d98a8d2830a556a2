//! Bundles read whole and texts written whole, over readers and writers that fail.

use super::same;
use super::told::{counts, fake_reader, fake_writer, has_taken};
use mrp_rows::devices::{Act, Acts, Fussy, Pieces, Stretch};
use mrp_rows::{ReadFault, Told, Tries, WriteFault, read_bundle, read_within, write_text};
use std::io::ErrorKind;

// Every call is interrupted.
const INTERRUPTED: Acts<'static> = Acts {
    stretches: &[],
    after: Act::Interrupts,
};

#[test]
fn a_text_is_written_whole_over_short_and_interrupted_writes(rt: HostRuntime) {
    const TURNS: &[Stretch] = &[
        Stretch(1, Act::Moves(1)),
        Stretch(1, Act::Interrupts),
        Stretch(1, Act::Moves(2)),
        Stretch(1, Act::Moves(1)),
    ];
    const TEXTS: &[&[u8]] = &[b"abcdef", b"", b"gh"];
    let mut writer = fake_writer(rt.alloc(), TURNS);
    let mut tries = Tries::new();
    for text in TEXTS {
        same(&rt, write_text(&mut writer, text, &mut tries), Ok(()));
    }
    same(&rt, counts(&writer), (6, 1, 0));
    has_taken(&rt, writer, b"abcdefgh");
}

#[test]
fn a_failing_writer_has_a_front_of_the_text(rt: HostRuntime) {
    const FAILING: &[[Stretch; 4]] = &[
        [
            Stretch(1, Act::Moves(2)),
            Stretch(1, Act::Interrupts),
            Stretch(1, Act::Moves(1)),
            Stretch(1, Act::Fails(ErrorKind::BrokenPipe)),
        ],
        [
            Stretch(1, Act::Moves(2)),
            Stretch(1, Act::Interrupts),
            Stretch(1, Act::Moves(1)),
            Stretch(1, Act::Moves(0)),
        ],
    ];
    for turns in FAILING {
        let mut writer = fake_writer(rt.alloc(), turns);
        let written = write_text(&mut writer, b"abcdef", &mut Tries::new());
        same(&rt, written, Err(WriteFault));
        same(&rt, writer.failures(), 1);
        has_taken(&rt, writer, b"abc");
    }
}

#[test]
fn interrupted_writes_are_tried_again_a_million_times(rt: HostRuntime) {
    // A text, the expected result, and the number of writes that were then interrupted.
    const WRITES: &[(&[u8], Result<(), WriteFault>, u64)] = &[
        (b"", Ok(()), 0),
        (b"a", Err(WriteFault), 1_000_001),
        (b"a", Err(WriteFault), 1_000_002),
    ];
    let mut writer = Told::new(Fussy::new(rt.alloc(), INTERRUPTED));
    let mut tries = Tries::new();
    for (text, want, interrupted) in WRITES {
        same(&rt, write_text(&mut writer, text, &mut tries), *want);
        same(&rt, counts(&writer), (*interrupted, *interrupted, 0));
    }
}

#[test]
fn a_bundle_is_read_over_short_and_interrupted_reads(rt: HostRuntime) {
    const TURNS: &[Stretch] = &[
        Stretch(1, Act::Moves(1)),
        Stretch(1, Act::Interrupts),
        Stretch(1, Act::Moves(2)),
        Stretch(1, Act::Interrupts),
        Stretch(1, Act::Interrupts),
    ];
    let mut reader = fake_reader(TURNS, b"abcdef");
    let bytes = read_bundle(rt.alloc(), &mut reader).expect(&rt, "a bundle");
    same(&rt, bytes.as_slice(), b"abcdef".as_slice());
    same(&rt, counts(&reader), (7, 3, 0));
    drop(bytes);
}

#[test]
fn a_failing_reader_is_told(rt: HostRuntime) {
    const TURNS: &[Stretch] = &[
        Stretch(1, Act::Moves(3)),
        Stretch(1, Act::Interrupts),
        Stretch(1, Act::Fails(ErrorKind::BrokenPipe)),
    ];
    let mut reader = fake_reader(TURNS, b"abcdef");
    let fault = read_bundle(rt.alloc(), &mut reader).err();
    same(&rt, fault, Some(ReadFault::Read));
    same(&rt, counts(&reader), (3, 1, 1));
}

#[test]
fn reads_past_the_limit_of_calls_are_refused(rt: HostRuntime) {
    let mut reader = Told::new(Pieces::new(b"abc", INTERRUPTED));
    let fault = read_within(rt.alloc(), &mut reader, 10, 1_000).err();
    same(&rt, fault, Some(ReadFault::Read));
    same(&rt, counts(&reader), (1_000, 1_000, 0));
}

#[test]
fn the_end_may_come_at_the_last_call_and_the_last_byte(rt: HostRuntime) {
    const TURNS: &[Stretch] = &[Stretch(1, Act::Moves(2)), Stretch(1, Act::Moves(1))];
    // The greatest numbers of bytes and calls, and whether three bytes are read within them.
    const LIMITS: &[(usize, u32, bool)] = &[
        (3, 3, true),
        (2, 3, false),
        (3, 2, false),
        (usize::MAX, u32::MAX, true),
    ];
    for (most_bytes, most_calls, want) in LIMITS {
        let mut reader = fake_reader(TURNS, b"abc");
        let read = read_within(rt.alloc(), &mut reader, *most_bytes, *most_calls);
        same(&rt, read.is_ok(), *want);
    }
}
