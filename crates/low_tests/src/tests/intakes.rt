//! The lines of an input that comes in pieces.

use super::same;
use super::told::fake_reader;
use mrp_intake::Intake;
use mrp_rows::devices::{Act, Stretch};
use std::io::ErrorKind;

#[test]
fn lines_come_in_pieces(rt: HostRuntime) {
    const READS: &[Stretch] = &[
        Stretch(1, Act::Moves(15)),
        Stretch(1, Act::Interrupts),
        Stretch(9, Act::Moves(3)),
    ];
    // Whether there is a batch, and how many bytes it has.
    const WANT: [(bool, usize); 4] = [(true, 10), (true, 10), (true, 4), (false, 0)];
    let mut reader = fake_reader(READS, b"1,run,,,,\n2,run,,,,\nhalf");
    let mut intake = Intake::new(rt.alloc());
    for want in WANT {
        let some = intake.next_batch(&mut reader).is_ok_and(|some| some);
        same(&rt, (some, intake.batch().len()), want);
    }
    drop(intake);
    drop(reader);
}

#[test]
fn a_read_fails(rt: HostRuntime) {
    const READS: &[Stretch] = &[
        Stretch(1, Act::Moves(3)),
        Stretch(1, Act::Fails(ErrorKind::Other)),
    ];
    let mut reader = fake_reader(READS, b"1,run,,,,\n");
    let mut intake = Intake::new(rt.alloc());
    same(&rt, intake.next_batch(&mut reader).is_ok(), false);
    drop(intake);
    drop(reader);
}
