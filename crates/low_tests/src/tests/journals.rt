//! Journals in memory, whose calls fail in turn.

ghost use Rattle.std.specs.Prelude.{◌≡◌, []};
ghost use Rattle.mrp_journal.specs.Held.{settled};
ghost use Rattle.mrp_journal.specs.Memory.{memory_held};

use super::same;
use super::told::{counts, fake_writer};
use mrp_journal::{MemoryStore, begin, settle};
use mrp_rows::Told;
use mrp_rows::devices::{Act, Stretch};
use std::alloc::Global;
use std::io::{BufWriter, ErrorKind, Write};

const HEADER: &[u8] = b"desk,call,item,date,quantity,number\n";

const RECORD: &[u8] = b"1,run,,,,\n";

const ANSWER: &[u8] = b"1,1,run,,,,,front,1\n";

// Begins a journal in an empty file, and settles a batch in it. Whether that succeeds.
fn is_settled<W: Write>(journal: &mut MemoryStore, out: &mut Told<W>) -> bool
    requires { memory_held journal.old ≡ settled [] }
{
    begin(journal, b"", HEADER).is_ok() && settle(journal, RECORD, ANSWER, out).is_ok()
}

// Whether a batch is settled where the calls of the journal fail after so many; how many bytes the journal then has,
// how many of them are durable, and how many answers were written.
fn settled(alloc: Global, calls: u64, stretches: &[Stretch]) -> (bool, usize, usize, usize) {
    let mut journal = MemoryStore::new(Vec::new(alloc), calls);
    let mut out = fake_writer(alloc, stretches);
    let done = is_settled(&mut journal, &mut out);
    let written = out.into_inner();
    let told = written.taken().len();
    let left = (journal.bytes().len(), journal.durable().len());
    drop(written);
    drop(journal);
    (done, left.0, left.1, told)
}

#[test]
fn each_call_of_a_journal_fails(rt: HostRuntime) {
    const WANT: [(bool, usize, usize, usize); 6] = [
        (false, 0, 0, 0),
        (false, 18, 0, 0),
        (false, 36, 0, 0),
        (false, 41, 36, 0),
        (false, 46, 36, 0),
        (true, 46, 46, 20),
    ];
    let mut calls = 0;
    for want in WANT {
        same(&rt, settled(rt.alloc(), calls, &[]), want);
        calls = calls.wrapping_add(1);
    }
}

#[test]
fn answers_that_cannot_be_written(rt: HostRuntime) {
    const FAILS: &[Stretch] = &[
        Stretch(1, Act::Moves(3)),
        Stretch(1, Act::Fails(ErrorKind::BrokenPipe)),
    ];
    same(&rt, settled(rt.alloc(), 9, FAILS), (false, 46, 46, 3));
}

#[test]
fn a_flush_is_tried_again(rt: HostRuntime) {
    const TURNS: &[Stretch] = &[Stretch(1, Act::Moves(20)), Stretch(2, Act::Interrupts)];
    let mut journal = MemoryStore::new(Vec::new(rt.alloc()), 9);
    let mut out = fake_writer(rt.alloc(), TURNS);
    same(&rt, is_settled(&mut journal, &mut out), true);
    same(&rt, counts(&out), (4, 2, 0));
    drop(out);
    drop(journal);
}

#[test]
fn answers_do_not_wait_in_a_buffer(rt: HostRuntime) {
    let mut journal = MemoryStore::new(Vec::new(rt.alloc()), 9);
    let buffer = BufWriter::new(rt.alloc(), Vec::new(rt.alloc())).expect(&rt, "memory");
    let mut out = Told::new(buffer);
    same(&rt, is_settled(&mut journal, &mut out), true);
    let buffer = out.into_inner();
    same(&rt, buffer.get_ref().as_slice(), ANSWER);
    drop(buffer);
    drop(journal);
}
