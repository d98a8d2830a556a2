//! What commands leave of streams that move few bytes a call, fail at any one, or are interrupted.

use super::streams::{ALL, FAILS, acts, reader, writer};
use super::{made, same};
use mrp_main::run_words;
use mrp_rows::devices::{Act, Acts, EVERYTHING, Stretch, one_else};
use sample_shops::{Records, bicycles_welded};
use std::alloc::Global;
use std::fs;
use std::fs::File;
use std::io::{Eprint, Write};
use std::process::Abort;
use std::rt::Files;
use std::sync::Wait;
use std::test::Fail;
use std::thread::Threads;

// What a run is given: the input's text, and what input and output do.
#[derive(Clone, Copy)]
struct Streams<'a> {
    input: &'a str,
    reads: Acts<'a>,
    writes: Acts<'a>,
}

// Streams that move everything.
fn smooth(input: &str) -> Streams<'_> {
    Streams {
        input,
        reads: EVERYTHING,
        writes: EVERYTHING,
    }
}

// What a run left: its status, its output and its error stream.
#[derive(Drop)]
struct Left {
    status: u8,
    output: String,
    errors: String,
}

// What these words leave.
fn left_by<R: AllocGlobal + Abort + Eprint + Files<File = File> + Threads + Wait + Sync>(
    rt: &R,
    words: &[&str],
    streams: Streams<'_>,
) -> Left
where
    R::Dir: Send,
{
    let alloc = rt.alloc();
    let mut input = reader(streams.reads, streams.input);
    let mut output = writer(alloc, streams.writes);
    let mut errors = writer(alloc, EVERYTHING);
    let status = run_words(rt, alloc, words, &mut input, &mut output, &mut errors);
    Left {
        status,
        output: String::from_utf8(output.into_inner().into_taken()).expect(rt, "text"),
        errors: String::from_utf8(errors.into_inner().into_taken()).expect(rt, "text"),
    }
}

// Fails unless these words leave this status, this output and these errors.
fn words_leave<R: AllocGlobal + Abort + Eprint + Files<File = File> + Threads + Wait + Sync>(
    rt: &R,
    words: &[&str],
    streams: Streams<'_>,
    want: (u8, &str, &str),
)
where
    R::Dir: Send,
{
    let left = left_by(rt, words, streams);
    let got = (left.status, left.output.as_str(), left.errors.as_str());
    same(rt, got, want);
    drop(left);
}

// The files of a folder of the bicycle shop in which frames are welded, with this script.
fn files_of<'a>(script: &'a str) -> [(&'static str, &'static str, &'a str); 9] {
    let shop = bicycles_welded();
    [
        ("calendar", "key,value\n", shop.calendar),
        (
            "items",
            "item,class,lead,scrap,lot,size,safety\n",
            shop.items,
        ),
        ("centres", "centre,minutes\n", shop.centres),
        ("stock", "item,onhand\n", shop.stock),
        ("receipts", "item,order,date,quantity\n", shop.receipts),
        ("bills", "parent,component,per\n", shop.bills),
        (
            "routings",
            "item,op,centre,setup,run,offset\n",
            shop.routings,
        ),
        ("master", "item,row,date,quantity\n", shop.master),
        ("script", "desk,call,item,date,quantity,number\n", script),
    ]
}

fn make_file(files: &impl Files, path: &str, head: &str, rows: &str) -> Result<(), Fail> {
    let mut file = File::create(files, path)?;
    file.write_all(head.as_bytes())?;
    file.write_all(rows.as_bytes())?;
    Ok(())
}

// Makes that folder under this name, in which no order desk was opened. It may exist from an earlier run.
fn make_folder(rt: &(impl AllocGlobal + Files), folder: &str, script: &str) -> Result<(), Fail> {
    let _ = fs::create_dir(rt, "out");
    let _ = fs::create_dir(rt, folder);
    for (name, head, rows) in files_of(script) {
        let path = format!(in rt.alloc(); "{folder}/{name}.csv")?;
        make_file(rt, &path, head, rows)?;
    }
    let sum = format!(in rt.alloc(); "{folder}/desk.tables")?;
    let _ = fs::remove_file(rt, sum.as_str());
    Ok(())
}

// The calls of two desks in the bicycle shop.
const SCRIPT: &str = "\
1,book,BIKE,2025-01-20,12,\n\
1,book,BIKE,2025-02-03,25,\n\
2,ask,BIKE,2025-01-06,,\n\
2,book,BIKE,2025-01-13,15,\n\
2,book,BIKE,2025-01-06,10,\n\
1,ask,BIKE,2025-01-20,,\n\
1,run,,,,\n";

// Calls of one desk, so that a live day has one text.
const ONE_DESK: &str = "1,book,BIKE,2025-01-20,12,\n1,ask,BIKE,2025-01-06,,\n1,run,,,,\n";

// The bundle of the welded bicycles with these calls.
fn bundle_of<R: AllocGlobal + Abort + Eprint>(rt: &R, script: &str) -> String {
    let shop = Records {
        script,
        ..bicycles_welded()
    };
    made(rt, shop.bundle(rt.alloc()))
}

// Words, what they read, and what they write where all goes well.
#[derive(Drop)]
struct Case {
    words: &'static [&'static str],
    input: String,
    output: String,
}

fn case_of<R: AllocGlobal + Abort + Eprint + Files<File = File> + Threads + Wait + Sync>(
    rt: &R,
    words: &'static [&'static str],
    input: String,
) -> Case
where
    R::Dir: Send,
{
    let left = left_by(rt, words, smooth(&input));
    same(rt, left.status, 0);
    let Left {
        status: _,
        output,
        errors: _errors,
    } = left;
    Case {
        words,
        input,
        output,
    }
}

// The commands: all but the last read the input.
fn made_cases<R: AllocGlobal + Abort + Eprint + Files<File = File> + Threads + Wait + Sync>(
    rt: &R,
) -> [Case; 5]
where
    R::Dir: Send,
{
    const CHECK: &[&str] = &["check", "--dir", "out/lots"];
    const CARRY: &[&str] = &["carry", "--dir", "out/lots", "--start", "2025-01-06"];
    made(rt, make_folder(rt, "out/lots", SCRIPT));
    let plan = case_of(rt, &["plan"], bundle_of(rt, SCRIPT));
    let live = case_of(rt, &["live"], bundle_of(rt, ONE_DESK));
    let day = plan.output.clone().expect(rt, "memory");
    let check = case_of(rt, CHECK, day);
    let day = plan.output.clone().expect(rt, "memory");
    let page = case_of(rt, &["page"], day);
    let carry = case_of(rt, CARRY, String::new(rt.alloc()));
    [plan, live, check, page, carry]
}

// The bytes that a reader gives a call, and those that a writer takes.
const GIVEN: usize = 7;

const TAKEN: usize = 50;

// Fails unless these words say so of each read that fails, the one at the input's end too.
fn reads_are_told<R: AllocGlobal + Abort + Eprint + Files<File = File> + Threads + Wait + Sync>(
    rt: &R,
    case: &Case,
)
where
    R::Dir: Send,
{
    let usual = Act::Moves(GIVEN);
    for before in 0..=case.input.len().div_ceil(GIVEN) {
        let stretches = one_else(before as u64, FAILS, usual);
        let streams = Streams {
            reads: acts(&stretches, usual),
            ..smooth(&case.input)
        };
        words_leave(rt, case.words, streams, (4, "", "read failed\n"));
    }
}

#[test]
fn each_read_that_fails_is_told(rt: HostRuntime) {
    let cases = made_cases(&rt);
    for case in cases.iter().take(4) {
        reads_are_told(&rt, case);
    }
    drop(cases);
}

// Fails unless a run wrote all, or said that a write failed and wrote a prefix. Returns whether it wrote all.
fn has_front(rt: &impl Abort, left: &Left, output: &str) -> bool {
    let got = (left.status, left.output.as_str(), left.errors.as_str());
    let is_whole = left.status == 0;
    if is_whole {
        same(rt, got, (0, output, ""));
    } else {
        let front = output.get(..left.output.len()).unwrap_or("no front");
        same(rt, got, (4, front, "write failed\n"));
    }
    is_whole
}

// Fails unless these words say so of each write that does this, the last one too.
fn writes_are_told<R: AllocGlobal + Abort + Eprint + Files<File = File> + Threads + Wait + Sync>(
    rt: &R,
    case: &Case,
    act: Act,
)
where
    R::Dir: Send,
{
    let usual = Act::Moves(TAKEN);
    for before in 0..=case.output.len() {
        let stretches = one_else(before as u64, act, usual);
        let streams = Streams {
            writes: acts(&stretches, usual),
            ..smooth(&case.input)
        };
        let left = left_by(rt, case.words, streams);
        let is_whole = has_front(rt, &left, &case.output);
        drop(left);
        if is_whole {
            same(rt, before < case.output.len().div_ceil(TAKEN), false);
            return;
        }
    }
    rt.panic("there are more calls than bytes")
}

#[test]
fn each_write_that_fails_or_takes_nothing_is_told(rt: HostRuntime) {
    let cases = made_cases(&rt);
    for act in [FAILS, Act::Moves(0)] {
        for case in &cases {
            writes_are_told(&rt, case, act);
        }
    }
    drop(cases);
}

const SHORT: &[Stretch] = &[Stretch(1, Act::Moves(7)), Stretch(1, Act::Interrupts)];

// A writer that is interrupted 1,000,000 times, before its first byte and after it, and one that is interrupted once more.
const PATIENT: &[Stretch] = &[
    Stretch(500_000, Act::Interrupts),
    Stretch(1, Act::Moves(1)),
    Stretch(500_000, Act::Interrupts),
];

const IMPATIENT: &[Stretch] = &[
    Stretch(500_000, Act::Interrupts),
    Stretch(1, Act::Moves(1)),
    Stretch(500_001, Act::Interrupts),
];

// Fails unless these words go on where reads and writes are short and interrupted, and where a write is interrupted a
// million times, and give up after one time more.
fn go_on<R: AllocGlobal + Abort + Eprint + Files<File = File> + Threads + Wait + Sync>(
    rt: &R,
    case: &Case,
)
where
    R::Dir: Send,
{
    let whole = (0, case.output.as_str(), "");
    let front = case.output.get(..1).unwrap_or("no front");
    let cut = (4, front, "write failed\n");
    let tries = [
        (SHORT, Act::Moves(1), whole),
        (PATIENT, ALL, whole),
        (IMPATIENT, ALL, cut),
    ];
    for (stretches, after, want) in tries {
        let streams = Streams {
            input: &case.input,
            reads: acts(SHORT, Act::Moves(1)),
            writes: acts(stretches, after),
        };
        words_leave(rt, case.words, streams, want);
    }
}

#[test]
fn interrupted_calls_are_tried_again_a_million_times(rt: HostRuntime) {
    let cases = made_cases(&rt);
    for case in &cases {
        go_on(&rt, case);
    }
    drop(cases);
}

// What streams of an order desk do first: they move a line of 27 bytes, they move 5 bytes, or they move 7 between
// interruptions.
const LINE: &[Stretch] = &[Stretch(1, Act::Moves(27))];

const FRONT: &[Stretch] = &[Stretch(1, Act::Moves(5))];

const SLOW: &[Stretch] = &[
    Stretch(1, Act::Interrupts),
    Stretch(1, Act::Moves(7)),
    Stretch(1, Act::Interrupts),
];

// A read fails behind a line, then a write within an answer, and then streams are slow. Each start knows the calls of
// those before it, also the one whose answer was cut.
#[test]
fn streams_that_fail_end_an_order_desk(rt: HostRuntime) {
    const WORDS: &[&str] = &["desk", "--dir", "out/desk"];
    const BOOKED: &str = "1,1,book,BIKE,3,12,,booked,1\n";
    const CANCELS: &str = "3,1,cancel,,,,1,cancelled,\n4,1,cancel,,,,1,not-standing,\n";
    made(&rt, make_folder(&rt, "out/desk", ""));
    let unread = Streams {
        reads: acts(LINE, FAILS),
        ..smooth("1,book,BIKE,2025-01-20,12,\n1,run,,,,\n")
    };
    words_leave(&rt, WORDS, unread, (4, BOOKED, "read failed\n"));
    let untold = Streams {
        writes: acts(FRONT, FAILS),
        ..smooth("1,ask,BIKE,2025-01-20,,\n")
    };
    words_leave(&rt, WORDS, untold, (4, "2,1,a", "write failed\n"));
    let slow = Streams {
        reads: acts(SLOW, Act::Moves(1)),
        writes: acts(SLOW, ALL),
        ..smooth("1,cancel,,,,1\n1,cancel,,,,1\n")
    };
    words_leave(&rt, WORDS, slow, (0, CANCELS, ""));
}
