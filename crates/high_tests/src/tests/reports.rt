//! Texts of reports and histories.

use super::streams::{ALL, FAILS, writer};
use super::texts::{BICYCLE_REPORT, CALLED};
use super::{made, same};
use mrp_item::Plan;
use mrp_report::{ReportFault, write_history, write_report};
use mrp_rows::Told;
use mrp_rows::devices::{Act, Acts, Fussy, Stretch};
use sample_shops::{Asked, bicycles, book_of};
use std::alloc::Global;
use std::io::{Eprint, Write};
use std::process::Abort;
use std::thread::Threads;

// The report of a plan.
pub fn report_of<R: Alloc + Abort + Threads + Sync>(rt: &R, alloc: Global, plan: &Plan) -> String {
    let mut writer = Told::new(Vec::new(alloc));
    same(rt, write_report(rt, alloc, plan, &mut writer, 1), Ok(()));
    String::from_utf8(writer.into_inner()).expect(rt, "text")
}

// Fails unless a plan has this report.
pub fn has_report<R: Alloc + Abort + Threads + Sync>(
    rt: &R,
    alloc: Global,
    plan: &Plan,
    want: &str,
) {
    let report = report_of(rt, alloc, plan);
    same(rt, report.as_str(), want);
    drop(report);
}

// Writers that fail or are interrupted too often, and how many bytes they take before.
const FAILING: [(Acts<'static>, usize); 4] = [
    (
        Acts {
            stretches: &[],
            after: FAILS,
        },
        0,
    ),
    (
        Acts {
            stretches: &[Stretch(100, Act::Moves(1))],
            after: FAILS,
        },
        100,
    ),
    (
        Acts {
            stretches: &[Stretch(100, Act::Moves(1))],
            after: Act::Moves(0),
        },
        100,
    ),
    (
        Acts {
            stretches: &[
                Stretch(500_000, Act::Interrupts),
                Stretch(100, Act::Moves(1)),
                Stretch(500_001, Act::Interrupts),
            ],
            after: ALL,
        },
        100,
    ),
];

// Fails unless the write failed, and the writer has taken this number of bytes of the text.
fn has_front(
    rt: &impl Abort,
    written: Result<(), ReportFault>,
    writer: Told<Fussy<'_>>,
    text: &str,
    count: usize,
) {
    same(rt, written, Err(ReportFault::Write));
    let writer = writer.into_inner();
    same(rt, Some(writer.taken()), text.as_bytes().get(..count));
    drop(writer);
}

#[test]
fn a_failing_writer_has_a_front_of_the_report(rt: HostRuntime) {
    let plan = made(&rt, bicycles().plan(rt.alloc(), &[]));
    for (acts, count) in FAILING {
        let mut writer = writer(rt.alloc(), acts);
        let written = write_report(&rt, rt.alloc(), &plan, &mut writer, 1);
        has_front(&rt, written, writer, BICYCLE_REPORT, count);
    }
    drop(plan);
}

// Writes the history of these calls by desks of the bicycle shop.
fn write_calls<R: Abort + Eprint, W: Write>(
    rt: &R,
    alloc: Global,
    calls: &[(u64, Asked)],
    writer: &mut Told<W>,
) -> Result<(), ReportFault> {
    let shop = made(rt, bicycles().shop(alloc));
    let history = made(rt, book_of(alloc, &shop, calls)).into_history();
    let written = write_history(alloc, &history, &shop, writer);
    drop((shop, history));
    written
}

// Every kind of call by two desks, and a third desk that asks for the front.
const CALLS: &[(u64, Asked)] = &[
    (1, Asked::Book(3, 12)),
    (1, Asked::Book(5, 25)),
    (2, Asked::Ask(1)),
    (2, Asked::Book(2, 15)),
    (2, Asked::Book(1, 10)),
    (1, Asked::Ask(3)),
    (2, Asked::Cancel(2)),
    (1, Asked::Cancel(2)),
    (1, Asked::Cancel(2)),
    (1, Asked::Cancel(4)),
    (1, Asked::Ask(3)),
    (1, Asked::When(28)),
    (2, Asked::When(51)),
    (1, Asked::Snapshot),
    (64, Asked::Front),
];

#[test]
fn a_failing_writer_has_a_front_of_the_history(rt: HostRuntime) {
    for (acts, count) in FAILING {
        let mut writer = writer(rt.alloc(), acts);
        let written = write_calls(&rt, rt.alloc(), CALLS, &mut writer);
        has_front(&rt, written, writer, CALLED, count);
    }
}
