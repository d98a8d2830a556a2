//! Supplies, and what is available to promise.

use super::{made, pieces, same};
use mrp_bill::Shop;
use mrp_master::{AtpRow, Line, LineFault, Nodes, Spot, Supply, Wish, available_in, earliest_in};
use sample_shops::bicycles;
use std::alloc::Global;
use std::process::Abort;

// An item, a week and a quantity, and why they are not a line.
const LINES: &[(usize, u16, u64, Option<LineFault>)] = &[
    (0, 1, 1, None),
    (0, 6, 1_000_000_000, None),
    (3, 1, 1, Some(LineFault::UnknownItem)),
    (1, 1, 1, Some(LineFault::NotMaster)),
    (0, 7, 1, Some(LineFault::BadWeek)),
    (0, 0, 1, Some(LineFault::BadWeek)),
    (0, 1, 0, Some(LineFault::ZeroQuantity)),
    (0, 1, 1_000_000_001, Some(LineFault::TooLarge)),
    // The first of two faults.
    (3, 7, 1, Some(LineFault::UnknownItem)),
    (3, 1, 0, Some(LineFault::UnknownItem)),
    (3, 1, 1_000_000_001, Some(LineFault::UnknownItem)),
    (1, 7, 1, Some(LineFault::NotMaster)),
    (1, 1, 0, Some(LineFault::NotMaster)),
    (1, 1, 1_000_000_001, Some(LineFault::NotMaster)),
    (0, 7, 0, Some(LineFault::BadWeek)),
    (0, 7, 1_000_000_001, Some(LineFault::BadWeek)),
];

// The expected result: the value, or the fault.
fn wanted<T: Copy>(made_of: T, fault: &Option<LineFault>) -> Result<T, LineFault> {
    match fault {
        Some(fault) => Err(*fault),
        None => Ok(made_of),
    }
}

// Fails unless each line has the values that it was made from, or its first fault.
fn are_lines(rt: &impl Abort, shop: &Shop) {
    for (item, week, count, fault) in LINES {
        let quantity = pieces(rt, *count);
        let line = Line::new(shop, *item, *week, quantity);
        let got = line.map(|line| (line.item(), line.week(), line.quantity()));
        same(rt, got, wanted((*item, *week, quantity), fault));
    }
}

// An item, a week, and why they are not a spot.
const SPOTS: &[(usize, u16, Option<LineFault>)] = &[
    (0, 1, None),
    (0, 6, None),
    (3, 7, Some(LineFault::UnknownItem)),
    (2, 7, Some(LineFault::NotMaster)),
    (0, 7, Some(LineFault::BadWeek)),
    (0, 0, Some(LineFault::BadWeek)),
];

// Fails unless each spot has the values that it was made from, or its first fault.
fn are_spots(rt: &impl Abort, shop: &Shop) {
    for (item, week, fault) in SPOTS {
        let spot = Spot::new(shop, *item, *week);
        let got = spot.map(|spot| (spot.item(), spot.week()));
        same(rt, got, wanted((*item, *week), fault));
    }
}

// An item, a quantity, and why they are not a wish.
const WISHES: &[(usize, u64, Option<LineFault>)] = &[
    (0, 1_000_000_000, None),
    (3, 0, Some(LineFault::UnknownItem)),
    (1, 1_000_000_001, Some(LineFault::NotMaster)),
    (0, 0, Some(LineFault::ZeroQuantity)),
    (0, 1_000_000_001, Some(LineFault::TooLarge)),
];

// Fails unless each wish has the values that it was made from, or its first fault.
fn are_wishes(rt: &impl Abort, shop: &Shop) {
    for (item, count, fault) in WISHES {
        let quantity = pieces(rt, *count);
        let wish = Wish::new(shop, *item, quantity);
        let got = wish.map(|wish| (wish.item(), wish.quantity()));
        same(rt, got, wanted((*item, quantity), fault));
    }
}

#[test]
fn lines_spots_and_wishes_are_what_they_were_made_of_or_their_first_fault(rt: HostRuntime) {
    let shop = made(&rt, bicycles().shop(rt.alloc()));
    are_lines(&rt, &shop);
    are_spots(&rt, &shop);
    are_wishes(&rt, &shop);
    drop(shop);
}

// The row of bicycles.
fn bike_row(rt: &impl Abort, alloc: Global) -> AtpRow {
    let shop = made(rt, bicycles().shop(alloc));
    let supply = Supply::of(alloc, &shop).expect(rt, "memory");
    let row = AtpRow::of(alloc, &supply, 0);
    drop((shop, supply));
    row.expect(rt, "memory")
}

// The pieces in a week's bucket, available and booked.
fn week_of(rt: &impl Abort, row: &AtpRow, week: u16) -> (u64, u64, u64) {
    assert!(rt; 1 <= week && week <= row.weeks());
    (
        row.bucket(week).value(),
        row.available(week).value(),
        row.booked(week).value(),
    )
}

// Fails unless the six weeks of a row have these pieces in their buckets, available and booked.
fn is_row(
    rt: &impl Abort,
    row: &AtpRow,
    buckets: &[u64; 6],
    available: &[u64; 6],
    booked: &[u64; 6],
) {
    for place in 0..6 {
        same(
            rt,
            week_of(rt, row, place as u16 + 1),
            (buckets[place], available[place], booked[place]),
        );
    }
}

// Fails unless these are the first weeks in which these pieces are available.
fn are_earliest(rt: &impl Abort, row: &AtpRow, wishes: &[(u64, Option<u16>)]) {
    for (count, week) in wishes {
        same(rt, row.earliest(pieces(rt, *count)), *week);
    }
}

// Books pieces, which must be available in the week.
fn take(rt: &impl Abort, row: &mut AtpRow, week: u16, count: u64) {
    let quantity = pieces(rt, count);
    let weeks = row.weeks();
    assert!(rt; 1 <= week);
    assert!(rt; week <= weeks);
    let most = row.available(week);
    assert!(rt; quantity.value() <= most.value());
    row.take(week, quantity);
}

// Releases pieces, which must be booked in the week.
fn give(rt: &impl Abort, row: &mut AtpRow, week: u16, count: u64) {
    let quantity = pieces(rt, count);
    assert!(rt; 1 <= week && week <= row.weeks());
    assert!(rt; quantity.value() <= row.booked(week).value());
    row.give(week, quantity);
}

#[test]
fn an_overdraft_is_carried_back(rt: HostRuntime) {
    let mut row = bike_row(&rt, rt.alloc());
    take(&rt, &mut row, 3, 12);
    take(&rt, &mut row, 5, 25);
    take(&rt, &mut row, 1, 10);
    is_row(
        &rt,
        &row,
        &[0, 0, 3, 0, 0, 0],
        &[0, 0, 3, 3, 3, 3],
        &[10, 0, 12, 0, 25, 0],
    );
    are_earliest(&rt, &row, &[(3, Some(3)), (4, None)]);
    give(&rt, &mut row, 5, 25);
    is_row(
        &rt,
        &row,
        &[0, 0, 8, 0, 20, 0],
        &[0, 0, 8, 8, 28, 28],
        &[10, 0, 12, 0, 0, 0],
    );
    are_earliest(&rt, &row, &[(28, Some(5)), (29, None)]);
}

// What is available in a week by the nodes of a row's tree; fails unless few are read.
fn available_by_nodes(rt: &impl Abort, row: &AtpRow, week: u16) -> u64 {
    assert!(rt; 1 <= week && week <= row.weeks());
    let mut nodes = row.nodes();
    let available = available_in(&mut nodes, week);
    assert!(rt; nodes.reads() <= 16);
    available.value()
}

// The first week for a number of pieces by the nodes of a row's tree; fails unless few are read.
fn earliest_by_nodes(rt: &impl Abort, row: &AtpRow, count: u64) -> Option<u16> {
    let mut nodes = row.nodes();
    let week = earliest_in(&mut nodes, pieces(rt, count));
    assert!(rt; nodes.reads() <= 16);
    week
}

// Fails unless these are available in six weeks by a row's tree, and these are the first weeks.
fn is_told_by_nodes(
    rt: &impl Abort,
    row: &AtpRow,
    available: &[u64; 6],
    wishes: &[(u64, Option<u16>)],
) {
    for place in 0..6 {
        let told = available_by_nodes(rt, row, place as u16 + 1);
        same(rt, told, available[place]);
    }
    for (count, week) in wishes {
        same(rt, earliest_by_nodes(rt, row, *count), *week);
    }
}

#[test]
fn a_few_nodes_tell_what_is_promised(rt: HostRuntime) {
    let mut row = bike_row(&rt, rt.alloc());
    take(&rt, &mut row, 3, 12);
    take(&rt, &mut row, 5, 25);
    take(&rt, &mut row, 1, 10);
    give(&rt, &mut row, 5, 25);
    is_told_by_nodes(
        &rt,
        &row,
        &[0, 0, 8, 8, 28, 28],
        &[(0, Some(1)), (8, Some(3)), (28, Some(5)), (29, None)],
    );
    drop(row);
}

// A tree's horizon, and its first and last places.
fn ends_of<N: Nodes>(nodes: &mut N) -> (u16, i64, i64, u64) {
    let root = nodes.read(1);
    let past = nodes.read(255);
    (nodes.weeks(), root.sum, past.sum, nodes.reads())
}

#[test]
fn a_node_is_what_the_weeks_below_it_change(rt: HostRuntime) {
    let mut row = bike_row(&rt, rt.alloc());
    take(&rt, &mut row, 5, 25);
    same(&rt, ends_of(&mut row.nodes()), (6, 25, 0, 2));
    let mut nodes = row.nodes();
    let fifth = nodes.read(132);
    same(&rt, (fifth.sum, fifth.least), (-5, -5));
    let first_four = nodes.read(32);
    same(&rt, (first_four.sum, first_four.least), (30, 10));
}
