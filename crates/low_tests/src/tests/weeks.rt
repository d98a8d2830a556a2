//! Rows over weeks.

ghost use Rattle.std.specs.Prelude.{◌≡◌, length};

use super::{MOST, pieces, same};
use mrp_phase::{PhaseFault, Weeks};
use mrp_qty::Qty;
use std::alloc::Global;
use std::process::Abort;

// The row with these pieces by week.
pub fn row_of(rt: &impl Abort, alloc: Global, counts: &[u64]) -> Weeks<Qty> {
    let mut row = Vec::new(alloc);
    for count in counts {
        row.push(pieces(rt, *count)).expect(rt, "memory");
    }
    Weeks::from_vec(row)
}

// Fails unless a row has these pieces by week.
pub fn has_row(rt: &impl Abort, alloc: Global, row: &Weeks<Qty>, counts: &[u64]) {
    same(rt, row.as_slice(), row_of(rt, alloc, counts).as_slice());
}

// Fails unless two rows have the same weeks.
pub fn of_one_length(rt: &impl Abort, left: &Weeks<Qty>, right: &Weeks<Qty>)
    ensures { length left.now ≡ length right.now }
{
    assert!(rt; left.weeks() == right.weeks());
}

// Fails unless a row has these sums, and these greatest pieces so far.
fn grows(rt: &impl Abort, alloc: Global, row: &Weeks<Qty>, sums: &[u64], greatest: &[u64]) {
    let summed = row.cumulative(alloc).expect(rt, "sums");
    has_row(rt, alloc, &summed, sums);
    let most = row.prefix_max(alloc).expect(rt, "memory");
    has_row(rt, alloc, &most, greatest);
    drop((summed, most));
}

#[test]
fn sums_and_greatest_quantities_grow_week_by_week(rt: HostRuntime) {
    const ROWS: [([u64; 3], [u64; 3], [u64; 3]); 2] = [
        ([10, 8, 12], [10, 18, 30], [10, 10, 12]),
        ([MOST - 1, 1, 0], [MOST - 1, MOST, MOST], [MOST - 1; 3]),
    ];
    for (counts, sums, greatest) in ROWS {
        let row = row_of(&rt, rt.alloc(), &counts);
        grows(&rt, rt.alloc(), &row, &sums, &greatest);
        drop(row);
    }
}

#[test]
fn a_sum_past_the_greatest_quantity_is_too_large(rt: HostRuntime) {
    let row = row_of(&rt, rt.alloc(), &[MOST - 1, 1, 1]);
    let sums = row.cumulative(rt.alloc()).err();
    same(&rt, sums, Some(PhaseFault::TooLarge));
    drop(row);
}
