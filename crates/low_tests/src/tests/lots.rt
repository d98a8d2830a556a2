//! Planned receipts of the lot rules.

ghost use Rattle.std.specs.Prelude.{◌≡◌, ◌<◌, ◌≤◌, ◌+◌, ℕ, length, IfOk};
ghost use Rattle.mrp_phase.specs.Weeks.{in_week};

use super::weeks::{has_row, of_one_length, row_of};
use super::{MOST, pieces, same};
use mrp_lots::{Fixed, Lot, LotForLot, Period, Stepped, receipts};
use mrp_net::{NeedRow, NetFault, Stock, need};
use mrp_phase::Weeks;
use mrp_qty::Qty;
use std::alloc::Global;
use std::process::Abort;

// The net requirements of six weeks of gross requirements, with no stock and no scheduled receipts.
fn needs_of(rt: &impl Abort, alloc: Global, gross: &[u64; 6]) -> NeedRow {
    let gross = row_of(rt, alloc, gross);
    let stock = Stock {
        on_hand: pieces(rt, 0),
        safety: pieces(rt, 0),
        scheduled: row_of(rt, alloc, &[0; 6]),
    };
    of_one_length(rt, &gross, &stock.scheduled);
    need(alloc, &gross, &stock).expect(rt, "needs")
}

// What holds of any lot rule: its receipts cover the net requirements, and nothing is ordered where they do.
fn lawful<L: Lot>(alloc: Global, needs: &NeedRow, lot: &L) -> Result<Weeks<Qty>, NetFault>
    ensures covers { IfOk result (λ w. (t : ℕ) → 0 < t → t ≤ length needs.now → in_week needs.now t ≤ in_week w t) }
    ensures idle { IfOk result (λ w. (t : ℕ) → t + 1 ≤ length needs.now → in_week needs.now (t + 1) ≤ in_week w t → in_week w (t + 1) ≡ in_week w t) }
{
    let _rises = needs.as_slice();
    let received = receipts(alloc, needs, lot)?;
    Ok(received)
}

// Fails unless a rule makes these planned receipts for gross requirements.
fn comes<L: Lot>(rt: &impl Abort, alloc: Global, gross: &[u64; 6], lot: &L, want: &[u64; 6]) {
    let needs = needs_of(rt, alloc, gross);
    let received = lawful(alloc, &needs, lot).expect(rt, "receipts");
    has_row(rt, alloc, &received, want);
    drop((needs, received));
}

#[test]
fn each_rule_orders_what_is_lacking(rt: HostRuntime) {
    let alloc = rt.alloc();
    let bikes = [0, 8, 0, 0, 3, 0];
    comes(&rt, alloc, &bikes, &LotForLot, &[0, 8, 8, 8, 11, 11]);
    let frames = [1, 20, 0, 8, 0, 0];
    let twenties = Fixed::new(20);
    comes(&rt, alloc, &frames, &twenties, &[20, 40, 40, 40, 40, 40]);
    let wheels = [0, 26, 0, 46, 0, 0];
    let pairs = Period::new(2);
    comes(&rt, alloc, &wheels, &pairs, &[0, 26, 26, 72, 72, 72]);
}

// Fails unless orders for a number of weeks, with a minimum order quantity and an order multiple, make these receipts.
fn comes_in_steps(rt: &impl Abort, alloc: Global, rule: (u64, u64, u64), rows: [&[u64; 6]; 2]) {
    let (weeks, least, step) = rule;
    let [gross, want] = rows;
    let lot = Stepped::new(weeks, least, step).expect(rt, "a lot rule");
    comes(rt, alloc, gross, &lot, want);
}

#[test]
fn orders_are_raised_to_a_minimum_and_rounded_up(rt: HostRuntime) {
    const CASES: [((u64, u64, u64), [u64; 6], [u64; 6]); 3] = [
        ((1, 5, 4), [0, 8, 0, 0, 3, 0], [0, 8, 8, 8, 16, 16]),
        (
            (2, 50, 12),
            [0, 26, 7, 46, 0, 0],
            [0, 60, 60, 120, 120, 120],
        ),
        ((1, 0, 2), [0, 0, 0, 0, 0, MOST], [0, 0, 0, 0, 0, MOST]),
    ];
    for (rule, gross, want) in CASES {
        comes_in_steps(&rt, rt.alloc(), rule, [&gross, &want]);
    }
}

#[test]
fn lots_past_the_greatest_quantity_are_too_large(rt: HostRuntime) {
    let needs = needs_of(&rt, rt.alloc(), &[1, 0, 0, 0, 0, MOST - 1]);
    let third = Fixed::new(333_333_333_333_334);
    let received = receipts(rt.alloc(), &needs, &third).err();
    same(&rt, received, Some(NetFault::TooLarge));
    drop(needs);
}
