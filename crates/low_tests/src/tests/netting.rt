//! Net requirements, and balances at the end of each week.

use super::weeks::{has_row, of_one_length, row_of};
use super::{MOST, pieces, same};
use mrp_net::{NetFault, Stock, balance_row, need, never_fall};
use mrp_phase::Weeks;
use mrp_qty::Qty;
use std::alloc::Global;
use std::process::Abort;

// An item: its stock on hand, its safety stock, and six weeks of gross requirements, scheduled
// receipts, cumulative planned receipts, and the expected net requirements and balances.
#[derive(Clone, Copy)]
struct Worked {
    on_hand: u64,
    safety: u64,
    gross: [u64; 6],
    scheduled: [u64; 6],
    receipts: [u64; 6],
    needs: [u64; 6],
    balances: [u64; 6],
}

// Bicycles, planned lot for lot; frames in lots of 20; wheels for two weeks at a time.
const WORKED: &[Worked] = &[
    Worked {
        on_hand: 10,
        safety: 0,
        gross: [10, 8, 12, 6, 25, 0],
        scheduled: [0, 0, 20, 0, 20, 0],
        receipts: [0, 8, 8, 8, 11, 11],
        needs: [0, 8, 8, 8, 11, 11],
        balances: [0, 0, 8, 2, 0, 0],
    },
    Worked {
        on_hand: 12,
        safety: 5,
        gross: [8, 20, 0, 23, 0, 0],
        scheduled: [0, 0, 15, 0, 0, 0],
        receipts: [20, 40, 40, 40, 40, 40],
        needs: [1, 21, 21, 29, 29, 29],
        balances: [24, 24, 39, 16, 16, 16],
    },
    Worked {
        on_hand: 30,
        safety: 0,
        gross: [16, 40, 0, 46, 0, 0],
        scheduled: [0; 6],
        receipts: [0, 26, 26, 72, 72, 72],
        needs: [0, 26, 26, 72, 72, 72],
        balances: [14, 0, 0, 0, 0, 0],
    },
];

// Stock on hand, safety stock, and scheduled receipts.
fn stock_of(rt: &impl Abort, alloc: Global, on_hand: u64, safety: u64, scheduled: &[u64]) -> Stock {
    Stock {
        on_hand: pieces(rt, on_hand),
        safety: pieces(rt, safety),
        scheduled: row_of(rt, alloc, scheduled),
    }
}

// The balances with cumulative receipts, which must not fall; fails if the rows differ in length.
fn balances_of(
    rt: &impl Abort,
    alloc: Global,
    gross: &Weeks<Qty>,
    stock: &Stock,
    receipts: &Weeks<Qty>,
) -> Result<Weeks<Qty>, NetFault> {
    of_one_length(rt, &stock.scheduled, gross);
    of_one_length(rt, receipts, gross);
    assert!(rt; never_fall(receipts.as_slice()));
    balance_row(alloc, gross, stock, receipts)
}

// Fails unless net requirements and balances are those of the item.
fn is_netted(
    rt: &impl Abort,
    alloc: Global,
    gross: &Weeks<Qty>,
    stock: &Stock,
    receipts: &Weeks<Qty>,
    item: &Worked,
) {
    of_one_length(rt, &stock.scheduled, gross);
    let needs = need(alloc, gross, stock).expect(rt, "needs");
    let want = row_of(rt, alloc, &item.needs);
    same(rt, needs.as_slice(), want.as_slice());
    drop((needs, want));
    let balances = balances_of(rt, alloc, gross, stock, receipts).expect(rt, "balances");
    has_row(rt, alloc, &balances, &item.balances);
    drop(balances);
}

#[test]
fn bikes_frames_and_wheels_are_netted(rt: HostRuntime) {
    for item in WORKED {
        let gross = row_of(&rt, rt.alloc(), &item.gross);
        let stock = stock_of(&rt, rt.alloc(), item.on_hand, item.safety, &item.scheduled);
        let receipts = row_of(&rt, rt.alloc(), &item.receipts);
        is_netted(&rt, rt.alloc(), &gross, &stock, &receipts, item);
        drop((gross, stock, receipts));
    }
}

// Two weeks of an item, and the faults of its net requirements and of its balances.
#[derive(Clone, Copy)]
struct Refused {
    on_hand: u64,
    safety: u64,
    gross: [u64; 2],
    scheduled: [u64; 2],
    receipts: [u64; 2],
    needs: Option<NetFault>,
    balances: Option<NetFault>,
}

// Fails unless net requirements and balances have these faults.
fn is_refused(
    rt: &impl Abort,
    alloc: Global,
    gross: &Weeks<Qty>,
    stock: &Stock,
    receipts: &Weeks<Qty>,
    item: &Refused,
) {
    of_one_length(rt, &stock.scheduled, gross);
    same(rt, need(alloc, gross, stock).err(), item.needs);
    let balances = balances_of(rt, alloc, gross, stock, receipts);
    same(rt, balances.err(), item.balances);
}

const NOTHING: Refused = Refused {
    on_hand: 0,
    safety: 0,
    gross: [0, 0],
    scheduled: [0, 0],
    receipts: [0, 0],
    needs: None,
    balances: None,
};

const LIMITS: &[Refused] = &[
    Refused {
        safety: 5,
        gross: [1, MOST - 6],
        receipts: [MOST, MOST],
        ..NOTHING
    },
    Refused {
        safety: 5,
        gross: [1, MOST - 5],
        receipts: [MOST, MOST],
        needs: Some(NetFault::TooLarge),
        balances: Some(NetFault::TooLarge),
        ..NOTHING
    },
    Refused {
        on_hand: 7,
        scheduled: [0, MOST - 7],
        ..NOTHING
    },
    Refused {
        on_hand: 7,
        scheduled: [0, MOST - 6],
        needs: Some(NetFault::TooLarge),
        balances: Some(NetFault::TooLarge),
        ..NOTHING
    },
    Refused {
        on_hand: 7,
        scheduled: [MOST - 8, 0],
        receipts: [1, 1],
        ..NOTHING
    },
    Refused {
        on_hand: 7,
        scheduled: [MOST - 7, 0],
        receipts: [1, 1],
        balances: Some(NetFault::TooLarge),
        ..NOTHING
    },
];

#[test]
fn sums_reach_the_greatest_quantity_and_no_more(rt: HostRuntime) {
    for item in LIMITS {
        let gross = row_of(&rt, rt.alloc(), &item.gross);
        let stock = stock_of(&rt, rt.alloc(), item.on_hand, item.safety, &item.scheduled);
        let receipts = row_of(&rt, rt.alloc(), &item.receipts);
        is_refused(&rt, rt.alloc(), &gross, &stock, &receipts, item);
        drop((gross, stock, receipts));
    }
}
