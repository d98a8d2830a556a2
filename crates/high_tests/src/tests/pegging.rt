//! Pegs of items and of plans.

use super::{made, same};
use mrp_item::Plan;
use mrp_peg::{Need, NeedKind, Peg, Supplied, item_pegs, pegs};
use sample_shops::{Records, bicycles_in_lots, morning, product_bookings, products};
use std::alloc::Global;
use std::process::Abort;

// A peg: the item, the week and the kind of its requirement, the supply, the pieces.
pub type Cells = (usize, Option<(u16, NeedKind)>, Supplied, u64);

// Fails unless these are the pegs, and each requirement has the item of its peg.
pub fn are_pegs(rt: &impl Abort, got: &[Peg], want: &[Cells]) {
    same(rt, got.len(), want.len());
    for (peg, (item, need, supply, pieces)) in got.iter().zip(want) {
        let need = match need {
            Some((week, kind)) => Some(Need {
                item: *item,
                week: *week,
                kind: *kind,
            }),
            None => None,
        };
        same(rt, (peg.item, peg.need, peg.supply), (*item, need, *supply));
        same(rt, peg.quantity.value(), *pieces);
    }
}

// Fails unless these are the pegs of a plan, and those of its items in order.
fn has_pegs(rt: &impl Abort, alloc: Global, plan: &Plan, want: &[Cells]) {
    let all = pegs(alloc, plan).expect(rt, "pegs");
    are_pegs(rt, all.as_slice(), want);
    let mut by_item = Vec::new(alloc);
    for item in 0..plan.inputs().shop().tables().items().len() {
        let own = item_pegs(alloc, plan, item).expect(rt, "pegs");
        by_item
            .extend_from_slice(own.as_slice())
            .expect(rt, "memory");
        drop(own);
    }
    same(rt, by_item.as_slice(), all.as_slice());
    drop((all, by_item));
}

// The pegs of bicycles in lots; two bill lines put two wheels into one bicycle.
const BICYCLE_PEGS: &[Cells] = &[
    (0, Some((1, NeedKind::Booking(5))), Supplied::Stock, 10),
    (0, Some((2, NeedKind::Forecast)), Supplied::Order(1), 8),
    (0, Some((3, NeedKind::Booking(1))), Supplied::Order(2), 12),
    (0, Some((4, NeedKind::Forecast)), Supplied::Order(2), 6),
    (0, Some((5, NeedKind::Booking(2))), Supplied::Order(2), 2),
    (0, Some((5, NeedKind::Booking(2))), Supplied::Order(3), 20),
    (0, Some((5, NeedKind::Booking(2))), Supplied::Order(4), 3),
    (
        1,
        Some((1, NeedKind::Parent { line: 1, order: 1 })),
        Supplied::Stock,
        8,
    ),
    (
        1,
        Some((2, NeedKind::Parent { line: 1, order: 2 })),
        Supplied::Stock,
        4,
    ),
    (
        1,
        Some((2, NeedKind::Parent { line: 1, order: 2 })),
        Supplied::Order(1),
        16,
    ),
    (
        1,
        Some((4, NeedKind::Parent { line: 1, order: 3 })),
        Supplied::Order(1),
        4,
    ),
    (
        1,
        Some((4, NeedKind::Parent { line: 1, order: 3 })),
        Supplied::Order(2),
        16,
    ),
    (
        1,
        Some((4, NeedKind::Parent { line: 1, order: 4 })),
        Supplied::Order(2),
        3,
    ),
    (1, None, Supplied::Order(2), 1),
    (1, None, Supplied::Receipt(1), 15),
    (
        2,
        Some((1, NeedKind::Parent { line: 2, order: 1 })),
        Supplied::Stock,
        8,
    ),
    (
        2,
        Some((1, NeedKind::Parent { line: 3, order: 1 })),
        Supplied::Stock,
        8,
    ),
    (
        2,
        Some((2, NeedKind::Parent { line: 2, order: 2 })),
        Supplied::Stock,
        14,
    ),
    (
        2,
        Some((2, NeedKind::Parent { line: 2, order: 2 })),
        Supplied::Order(1),
        6,
    ),
    (
        2,
        Some((2, NeedKind::Parent { line: 3, order: 2 })),
        Supplied::Order(1),
        20,
    ),
    (
        2,
        Some((4, NeedKind::Parent { line: 2, order: 3 })),
        Supplied::Order(2),
        20,
    ),
    (
        2,
        Some((4, NeedKind::Parent { line: 2, order: 4 })),
        Supplied::Order(2),
        3,
    ),
    (
        2,
        Some((4, NeedKind::Parent { line: 3, order: 3 })),
        Supplied::Order(2),
        20,
    ),
    (
        2,
        Some((4, NeedKind::Parent { line: 3, order: 4 })),
        Supplied::Order(2),
        3,
    ),
];

// The pegs of a product with shrinkage, and of its parts.
const PRODUCT_PEGS: &[Cells] = &[
    (0, Some((1, NeedKind::Booking(2))), Supplied::Stock, 3),
    (0, Some((1, NeedKind::Forecast)), Supplied::Stock, 2),
    (0, Some((3, NeedKind::Booking(1))), Supplied::Order(1), 8),
    (0, Some((3, NeedKind::Booking(1))), Supplied::Order(2), 2),
    (0, Some((3, NeedKind::Booking(3))), Supplied::Order(2), 2),
    (0, Some((4, NeedKind::Forecast)), Supplied::Order(3), 8),
    (0, Some((4, NeedKind::Forecast)), Supplied::Order(4), 13),
    (
        1,
        Some((1, NeedKind::Parent { line: 1, order: 1 })),
        Supplied::Stock,
        10,
    ),
    (
        1,
        Some((1, NeedKind::Parent { line: 1, order: 1 })),
        Supplied::Order(1),
        10,
    ),
    (
        1,
        Some((2, NeedKind::Parent { line: 1, order: 2 })),
        Supplied::Order(1),
        3,
    ),
    (
        1,
        Some((2, NeedKind::Parent { line: 1, order: 2 })),
        Supplied::Receipt(1),
        4,
    ),
    (
        1,
        Some((2, NeedKind::Parent { line: 1, order: 2 })),
        Supplied::Receipt(3),
        3,
    ),
    (
        1,
        Some((2, NeedKind::Parent { line: 1, order: 3 })),
        Supplied::Receipt(3),
        3,
    ),
    (
        1,
        Some((2, NeedKind::Parent { line: 1, order: 3 })),
        Supplied::Order(2),
        17,
    ),
    (
        1,
        Some((3, NeedKind::Parent { line: 1, order: 4 })),
        Supplied::Order(2),
        3,
    ),
    (
        1,
        Some((3, NeedKind::Parent { line: 1, order: 4 })),
        Supplied::Order(3),
        31,
    ),
    (1, None, Supplied::Order(3), 3),
    (2, None, Supplied::Stock, 5),
    (2, None, Supplied::Receipt(4), 1),
];

#[test]
fn starts_and_each_of_two_lines_are_required_and_what_is_left_is_surplus(rt: HostRuntime) {
    let bicycles = Records {
        bills: "BIKE,FRAME,1\nBIKE,WHEEL,1\nBIKE,WHEEL,1\n",
        ..bicycles_in_lots()
    };
    let shops = [
        (bicycles, morning(), BICYCLE_PEGS),
        (products(), product_bookings(), PRODUCT_PEGS),
    ];
    for (shop, calls, want) in shops {
        let plan = made(&rt, shop.plan(rt.alloc(), calls));
        has_pegs(&rt, rt.alloc(), &plan, want);
        drop(plan);
    }
}
