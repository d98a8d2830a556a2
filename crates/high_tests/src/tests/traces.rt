//! Sources and traces of requirements.

use super::pegging::{Cells, are_pegs};
use super::{made, same};
use mrp_item::Plan;
use mrp_peg::{Cause, Need, NeedKind, Supplied, sources, trace};
use sample_shops::{
    Asked, Records, bicycles, bicycles_in_lots, bicycles_with_service, morning, no_records,
};
use std::alloc::Global;
use std::process::Abort;

// A requirement: item, week and kind; its sources and its causes.
type Back = ((usize, u16, NeedKind), &'static [Cells], &'static [Cause]);

// Fails unless the requirements of a plan go back so.
fn go_back(rt: &impl Abort, alloc: Global, plan: &Plan, want: &[Back]) {
    for ((item, week, kind), pegs, causes) in want {
        let need = Need {
            item: *item,
            week: *week,
            kind: *kind,
        };
        let own = sources(alloc, plan, &need).expect(rt, "sources");
        are_pegs(rt, own.as_slice(), pegs);
        let ends = trace(alloc, plan, &need).expect(rt, "trace");
        same(rt, ends.as_slice(), *causes);
        drop((own, ends));
    }
}

// A frame is for a forecast and for surplus of bicycles.
const FRAMES: &[Back] = &[(
    (1, 2, NeedKind::Parent { line: 1, order: 1 }),
    &[
        (0, Some((4, NeedKind::Forecast)), Supplied::Order(1), 4),
        (0, None, Supplied::Order(1), 16),
    ],
    &[
        Cause::Forecast { item: 0, week: 4 },
        Cause::Surplus { item: 0, order: 1 },
    ],
)];

// A booking is its own cause, and what is not there has none.
const BOOKINGS: &[Back] = &[
    (
        (0, 5, NeedKind::Booking(2)),
        &[],
        &[Cause::Booking { item: 0, number: 2 }],
    ),
    ((0, 5, NeedKind::Booking(4)), &[], &[]),
    ((1, 3, NeedKind::Parent { line: 1, order: 1 }), &[], &[]),
    ((9, 1, NeedKind::Parent { line: 1, order: 1 }), &[], &[]),
];

// So is service part demand.
const SERVICE: &[Back] = &[
    (
        (2, 3, NeedKind::Service(5)),
        &[],
        &[Cause::Service { item: 2, row: 5 }],
    ),
    ((2, 4, NeedKind::Service(5)), &[], &[]),
    ((2, 3, NeedKind::Service(4)), &[], &[]),
];

// The sources of the requirement of B that A's lot makes, and its causes. The forecast of week 5 is
// served by both firm orders, and is one cause.
const LOT_PEGS: &[Cells] = &[
    (
        1,
        Some((2, NeedKind::Parent { line: 1, order: 1 })),
        Supplied::Order(1),
        10,
    ),
    (
        1,
        Some((4, NeedKind::Parent { line: 1, order: 2 })),
        Supplied::Order(1),
        10,
    ),
    (1, None, Supplied::Order(1), 5),
];

const LOT_CAUSES: &[Cause] = &[
    Cause::Booking { item: 0, number: 1 },
    Cause::Forecast { item: 0, week: 3 },
    Cause::Forecast { item: 0, week: 5 },
    Cause::Surplus { item: 0, order: 2 },
    Cause::Surplus { item: 1, order: 1 },
];

const LOTS: &[Back] = &[(
    (2, 1, NeedKind::Parent { line: 2, order: 1 }),
    LOT_PEGS,
    LOT_CAUSES,
)];

// Towers of three levels: the lot of A serves both firm orders of TOP, and has surplus.
fn towers() -> Records<'static> {
    Records {
        items: "TOP,master,1,0,lfl,0,0\nA,part,1,0,fixed,25,0\nB,part,0,0,lfl,0,0\n",
        bills: "TOP,A,1\nA,B,1\n",
        master: "\
TOP,firm,2025-01-20,10\n\
TOP,firm,2025-02-03,10\n\
TOP,forecast,2025-01-20,8\n\
TOP,forecast,2025-02-03,6\n",
        ..no_records()
    }
}

#[test]
fn requirements_go_back_to_what_they_are_for(rt: HostRuntime) {
    let shops: [(Records, &[(u64, Asked)], &[Back]); 4] = [
        (bicycles(), &[], FRAMES),
        (bicycles_in_lots(), morning(), BOOKINGS),
        (bicycles_with_service(), morning(), SERVICE),
        (towers(), &[(1, Asked::Book(3, 5))], LOTS),
    ];
    for (shop, calls, want) in shops {
        let plan = made(&rt, shop.plan(rt.alloc(), calls));
        go_back(&rt, rt.alloc(), &plan, want);
        drop(plan);
    }
}
