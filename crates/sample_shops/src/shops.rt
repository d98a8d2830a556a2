//! Sample shops, and calls of their desks. They are functions, so that proofs of tests do not see the texts.

use crate::asked::Asked;
use crate::records::Records;

/// A shop of six weeks that begin on 2025-01-06, without items.
pub fn no_records() -> Records<'static> {
    Records {
        calendar: "start,2025-01-06\nweeks,6\nworkdays,1111100\nholiday,2025-01-20\n",
        items: "",
        centres: "",
        stock: "",
        receipts: "",
        bills: "",
        routings: "",
        master: "",
        script: "",
    }
}

/// Bicycles, planned lot for lot: BIKE, FRAME, WHEEL.
pub fn bicycles() -> Records<'static> {
    Records {
        items: "BIKE,master,1,0,lfl,0,0\nFRAME,part,1,0,lfl,0,0\nWHEEL,part,1,0,lfl,0,0\n",
        stock: "BIKE,10\n",
        bills: "BIKE,FRAME,1\nBIKE,WHEEL,2\n",
        master: "\
BIKE,firm,2025-01-20,20\n\
BIKE,firm,2025-02-03,20\n\
BIKE,forecast,2025-01-13,8\n\
BIKE,forecast,2025-01-27,6\n",
        ..no_records()
    }
}

/// Bicycles whose parts are planned in lots, with scrap, safety stock and an open receipt.
pub fn bicycles_in_lots() -> Records<'static> {
    Records {
        items: "BIKE,master,1,0,lfl,0,0\nFRAME,part,1,100,fixed,20,5\nWHEEL,part,2,0,period,2,0\n",
        stock: "BIKE,10\nFRAME,12\nWHEEL,30\n",
        receipts: "FRAME,R1,2025-01-22,15\n",
        ..bicycles()
    }
}

/// The same, and its frames are welded at a work centre.
pub fn bicycles_welded() -> Records<'static> {
    Records {
        centres: "WELD,20\n",
        routings: "FRAME,10,WELD,30,2500,0\n",
        ..bicycles_in_lots()
    }
}

/// The same by the rules of version 3: lead times are in shop days; wheels come by the dozen, 50 or more
/// at a time, and 7 of them are for service.
pub fn bicycles_with_service() -> Records<'static> {
    Records {
        calendar: "version,3\nstart,2025-01-06\nweeks,6\nworkdays,1111100\nholiday,2025-01-20\n",
        items: "\
BIKE,master,3,0,lfl,0,0,0,1\n\
FRAME,part,6,100,fixed,20,5,0,1\n\
WHEEL,part,10,0,period,2,0,50,12\n",
        master: "\
BIKE,firm,2025-01-20,20\n\
BIKE,firm,2025-02-03,20\n\
BIKE,forecast,2025-01-13,8\n\
BIKE,forecast,2025-01-27,6\n\
WHEEL,service,2025-01-22,7\n",
        ..bicycles_welded()
    }
}

/// Six calls of two desks about bicycles: three bookings are made, by entries 1, 2 and 5.
pub fn morning() -> &'static [(u64, Asked)] {
    &[
        (1, Asked::Book(3, 12)),
        (1, Asked::Book(5, 25)),
        (2, Asked::Ask(1)),
        (2, Asked::Book(2, 15)),
        (2, Asked::Book(1, 10)),
        (1, Asked::Ask(3)),
    ]
}

/// SCREW is needed at three levels, and comes before its parents in the table.
pub fn screws() -> Records<'static> {
    Records {
        items: "\
BIKE,master,0,0,lfl,0,0\n\
SCREW,part,0,0,lfl,0,0\n\
TUBE,part,0,0,lfl,0,0\n\
FRAME,part,0,0,lfl,0,0\n",
        bills: "BIKE,SCREW,1\nBIKE,FRAME,1\nFRAME,TUBE,1\nTUBE,SCREW,1\n",
        master: "BIKE,firm,2025-01-13,3\n",
        ..no_records()
    }
}

/// A product with a fifth of scrap, its part, a spare part without requirements, and an item without
/// anything: two firm rows in one week, a late one, safety stock and open receipts.
pub fn products() -> Records<'static> {
    Records {
        calendar: "start,2025-01-06\nweeks,4\nworkdays,1111100\n",
        items: "\
TOP,master,1,200,lfl,0,0\n\
PART,part,1,0,lfl,0,3\n\
SPARE,part,0,0,lfl,0,5\n\
NONE,part,0,0,lfl,0,0\n",
        stock: "TOP,5\nPART,10\nSPARE,5\n",
        receipts: "\
PART,A,2025-01-13,4\n\
PART,B,2025-01-13,0\n\
PART,C,2025-01-13,6\n\
SPARE,D,2025-01-27,1\n",
        bills: "TOP,PART,2\n",
        master: "\
TOP,firm,2025-01-06,8\n\
TOP,firm,2025-01-20,4\n\
TOP,firm,2025-01-20,8\n\
TOP,forecast,2025-01-06,5\n\
TOP,forecast,2025-01-20,8\n\
TOP,forecast,2025-01-27,21\n",
        ..no_records()
    }
}

/// Three bookings of the product by one desk, two of them for the same week.
pub fn product_bookings() -> &'static [(u64, Asked)] {
    &[
        (1, Asked::Book(3, 10)),
        (1, Asked::Book(1, 3)),
        (1, Asked::Book(3, 2)),
    ]
}

/// A chain of parts below TOP, each with 1,000,000 of the next: with 1,000 firm pieces the last is
/// over.
pub fn chain() -> Records<'static> {
    Records {
        items: "\
TOP,master,0,0,lfl,0,0\n\
A,part,0,0,lfl,0,0\n\
B,part,0,0,lfl,0,0\n\
C,part,0,0,lfl,0,0\n",
        bills: "TOP,A,1000000\nA,B,1000000\nB,C,1000000\n",
        master: "TOP,firm,2025-01-06,1000\n",
        ..no_records()
    }
}

/// A part with 1,000,000 of each of two others, which are both over.
pub fn fork() -> Records<'static> {
    Records {
        items: "\
TOP,master,0,0,lfl,0,0\n\
M,part,0,0,lfl,0,0\n\
X,part,0,0,lfl,0,0\n\
Y,part,0,0,lfl,0,0\n",
        bills: "TOP,M,1000000\nM,Y,1000000\nM,X,1000000\n",
        master: "TOP,firm,2025-01-06,1001\n",
        ..no_records()
    }
}

/// A shop in which 1,000 pieces of TOP need the greatest quantity of B.
pub fn tower() -> Records<'static> {
    Records {
        items: "TOP,master,0,0,lfl,0,0\nA,part,0,0,lfl,0,0\nB,part,0,0,lfl,0,0\n",
        bills: "TOP,A,1000000\nA,B,1000000\n",
        master: "TOP,firm,2025-01-06,1000\nTOP,forecast,2025-01-13,1000\n",
        ..no_records()
    }
}
