//! Worked values, calls with ample memory, readers and writers that fail, and threads. Tests abort
//! when a call fails, so that no proof has to follow the drops of an early return, and pass large
//! values to `drop`, which is proved once and not at the end of each scope.

ghost use Rattle.std.specs.Prelude.{◌≡◌, Ok};

use mrp_qty::Qty;
use std::fmt::Debug;
use std::process::Abort;
use std::test::Fail;

mod bills;
mod boards;
mod books;
mod bundles;
mod calendars;
mod cursors;
mod faults;
mod folders;
mod groups;
mod intakes;
mod journals;
mod lots;
mod making;
mod netting;
mod offices;
mod plans;
mod promises;
mod quantities;
mod records;
mod streams;
mod told;
mod turns;
mod weeks;
mod workers;

// The greatest quantity.
const MOST: u64 = 1_000_000_000_000_000;

// Fails unless the two are equal. One proof of the comparison serves all calls.
fn same<T: PartialEq + Debug + Drop>(rt: &impl Abort, got: T, want: T) {
    assert_eq!(rt; got, want);
}

// A number of pieces as a quantity.
fn pieces(rt: &impl Abort, count: u64) -> Qty {
    Qty::new(count).expect(rt, "a quantity")
}

// The value made from a sample shop, which must not be an error.
fn made<T>(rt: &impl Abort, outcome: Result<T, Fail>) -> T
    ensures { outcome ≡ Ok result }
{
    match outcome {
        Ok(made) => made,
        Err(_) => panic!(rt; "a sample shop"),
    }
}
