//! What no worked day shows: calls of the libraries, threads, and readers and writers that fail. Tests pass large values to `drop`, which is proved once rather than at the end
//! of each scope.

ghost use Rattle.std.specs.Prelude.{◌≡◌, Ok};

use std::fmt::Debug;
use std::io::Eprint;
use std::process::{Abort, Termination};
use std::test::Fail;

mod commands;
mod cores;
mod explosions;
mod hints;
mod live_days;
mod loads;
mod net_changes;
mod notes;
mod pegging;
mod reports;
mod streams;
mod texts;
mod traces;

// Fails unless the two are equal. One proof of the comparison serves all calls.
fn same<T: PartialEq + Debug + Drop>(rt: &impl Abort, got: T, want: T) {
    assert_eq!(rt; got, want);
}

// What was made. Fails with the reason if nothing was: with `?` the test would have to prove that
// everything it owns is dropped.
fn made<R: Abort + Eprint, T>(rt: &R, made: Result<T, Fail>) -> T
    ensures { made ≡ Ok result }
{
    match made {
        Ok(value) => value,
        Err(fail) => {
            let _status = Err::<(), Fail>(fail).report(rt);
            rt.panic("nothing was made")
        }
    }
}
