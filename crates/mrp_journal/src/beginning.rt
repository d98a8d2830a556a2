//! The beginning of a journal.

ghost use Rattle.std.specs.Prelude.{◌≡◌, IfSome, OnOk, option_map};
ghost use Rattle.mrp_journal.specs.Held.{Becomes, TellsFailure, settled};
ghost use Rattle.mrp_journal.specs.Journal.{BeginsSafely, CutsSafely, IsFound, begun};
ghost use Rattle.mrp_journal.specs.Lines.{whole_lines};

use crate::keeping::keep;
use crate::lines::whole_lines;
use crate::store::Store;
use mrp_rows::WriteFault;

// Makes a file's whole lines durable, and cuts off what stands behind them.
fn cut_behind<S: Store>(store: &mut S, bytes: &[u8]) -> Result<(), WriteFault>
    requires { IfSome (S.held store.old) (IsFound bytes.now) }
    ensures cut { OnOk result (S.held store.new ≡ option_map (λ _. settled (whole_lines bytes.now)) (S.held store.old)) }
    ensures safe { Becomes (CutsSafely bytes.now) (S.held store.old) (S.held store.new) }
    ensures told { TellsFailure (S.failures store.old) (S.failures store.new) result }
{
    let whole = whole_lines(bytes).len();
    if whole < bytes.len() {
        store.cut(whole)
    } else {
        store.sync()
    }
}

/// Begins a journal in a file that was found with these bytes: cuts off what stands behind its whole lines, appends
/// `head`, which is its header or nothing, and makes all of it durable.
///
/// Errors: a call of the file failed.
pub fn begin<S: Store>(store: &mut S, bytes: &[u8], head: &[u8]) -> Result<(), WriteFault>
    requires { IfSome (S.held store.old) (IsFound bytes.now) }
    ensures begun { OnOk result (S.held store.new ≡ option_map (λ _. settled (begun bytes.now head.now)) (S.held store.old)) }
    ensures safe { Becomes (BeginsSafely bytes.now head.now) (S.held store.old) (S.held store.new) }
    ensures told { TellsFailure (S.failures store.old) (S.failures store.new) result }
{
    cut_behind(store, bytes)?;
    keep(store, head)
}
