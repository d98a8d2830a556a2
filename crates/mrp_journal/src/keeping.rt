//! Bytes that are made durable behind a journal.

ghost use Rattle.std.specs.Prelude.{◌≡◌, [], IfSome, OnErr, OnOk, option_map};
ghost use Rattle.mrp_journal.specs.Held.{AppendsFront, Becomes, IsSettled, TellsFailure};
ghost use Rattle.mrp_journal.specs.Journal.{KeepsSafely, with_more};

use crate::store::Store;
use mrp_rows::WriteFault;

// Appends bytes to a journal, if there are any, and makes them durable.
pub(crate) fn keep<S: Store>(store: &mut S, bytes: &[u8]) -> Result<(), WriteFault>
    requires { IfSome (S.held store.old) IsSettled }
    ensures kept { OnOk result (S.held store.new ≡ option_map (with_more bytes.now) (S.held store.old)) }
    ensures safe { Becomes (KeepsSafely bytes.now) (S.held store.old) (S.held store.new) }
    ensures told { TellsFailure (S.failures store.old) (S.failures store.new) result }
    ensures idle { bytes.now ≡ [] → store.new ≡ store.old }

    // Nothing is tried again: what a failed call has left stays.
    ensures left { OnErr result (AppendsFront bytes.now (S.held store.old) (S.held store.new)) }
{
    if bytes.is_empty() {
        return Ok(());
    }
    store.append(bytes)?;
    store.sync()
}
