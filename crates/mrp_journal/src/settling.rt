//! The records and the answers of a batch.

ghost use Rattle.std.specs.Prelude.{◌≡◌, ◌⊎◌, [], IfSome, OnErr, OnOk, option_map};
ghost use Rattle.std.specs.Io.KnownBytes.{Appends, Keeps};
ghost use Rattle.mrp_rows.specs.Streams.{WritesFront};
ghost use Rattle.mrp_rows.specs.Told.{HasRisenBy, calls_of, failures_of, inner_of, interrupted_of};
ghost use Rattle.mrp_rows.specs.declared.streams.TheConstants.{WRITE_TRIES};
ghost use Rattle.mrp_journal.specs.Held.{AppendsFront, Becomes, IsSettled};
ghost use Rattle.mrp_journal.specs.Journal.{KeepsSafely, WritesThrough, with_more};

use crate::keeping::keep;
use crate::store::Store;
use mrp_rows::{Told, Tries, WRITE_TRIES, WriteFault, write_text};
use std::io::Write;

// Flushes a writer; an interrupted flush is tried again.
fn flush<W: Write>(out: &mut Told<W>) -> Result<(), WriteFault>
    ensures same { Keeps (W.contents (inner_of out.old)) (W.contents (inner_of out.new)) }
    ensures called { OnOk result (HasRisenBy 1 (calls_of out.old) (calls_of out.new)) }
    ensures failures { OnOk result (failures_of out.new ≡ failures_of out.old) }
    ensures refused { OnErr result (HasRisenBy 1 (failures_of out.old) (failures_of out.new)
        ⊎ HasRisenBy WRITE_TRIES (interrupted_of out.old) (interrupted_of out.new)) }
{
    for _ in 0..WRITE_TRIES {
        let before = out.interrupted();
        if out.flush().is_ok() {
            return Ok(());
        }
        if out.interrupted() == before {
            return Err(WriteFault);
        }
    }
    Err(WriteFault)
}

// Writes answers while all of the journal is durable.
fn answer<S: Store, W: Write>(
    _journal: &S,
    answers: &[u8],
    out: &mut Told<W>,
) -> Result<(), WriteFault>
    requires { IfSome (S.held _journal.now) IsSettled }
    ensures told { OnOk result (Appends (W.contents (inner_of out.old)) (W.contents (inner_of out.new)) answers.now) }
    ensures flushed { OnOk result (WritesThrough W.contents out.old out.new answers.now) }
    ensures failures { OnOk result (failures_of out.new ≡ failures_of out.old) }
    ensures front { OnErr result (WritesFront (W.contents (inner_of out.old)) (W.contents (inner_of out.new)) answers.now) }
    ensures refused { OnErr result (HasRisenBy 1 (failures_of out.old) (failures_of out.new)
        ⊎ HasRisenBy WRITE_TRIES (interrupted_of out.old) (interrupted_of out.new)) }
{
    write_text(out, answers, &mut Tries::new())?;
    flush(out)
}

/// Settles a batch: makes its records durable behind the journal, and then writes its answers and flushes them.
///
/// Errors: a call of the journal's file failed, and no answer was written; or the writer failed or was interrupted
/// too often, and the records are durable.
pub fn settle<S: Store, W: Write>(
    journal: &mut S,
    records: &[u8],
    answers: &[u8],
    out: &mut Told<W>,
) -> Result<(), WriteFault>
    requires { IfSome (S.held journal.old) IsSettled }
    ensures kept { OnOk result (S.held journal.new ≡ option_map (with_more records.now) (S.held journal.old)) }
    ensures sound { OnOk result (S.failures journal.new ≡ S.failures journal.old) }
    ensures told { OnOk result (Appends (W.contents (inner_of out.old)) (W.contents (inner_of out.new)) answers.now) }
    ensures flushed { OnOk result (WritesThrough W.contents out.old out.new answers.now) }
    ensures failures { OnOk result (failures_of out.new ≡ failures_of out.old) }
    ensures front { OnErr result (WritesFront (W.contents (inner_of out.old)) (W.contents (inner_of out.new)) answers.now) }

    // Where any answer was written, all records were durable before.
    ensures durable { Keeps (W.contents (inner_of out.old)) (W.contents (inner_of out.new))
        ⊎ (S.held journal.new ≡ option_map (with_more records.now) (S.held journal.old)) }
    ensures safe { Becomes (KeepsSafely records.now) (S.held journal.old) (S.held journal.new) }

    // Without records no call is made, and nothing is tried again: what a failed call has left stays.
    ensures idle { records.now ≡ [] → journal.new ≡ journal.old }
    ensures left { OnErr result (AppendsFront records.now (S.held journal.old) (S.held journal.new)
        ⊎ (S.held journal.new ≡ option_map (with_more records.now) (S.held journal.old))) }
    ensures refused { OnErr result (HasRisenBy 1 (S.failures journal.old) (S.failures journal.new)
        ⊎ HasRisenBy 1 (failures_of out.old) (failures_of out.new)
        ⊎ HasRisenBy WRITE_TRIES (interrupted_of out.old) (interrupted_of out.new)) }
{
    keep(journal, records)?;
    answer(journal, answers, out)
}
