//! What single reads give.

ghost use Rattle.std.specs.Prelude.{◌≡◌, ◌≢◌, ◌≤◌, ◌<◌, ◌⊎◌, ◌++◌, ℕ, [], List, false, true, IfOk, IfSome, OnErr, OnOk, length, take};
ghost use Rattle.std.specs.Io.KnownBytes.{Consumes, IsAtEnd, Keeps};
ghost use Rattle.mrp_rows.specs.Told.{HasRisenBy, calls_of, counted, failures_of, greatest_count, inner_of, interrupted_of};
ghost use Rattle.mrp_intake.specs.Intake.{IsEnded, IsInLine, IsShort, retries_of};
ghost use Rattle.mrp_intake.specs.Lines.{told_lines};

use crate::intake::PIECE;
use crate::lines::LONGEST_LINE;
use memchr::memrchr;
use mrp_rows::{ReadFault, Told};
use std::alloc::AllocError;
use std::io::Read;

// One call of a reader, which asks for a piece: how many bytes it gave, or `None` if it was interrupted.
pub(crate) fn read_once<R: Read>(
    reader: &mut Told<R>,
    piece: &mut [u8],
) -> Result<Option<usize>, ReadFault>
    requires { length piece.old ≡ PIECE }
    ensures calls { calls_of reader.new ≡ counted 1 (calls_of reader.old) }
    ensures failures { OnOk result (failures_of reader.new ≡ failures_of reader.old) }
    ensures given { IfOk result (λ got. IfSome got (λ count. (count ≤ length piece.new)
        × Consumes (R.remaining (inner_of reader.old)) (R.remaining (inner_of reader.new)) (take count piece.new))) }
    ensures retried { IfOk result (λ got. HasRisenBy (retries_of got) (interrupted_of reader.old) (interrupted_of reader.new)) }
    ensures end { result ≡ Ok (Some 0) → IsAtEnd (R.remaining (inner_of reader.new)) }
    ensures nothing { result ≡ Ok None → Keeps (R.remaining (inner_of reader.old)) (R.remaining (inner_of reader.new)) }
    ensures refused { OnErr result (HasRisenBy 1 (failures_of reader.old) (failures_of reader.new)
        ⊎ (greatest_count ≤ interrupted_of reader.new)) }
    ensures fault { result ≢ Err ReadFault.NoMemory }
{
    let before = reader.interrupted();
    match reader.read(piece) {
        Ok(count) => Ok(Some(count)),
        Err(_) => {
            if reader.interrupted() == before {
                Err(ReadFault::Read)
            } else {
                Ok(None)
            }
        }
    }
}

// Continues a line that has begun, as far as that shows whether it is too long.
fn go_on(begun: &mut Vec<u8>, more: &[u8]) -> Result<(), AllocError>
    requires begun { IsInLine begun.old.items }
    requires more { IsInLine more.now }
    ensures same { OnOk result ((after : List ℕ) → told_lines ((begun.old.items ++ more.now) ++ after) ≡ told_lines (begun.new.items ++ after)) }
    ensures within { IsInLine begun.new.items }
    ensures short { IsShort begun.old.items → IsShort begun.new.items }
{
    begun.extend_from_slice(more)?;
    begun.truncate(LONGEST_LINE + 1);
    Ok(())
}

// Puts the lines that a piece of the input completes into an empty batch. Whether there are any.
pub(crate) fn take_piece(
    batch: &mut Vec<u8>,
    begun: &mut Vec<u8>,
    given: &[u8],
) -> Result<bool, AllocError>
    requires batch { batch.old.items ≡ [] }
    requires begun { IsInLine begun.old.items }
    ensures brings { OnOk result ((after : List ℕ) → told_lines (begun.old.items ++ given.now ++ after)
        ≡ told_lines batch.new.items ++ told_lines (begun.new.items ++ after)) }
    ensures within { IsInLine begun.new.items }
    ensures short { IsShort begun.old.items → IsShort begun.new.items }
    ensures some { result ≡ Ok true → IsEnded batch.new.items }
    ensures none { result ≡ Ok false → batch.new.items ≡ [] }
    ensures waits { result ≡ Ok false → IsInLine given.now }
{
    let Some(at) = memrchr(b'\n', given) else {
        go_on(begun, given)?;
        return Ok(false);
    };
    let (lines, more) = given.split_at(at + 1);
    batch.append(begun)?;
    batch.extend_from_slice(lines)?;
    go_on(begun, more)?;
    Ok(true)
}
