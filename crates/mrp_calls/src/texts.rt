//! The texts of answers, and the room for them.

ghost use Rattle.std.specs.Prelude.{◌≡◌, ◌+◌, ◌<◌, ◌≤◌, ◌++◌, IfOk, OnErr, OnOk, length, string_bytes, vec_capacity, vec_len};
ghost use Rattle.mrp_calls.specs.Answers.{refusal_text};

use mrp_qty::NoMemory;
use mrp_rows::{Fault, fault_text};
use std::alloc::Global;

/// A folder whose bundle has fewer bytes of room takes no record: none is longer.
pub const LEAST_ROOM: usize = 8_192;

/// The answer where no more records are taken.
pub(crate) const FULL: &[u8] = b"full\n";

/// The answer where memory was refused.
pub(crate) const NO_MEMORY: &[u8] = b"no memory\n";

/// The bytes of the longer of these.
pub(crate) const LONGEST_SHORT: usize = 10;

// The answer to a line that is refused.
fn refusal(alloc: Global, fault: &Fault) -> Result<String, NoMemory>
    ensures { IfOk result (λ line. string_bytes line ≡ refusal_text fault.now) }
{
    let text = fault_text(alloc, fault)?;
    Ok(format!(in alloc; "refused: {text}\n")?)
}

/// Makes room for so many bytes, and for those that are left to come.
pub(crate) fn make_room(text: &mut Vec<u8>, most: usize, left: usize) -> Result<(), NoMemory>
    ensures same { text.new.items ≡ text.old.items }
    ensures len { vec_len text.new ≡ vec_len text.old }
    ensures kept { vec_capacity text.old ≤ vec_capacity text.new }
    ensures room { OnOk result (vec_len text.new + (most + left) ≤ vec_capacity text.new) }
    ensures full { OnErr result (vec_capacity text.old < vec_len text.old + (most + left)) }
{
    let Some(room) = most.checked_add(left) else {
        return Err(NoMemory);
    };
    text.try_reserve(room)?;
    Ok(())
}

/// Adds a text for which there is room.
pub(crate) fn put_text(text: &mut Vec<u8>, more: &[u8])
    requires { vec_len text.old + length more.now ≤ vec_capacity text.old }
    ensures added { text.new.items ≡ text.old.items ++ more.now }
    ensures len { vec_len text.new ≡ vec_len text.old + length more.now }
    ensures kept { vec_capacity text.old ≤ vec_capacity text.new }
{
    match text.extend_from_slice(more) {
        Ok(()) => {}
        Err(_) => unreachable!(),
    }
}

/// Adds the answer to a line that is refused, and leaves room for what is left to come.
pub(crate) fn refuse(
    alloc: Global,
    fault: &Fault,
    left: usize,
    text: &mut Vec<u8>,
) -> Result<(), NoMemory>
    ensures added { OnOk result (text.new.items ≡ text.old.items ++ refusal_text fault.now) }
    ensures left { OnOk result (vec_len text.new + left ≤ vec_capacity text.new) }
    ensures same { OnErr result (text.new.items ≡ text.old.items) }
    ensures len { OnErr result (vec_len text.new ≡ vec_len text.old) }
    ensures kept { vec_capacity text.old ≤ vec_capacity text.new }
{
    let line = refusal(alloc, fault)?;
    make_room(text, line.len(), left)?;
    put_text(text, line.as_bytes());
    Ok(())
}
