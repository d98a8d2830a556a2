//! A file, from its first byte to its name.

ghost use Rattle.std.specs.Prelude.{◌≡◌, ℕ, List, IfErr, IfOk, OnErr, OnOk};
ghost use Rattle.mrp_rows.specs.Told.{inner_of};
ghost use Rattle.mrp_folder.specs.Kept.{Adds, Fails, Holds, MayAdd};
ghost use Rattle.mrp_folder.specs.Named.{TellsFailure};

use crate::fault::KeepFault;
use crate::folder::Folder;
use mrp_rows::{Told, Tries, WriteFault, write_text};

/// Begins a file with a text. More can be written behind it.
///
/// Errors: it could not be begun, or its first write failed.
pub fn begin_file<D: Folder>(
    folder: &mut D,
    head: &[u8],
) -> Result<Told<D::Part>, KeepFault<D::Part>>
    ensures holds { IfOk result (λ part. Holds (D.named folder.old) (D.Part.contents (inner_of part)) head.now) }
    ensures same { D.named folder.new ≡ D.named folder.old }
    ensures sound { OnOk result (D.failures folder.new ≡ D.failures folder.old) }
    ensures failed { IfErr result (Fails (D.failures folder.old) (D.failures folder.new)) }
{
    let mut part = Told::new(folder.begin()?);
    match write_text(&mut part, head, &mut Tries::new()) {
        Ok(()) => Ok(part),
        Err(WriteFault) => Err(KeepFault::Part(part)),
    }
}

/// Makes a file that was begun durable, and gives it a name.
///
/// Errors: a call of the folder failed. The file has its name whole, or not at all.
pub fn finish_file<D: Folder>(
    folder: &mut D,
    part: Told<D::Part>,
    name: &str,
) -> Result<(), WriteFault>
    ensures added { OnOk result ((text : List ℕ) → Holds (D.named folder.old) (D.Part.contents (inner_of part)) text
        → Adds name.now text (D.named folder.old) (D.named folder.new)) }
    ensures either { OnErr result ((text : List ℕ) → Holds (D.named folder.old) (D.Part.contents (inner_of part)) text
        → MayAdd name.now text (D.named folder.old) (D.named folder.new)) }
    ensures told { TellsFailure (D.failures folder.old) (D.failures folder.new) result }
{
    let mut part = part.into_inner();
    folder.sync(&mut part)?;
    folder.name(part, name)
}

/// Puts a file with a text into a folder.
///
/// Errors: a call of the folder or a write of the file failed. The file has its name whole, or not at all.
pub fn keep_text<D: Folder>(
    folder: &mut D,
    text: &[u8],
    name: &str,
) -> Result<(), KeepFault<D::Part>>
    ensures added { OnOk result (Adds name.now text.now (D.named folder.old) (D.named folder.new)) }
    ensures sound { OnOk result (D.failures folder.new ≡ D.failures folder.old) }
    ensures either { OnErr result (MayAdd name.now text.now (D.named folder.old) (D.named folder.new)) }
    ensures failed { IfErr result (Fails (D.failures folder.old) (D.failures folder.new)) }
{
    let part = begin_file(folder, text)?;
    Ok(finish_file(folder, part, name)?)
}
