//! A folder that files are put into whole.

ghost use Rattle.std.specs.Prelude.{◌≡◌, ◌⊎◌, [], ℕ, List, Option, Some, IfOk, IfSome, OnErr, OnOk};
ghost use Rattle.std.specs.Io.KnownBytes.{Keeps};
ghost use Rattle.mrp_folder.specs.Named.{Named, TellsFailure, with_name};

use mrp_rows::WriteFault;
use std::io::Write;

/// A folder that files are put into, one after the other: a file is begun without a name of its own, and named once
/// it is written.
pub trait Folder {
    /// A file that was begun.
    type Part: Write + Drop;

    /// Which of a file's bytes are durable.
    ghost durable: { Self.Part → Option (List ℕ) };

    /// The files that were named, in order: of several with one name the last is there. Nothing is known of the folders
    /// of the operating system.
    ghost named: { Self → Option (List Named) };

    /// Those of them that have their names after a crash.
    ghost lasting: { Self → Option (List Named) };

    /// How many of its calls failed. The count saturates at `u64::MAX`.
    ghost failures: { Self → ℕ };

    /// Begins an empty file, in place of any that was begun before and has no name.
    ///
    /// Errors: it could not be begun.
    fn begin(&mut self) -> Result<Self::Part, WriteFault>
        ensures empty { IfOk result (λ part. IfSome (named self.old) (λ _. Self.Part.contents part ≡ Some [])) }
        ensures same { named self.new ≡ named self.old }
        ensures told { TellsFailure (failures self.old) (failures self.new) result };

    /// Makes the bytes of the file that was begun durable.
    ///
    /// Errors: they may be durable or not.
    fn sync(&mut self, part: &mut Self::Part) -> Result<(), WriteFault>
        ensures bytes { Keeps (Self.Part.contents part.old) (Self.Part.contents part.new) }
        ensures synced { OnOk result (durable part.new ≡ Self.Part.contents part.new) }
        ensures same { named self.new ≡ named self.old }
        ensures told { TellsFailure (failures self.old) (failures self.new) result };

    /// Gives the file that was begun a name, in one step, over any older file.
    ///
    /// Errors: it may have the name or not.
    fn name(&mut self, part: Self::Part, name: &str) -> Result<(), WriteFault>
        ensures named { OnOk result (named self.new ≡ with_name name.now (Self.Part.contents part) (durable part) (named self.old)) }
        ensures either { OnErr result ((named self.new ≡ named self.old)
            ⊎ (named self.new ≡ with_name name.now (Self.Part.contents part) (durable part) (named self.old))) }
        ensures told { TellsFailure (failures self.old) (failures self.new) result };

    /// Makes the names durable.
    ///
    /// Errors: they may be durable or not.
    fn settle(&mut self) -> Result<(), WriteFault>
        ensures lasting { OnOk result (lasting self.new ≡ named self.new) }
        ensures same { named self.new ≡ named self.old }
        ensures told { TellsFailure (failures self.old) (failures self.new) result };
}
