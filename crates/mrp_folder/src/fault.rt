//! Why a file was not named.

use mrp_rows::{Told, WriteFault};

/// Why a file was not named, or may not have been.
#[derive(Drop)]
pub enum KeepFault<P> {
    /// A call of the folder failed.
    Folder,
    /// This file could not be written.
    Part(Told<P>),
}

impl<P> From<WriteFault> for KeepFault<P> {
    ghost use Rattle.std.specs.Prelude.{◌≡◌};
    ghost use Rattle.mrp_folder.specs.declared.fault.KeepFault.TheVariants as fault;

    ghost from_gives = { λ _ given. given ≡ fault.Folder };

    fn from(_refused: WriteFault) -> KeepFault<P> {
        KeepFault::Folder
    }
}
