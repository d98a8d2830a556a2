//! Why a run's file was not named.

use mrp_folder::KeepFault;
use mrp_qty::NoMemory;

/// Why a run's file was not named, or may not have been.
#[derive(Drop)]
pub enum MakeFault<P> {
    /// It could not be put into its folder.
    Keep(KeepFault<P>),
    /// Out of memory for the run's own row, or its file's name.
    NoMemory,
}

impl<P> From<KeepFault<P>> for MakeFault<P> {
    ghost use Rattle.std.specs.Prelude.{◌≡◌};
    ghost use Rattle.mrp_runs.specs.declared.fault.MakeFault.TheVariants as fault;

    ghost from_gives = { λ kept given. given ≡ fault.Keep kept };

    fn from(kept: KeepFault<P>) -> MakeFault<P> {
        MakeFault::Keep(kept)
    }
}

impl<P> From<NoMemory> for MakeFault<P> {
    ghost use Rattle.std.specs.Prelude.{◌≡◌};
    ghost use Rattle.mrp_runs.specs.declared.fault.MakeFault.TheVariants as fault;

    ghost from_gives = { λ _ given. given ≡ fault.NoMemory };

    fn from(_refused: NoMemory) -> MakeFault<P> {
        MakeFault::NoMemory
    }
}
