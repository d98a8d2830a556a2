//! Why a call on a board is refused.

use mrp_qty::NoMemory;
use thiserror::Error;

/// Why a call was refused. No entry was made, and nothing has changed.
#[derive(Clone, Copy, Debug, PartialEq, Eq, Error)]
pub enum BoardRefused {
    /// Items are left, none of them is ready, and no worker gave up: come again.
    #[error("no item is ready yet")]
    NotYet,
    /// An allocation failed.
    #[error("no memory")]
    NoMemory,
}

impl From<NoMemory> for BoardRefused {
    ghost use Rattle.std.specs.Prelude.{◌≡◌};
    ghost use Rattle.mrp_board.specs.declared.refused.BoardRefused.TheVariants.{NoMemory};

    ghost from_gives = { λ _ e. e ≡ NoMemory };

    fn from(_refused: NoMemory) -> BoardRefused {
        BoardRefused::NoMemory
    }
}
