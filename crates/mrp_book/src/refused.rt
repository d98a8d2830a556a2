//! Why a call is refused.

use mrp_qty::NoMemory;
use thiserror::Error;

/// Why a call was refused. No entry was made, and nothing has changed.
#[derive(Clone, Copy, Debug, PartialEq, Eq, Error)]
pub enum Refused {
    /// The book has 1,000,000 entries.
    #[error("the book is full")]
    Full,
    /// An allocation failed.
    #[error("no memory")]
    NoMemory,
}

impl From<NoMemory> for Refused {
    ghost use Rattle.std.specs.Prelude.{◌≡◌};
    ghost use Rattle.mrp_book.specs.declared.refused.Refused.TheVariants.{NoMemory};

    ghost from_gives = { λ _ e. e ≡ NoMemory };

    fn from(_refused: NoMemory) -> Refused {
        Refused::NoMemory
    }
}
