//! Why tables are not a shop.

use mrp_qty::NoMemory;
use thiserror::Error;

/// Why tables are not a shop.
#[derive(Debug, Drop, Error)]
pub enum BillFault {
    /// An item needs itself. The path is a chain of items, by their places in the table, each the
    /// parent of the next, that begins and ends at the first item in table order that needs itself.
    #[error("loop")]
    Loop { path: Vec<usize> },
    /// An allocation failed.
    #[error("no memory")]
    NoMemory,
}

impl From<NoMemory> for BillFault {
    ghost use Rattle.std.specs.Prelude.{◌≡◌};
    ghost use Rattle.mrp_bill.specs.declared.fault.BillFault.{BillFault};

    ghost from_gives = { λ _ e. e ≡ BillFault.NoMemory };

    fn from(_refused: NoMemory) -> BillFault {
        BillFault::NoMemory
    }
}
