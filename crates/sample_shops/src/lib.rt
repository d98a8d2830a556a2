//! Shops for tests, with their order books, inputs and plans. Tests of many crates need them, and they
//! are proved once here.
#![tactic(auto)]

mod asked;
mod books;
mod records;
mod shops;

pub use asked::{Asked, Said, pieces, said};
pub use books::{book_of, inputs_after, snapshot_of};
pub use records::Records;
pub use shops::{
    bicycles, bicycles_in_lots, bicycles_welded, bicycles_with_service, chain, fork, morning,
    no_records, product_bookings, products, screws, tower,
};
