//! The office of order desks: desks in any number of threads take turns at one order book.
#![tactic(auto)]

mod fault;
mod office;
mod shop_book;

pub use fault::OfficeFault;
pub use office::{Desk, Office};
pub use shop_book::ShopBook;
