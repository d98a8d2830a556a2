//! The parts of a page: the markup that its rows are drawn with, block by block.

pub(crate) mod centres;
pub(crate) mod glance;
pub(crate) mod head;
pub(crate) mod history;
pub(crate) mod items;
pub(crate) mod lists;
pub(crate) mod records;
pub(crate) mod refused;
pub(crate) mod risk;
pub(crate) mod said;
pub(crate) mod todo;
pub(crate) mod work;
