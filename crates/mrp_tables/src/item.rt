//! An item's record.

ghost use Rattle.std.specs.Prelude.{◌≡◌, ◌==◌, ◌≤◌, if◌then◌else◌, ℕ, length, IfOk};
ghost use Rattle.std.specs.Int.{IsInRange};
ghost use Rattle.mrp_tables.specs.Items.{AreItemCells, class_at, greatest_size, least_cell, least_size, lot_at, step_cell};

use crate::cells::quantity;
use crate::limits::{LOT_WORDS, MOST_LEAST, MOST_PERIOD, MOST_PIECES, MOST_SCRAP, MOST_STEP};
use crate::version::Version;
use mrp_qty::Qty;
use mrp_rows::{Fault, Name, Row};

/// Whether an item is planned by the master schedule or by its parents' requirements.
#[derive(Clone, Copy, Debug, PartialEq, Eq)]
pub enum Class {
    /// Planned by the master schedule.
    Master,
    /// Planned by dependent demand: the requirements of its parents' orders.
    Part,
}

impl Class {
    ghost use Rattle.std.specs.Prelude.{◌≡◌};
    ghost use Rattle.mrp_tables.specs.Items.{is_master};

    /// Whether it is a master item's.
    pub fn is_master(self) -> bool
        ensures { result ≡ is_master self }
    {
        match self {
            Class::Master => true,
            Class::Part => false,
        }
    }
}

/// How net requirements are combined into orders (APICS Dictionary: lot sizing).
#[derive(Clone, Copy, Debug, PartialEq, Eq)]
pub enum LotRule {
    /// Each week's net requirement is an order.
    LotForLot,
    /// Orders of whole multiples of a size, in pieces.
    Fixed(u64),
    /// An order covers the net requirements of that many weeks.
    Period(u64),
}

/// An item's master data.
#[derive(Clone, Copy, Debug)]
pub struct Item {
    /// The item's name, unique among items.
    pub name: Name,
    /// Whether the master schedule plans it.
    pub class: Class,
    /// The lead time, in weeks, or in shop days from version 2 on: up to the longest of the bundle's
    /// version.
    pub lead: u64,
    /// The scrap, in pieces per thousand, up to `MOST_SCRAP`.
    pub scrap: u64,
    /// The lot rule.
    pub lot: LotRule,
    /// The safety stock, up to 10^9 pieces; 0 for a master item.
    pub safety: Qty,
    /// The minimum order quantity, up to `MOST_LEAST` pieces; 0 in versions 1 and 2. It has no effect on
    /// fixed lots.
    pub least: u64,
    /// The order multiple, 1 to `MOST_STEP` pieces; 1 in versions 1 and 2. It has no effect on fixed lots.
    pub step: u64,
}

impl Item {
    ghost use Rattle.std.specs.Prelude.{◌≡◌, length, IfOk};
    ghost use Rattle.mrp_tables.specs.Facts.{IsItemUnlessStocked};
    ghost use Rattle.mrp_tables.specs.Items.{AreItemCells, item_cells};

    // The cells of a record in a version, from left to right.
    #[tactic(auto, unfolding(crate::specs::Items::item_cells))]
    pub(crate) fn of(row: &Row, version: Version) -> Result<Item, Fault>
        requires { AreItemCells version (length row.now.cells) }
        ensures cells { result ≡ item_cells version row.now }
        ensures within { IfOk result IsItemUnlessStocked }
    {
        let name = row.name(0)?;
        let class = row.word(1, &["master", "part"])?;
        let lead = row.number(2, 0, version.most_lead())?;
        let scrap = row.number(3, 0, MOST_SCRAP)?;
        let lot = row.word(4, LOT_WORDS)?;
        let size = row.number(5, least_size(lot), greatest_size(lot))?;
        let safety = quantity(row, 6, 0, MOST_PIECES)?;
        let least = least_of(row, version)?;
        let step = step_of(row, version)?;
        Ok(Item {
            name,
            class: class_at(class),
            lead,
            scrap,
            lot: lot_at(lot, size),
            safety,
            least,
            step,
        })
    }
}

// The minimum order quantity, where the version's items have one.
fn least_of(row: &Row, version: Version) -> Result<u64, Fault>
    requires { AreItemCells version (length row.now.cells) }
    ensures cell { result ≡ least_cell version row.now }
    ensures within { IfOk result (λ least. least ≤ MOST_LEAST) }
{
    if version.has_steps() {
        row.number(7, 0, MOST_LEAST)
    } else {
        Ok(0)
    }
}

// The order multiple, where the version's items have one.
fn step_of(row: &Row, version: Version) -> Result<u64, Fault>
    requires { AreItemCells version (length row.now.cells) }
    ensures cell { result ≡ step_cell version row.now }
    ensures within { IfOk result (IsInRange 1 MOST_STEP) }
{
    if version.has_steps() {
        row.number(8, 1, MOST_STEP)
    } else {
        Ok(1)
    }
}

fn class_at(place: usize) -> Class
    ensures { result ≡ class_at place }
{
    if place == 0 {
        Class::Master
    } else {
        Class::Part
    }
}

fn least_size(lot: usize) -> u64
    ensures { result ≡ least_size lot }
{
    if lot == 0 { 0 } else { 1 }
}

fn greatest_size(lot: usize) -> u64
    ensures { result ≡ greatest_size lot }
{
    if lot < 2 { MOST_PIECES } else { MOST_PERIOD }
}

fn lot_at(lot: usize, size: u64) -> LotRule
    requires { IsInRange (least_size lot) (greatest_size lot) size }
    ensures rule { result ≡ lot_at lot size }
    ensures fixed { (pieces : ℕ) → result ≡ LotRule.Fixed pieces → IsInRange 1 MOST_PIECES pieces }
    ensures period { (weeks : ℕ) → result ≡ LotRule.Period weeks → IsInRange 1 MOST_PERIOD weeks }
{
    match lot {
        0 => LotRule::LotForLot,
        1 => LotRule::Fixed(size),
        _ => LotRule::Period(size),
    }
}
