//! What is available to promise of an item, by a tree over its weeks.

use crate::nodes::{Node, Nodes, available_in, earliest_in};
use crate::supply::{Supply, quantity};
use crate::tree;
use mrp_qty::{NoMemory, Qty};
use std::alloc::Global;
use std::marker::Model;

/// An item's supply and bookings by week, with a tree over the weeks (APICS Dictionary:
/// available-to-promise; profile: overdrafts are carried back).
#[derive(Drop)]
pub struct AtpRow {
    supply: Vec<Qty>,
    booked: Vec<Qty>,
    nodes: Vec<Node>,
}

impl Model for AtpRow {
    ghost use Rattle.mrp_master.specs.AtpRow.{AtpRow};

    ghost Value = { AtpRow };

    ghost use Rattle.mrp_master.specs.Tree.{IsKept, row_of};

    ghost view = { λ r. row_of r.supply.items r.booked.items };

    ghost invariant = { λ r. IsKept r.supply.items r.booked.items r.nodes.items };
}

/// The tree of a row, with a count of node reads.
#[derive(Drop)]
pub struct RowNodes<'a> {
    row: &'a AtpRow,
    reads: u64,
}

impl Nodes for RowNodes<'_> {
    ghost of_row = { λ s. s.row.now };

    ghost count = { λ s. s.reads };

    ghost use Rattle.std.specs.Prelude.{◌≡◌, ◌+◌, ◌-◌, ◌^◌, min};

    ghost is_read = { λ old new. (new.row.now ≡ old.row.now) × (new.reads ≡ min (old.reads + 1) (2 ^ 64 - 1)) };

    fn weeks(&self) -> u16 {
        self.row.weeks()
    }

    fn read(&mut self, node: u8) -> Node {
        self.reads = self.reads.saturating_add(1);
        self.row.node(node)
    }

    fn reads(&self) -> u64 {
        self.reads
    }
}

impl AtpRow {
    ghost use Rattle.std.specs.Prelude.{◌≡◌, ◌≤◌, [], IfOk, length};
    ghost use Rattle.mrp_phase.specs.Weeks.{in_week};
    ghost use Rattle.mrp_master.specs.AtpRow.{IsAtpRow, IsAvailableIn, IsCoveredRow, IsEarliestIn, IsWeekOf, atp_row, bucket, with_booked, with_booking, without_booking};
    ghost use Rattle.mrp_master.specs.Nodes.{IsNode, IsPromiseRow};

    /// An item's row, with nothing booked.
    ///
    /// Errors: `NoMemory` if an allocation fails.
    pub fn of(alloc: Global, supply: &Supply, item: usize) -> Result<AtpRow, NoMemory>
        ensures { IfOk result (λ r. r ≡ atp_row supply.now item []) }
    {
        let supply = supply.openings(alloc, item)?;
        let booked = vec![in alloc; quantity(0); supply.len()]?;
        let nodes = tree::grow(alloc, &supply, &booked)?;
        Ok(AtpRow {
            supply,
            booked,
            nodes,
        })
    }

    /// The weeks of the horizon.
    pub fn weeks(&self) -> u16
        ensures value { result ≡ length self.now.supply }
        ensures kept { IsAtpRow self.now }
    {
        self.booked.len() as u16
    }

    /// The tree of the row, with no node read yet.
    pub fn nodes(&self) -> RowNodes<'_>
        ensures row { ⟦<RowNodes<'static> as Nodes>⟧.of_row result ≡ self.now }
        ensures fresh { ⟦<RowNodes<'static> as Nodes>⟧.count result ≡ 0 }
        ensures kept { IsPromiseRow self.now }
    {
        let _ = &self.nodes;
        RowNodes {
            row: self,
            reads: 0,
        }
    }

    // A node of the tree.
    fn node(&self, node: u8) -> Node
        requires { 1 ≤ node }
        ensures { IsNode self.now node result }
    {
        self.nodes[usize::from(node)]
    }

    // The supply of a week, in pieces: firm quantity, and in week 1 stock on hand.
    fn supplied(&self, week: u16) -> Qty
        requires { IsWeekOf self.now week }
        ensures { result ≡ in_week self.now.supply week }
    {
        self.supply[usize::from(week) - 1]
    }

    /// The booked quantity due in a week, in pieces.
    pub fn booked(&self, week: u16) -> Qty
        requires { IsWeekOf self.now week }
        ensures value { result ≡ in_week self.now.booked week }
        ensures kept { IsAtpRow self.now }
    {
        self.booked[usize::from(week) - 1]
    }

    /// A week's bucket: what is left of its supply, in pieces; 0 in a week without supply. It is what is
    /// available in the week and not in the one before.
    pub fn bucket(&self, week: u16) -> Qty
        requires { IsWeekOf self.now week }
        ensures { result ≡ bucket self.now week }
    {
        let opens = self.supplied(week).value();
        if opens == 0 {
            return quantity(opens);
        }
        let mut nodes = self.nodes();
        let up_to = available_in(&mut nodes, week).value();
        if week == 1 {
            return quantity(up_to);
        }
        quantity(up_to - available_in(&mut nodes, week - 1).value())
    }

    /// What is available to promise in a week, in pieces.
    pub fn available(&self, week: u16) -> Qty
        requires { IsWeekOf self.now week }
        ensures { IsAvailableIn self.now week result }
    {
        available_in(&mut self.nodes(), week)
    }

    /// The first week in which a quantity is available to promise.
    pub fn earliest(&self, quantity: Qty) -> Option<u16>
        ensures { IsEarliestIn self.now quantity result }
    {
        earliest_in(&mut self.nodes(), quantity)
    }

    /// Books a quantity, due in a week. It must be available there.
    pub fn take(&mut self, week: u16, quantity: Qty)
        requires week { IsWeekOf self.old week }
        requires available { IsCoveredRow (with_booking self.old week quantity) }
        ensures { self.new ≡ with_booking self.old week quantity }
    {
        let before = self.booked(week).value();
        self.book(week, before + quantity.value());
    }

    /// Releases a quantity booked in a week. It must be booked there.
    pub fn give(&mut self, week: u16, quantity: Qty)
        requires week { IsWeekOf self.old week }
        requires booked { quantity ≤ in_week self.old.booked week }
        ensures { self.new ≡ without_booking self.old week quantity }
    {
        let before = self.booked(week).value();
        self.book(week, before - quantity.value());
    }

    // Sets the pieces booked in a week.
    fn book(&mut self, week: u16, pieces: u64)
        requires week { IsWeekOf self.old week }
        requires available { IsCoveredRow (with_booked self.old week pieces) }
        ensures { self.new ≡ with_booked self.old week pieces }
    {
        let booked = &mut self.booked[usize::from(week) - 1];
        *booked = quantity(pieces);
        tree::renew(&self.supply, &self.booked, &mut self.nodes, week);
    }
}
