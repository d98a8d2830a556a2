//! A tree of counts over the weeks of a row, and available to promise by its nodes alone.

ghost use Rattle.std.specs.Prelude.{◌≡◌, ◌≤◌, ◌+◌, ◌-◌, ◌^◌, ◌+ℤ◌, ℕ, FitsSigned, length, min};
ghost use Rattle.std.specs.Int.{w64};
ghost use Rattle.mrp_master.specs.AtpRow.{AtpRow, IsAvailableIn, IsEarliestIn, IsWeekOf};
ghost use Rattle.mrp_master.specs.Nodes.{IsNode, IsPromiseRow, ReadsAtMost, joined, shifted};

use crate::supply::quantity;
use mrp_qty::Qty;

/// The number of places for weeks in a tree. Places after the last week of a row count 0.
pub const PLACES: u8 = 128;

/// The net change of the weeks below a node: supply less bookings.
#[derive(Clone, Copy, Debug, PartialEq, Eq)]
pub struct Node {
    /// In all of these weeks together, in pieces.
    pub sum: i64,
    /// The least, over these weeks, of the sum from the first of them up to the week, in pieces.
    pub least: i64,
}

impl Node {
    // A node of weeks without change.
    pub(crate) const NONE: Node = Node { sum: 0, least: 0 };

    // The node over the weeks of two nodes, the first before the second.
    pub(crate) fn join(self, later: Node) -> Node
        requires sum { FitsSigned w64 (self.sum +ℤ later.sum) }
        requires least { FitsSigned w64 (self.sum +ℤ later.least) }
        ensures { result ≡ joined self later }
    {
        Node {
            sum: self.sum + later.sum,
            least: self.least.min(self.sum + later.least),
        }
    }

    // The same, with the least over the weeks of the second alone.
    fn before(self, later: Node) -> Node
        requires sum { FitsSigned w64 (self.sum +ℤ later.sum) }
        requires least { FitsSigned w64 (self.sum +ℤ later.least) }
        ensures { result ≡ shifted self later }
    {
        Node {
            sum: self.sum + later.sum,
            least: self.sum + later.least,
        }
    }
}

/// The tree of a row: its root is node 1, the children of node n are 2n and 2n + 1, and the place
/// of week w is node 127 + w. It counts the nodes that are read.
pub trait Nodes {
    // The row that it is the tree of.
    ghost of_row: { Self → AtpRow };

    // The number of node reads.
    ghost count: { Self → ℕ };

    // One read leads from the first to the second.
    ghost is_read: { Self → Self → Type 0 };

    /// The weeks of the horizon.
    fn weeks(&self) -> u16
        ensures { result ≡ length (of_row self.now).supply };

    /// Reads a node, from 1 to 255.
    fn read(&mut self, node: u8) -> Node
        requires { 1 ≤ node }
        ensures value { IsNode (of_row self.old) node result }
        ensures same { of_row self.new ≡ of_row self.old }
        ensures count { count self.new ≡ min (count self.old + 1) (2 ^ 64 - 1) }
        ensures one { is_read self.old self.new };

    /// The number of node reads; it saturates.
    fn reads(&self) -> u64
        ensures { result ≡ count self.now };
}

/// What is available to promise in a week, in pieces, by the nodes over the week and their siblings;
/// at most 16 nodes are read. The tree must be of a covered row.
pub fn available_in<N: Nodes>(nodes: &mut N, week: u16) -> Qty
    requires row { IsPromiseRow (N.of_row nodes.old) }
    requires week { IsWeekOf (N.of_row nodes.old) week }
    ensures value { IsAvailableIn (N.of_row nodes.old) week result }
    ensures same { N.of_row nodes.new ≡ N.of_row nodes.old }
    // By the count, and by the reads themselves once the count has saturated.
    ensures count { N.count nodes.new ≤ N.count nodes.old + 16 }
    ensures few { ReadsAtMost N.is_read 16 nodes.old nodes.new }
{
    let mut node = (PLACES - 1) + week as u8;
    let mut since = nodes.read(node);
    while node > 1 {
        since = if node % 2 == 0 {
            since.join(nodes.read(node + 1))
        } else {
            nodes.read(node - 1).before(since)
        };
        node /= 2;
    }
    quantity(since.least as u64)
}

/// The first week in which a quantity is available to promise: the one after the last week up to which
/// less is uncommitted. At most 16 nodes are read. The tree must be of a covered row.
pub fn earliest_in<N: Nodes>(nodes: &mut N, quantity: Qty) -> Option<u16>
    requires { IsPromiseRow (N.of_row nodes.old) }
    ensures value { IsEarliestIn (N.of_row nodes.old) quantity result }
    ensures same { N.of_row nodes.new ≡ N.of_row nodes.old }
    // By the count, and by the reads themselves once the count has saturated.
    ensures count { N.count nodes.new ≤ N.count nodes.old + 16 }
    ensures few { ReadsAtMost N.is_read 16 nodes.old nodes.new }
{
    let wanted = quantity.value() as i64;
    let root = nodes.read(1);
    if wanted <= root.least {
        return Some(1);
    }
    let mut node = 1;
    let mut end = root.sum;
    while node < PLACES {
        let later = nodes.read(2 * node + 1);
        let middle = end - later.sum;
        if middle + later.least < wanted {
            node = 2 * node + 1;
        } else {
            node *= 2;
            end = middle;
        }
    }
    let last = u16::from(node - (PLACES - 1));
    if last < nodes.weeks() {
        Some(last + 1)
    } else {
        None
    }
}
