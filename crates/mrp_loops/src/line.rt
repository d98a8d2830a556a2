//! Bill lines and loops.

/// A bill line: an item and one of its components, by their places in the table of items.
#[derive(Clone, Copy)]
pub struct Line {
    /// The item.
    pub parent: usize,
    /// Its component.
    pub component: usize,
}

impl Line {
    ghost use Rattle.std.specs.Prelude.{◌≡◌};
    ghost use Rattle.mrp_loops.specs.Links.{turned};

    // The line with its parent and component exchanged.
    pub(crate) fn turned(&self) -> Line
        ensures { result ≡ turned self.now }
    {
        Line {
            parent: self.component,
            component: self.parent,
        }
    }
}

/// A set of items that need one another, or one item that needs itself by a line of its own.
#[derive(Drop)]
pub struct Loop {
    /// The first item of the set in table order.
    pub item: usize,
    /// The lines that lead from this item back to it, by their places.
    pub way: Vec<usize>,
}
