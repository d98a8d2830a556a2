//! Orders are marked with the late orders that they lead to.

// The latest of the late orders that an order leads to is its mark. The late orders spread their marks,
// the latest first, so a mark is never changed.
#[derive(Drop)]
struct Marking {
    marks: Vec<Option<usize>>,
    // The marked orders, in the order in which they were marked.
    queue: Vec<usize>,
    // How many of those have passed their mark on to the orders that need their pieces.
    passed: usize,
}

mod steps;

pub(crate) use steps::marks_of;
