//! Rows that are put on a page whole.

ghost use Rattle.std.specs.Prelude.{ℕ, List, ◌+◌, ◌≤◌, length};
ghost use Rattle.mrp_report.specs.page.Put.{IsPut};

// The most bytes that a row takes.
pub(crate) const ROOM: usize = 512;

// A row that is put on a page in one piece.
pub(crate) trait Line {
    ghost csv: { Self → List ℕ };

    // Puts the row, and returns where it ends.
    fn put(&self, text: &mut [u8], at: usize) -> usize
        requires { at + ROOM ≤ length text.old }
        ensures { IsPut text.old text.new at (csv self.now) result };
}
