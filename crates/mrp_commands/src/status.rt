//! Exit statuses.

/// How the program ended.
#[derive(Clone, Copy, Debug, PartialEq, Eq)]
pub enum Status {
    /// The command succeeded.
    Done,
    /// The bundle was refused, or its plan gets too large; a text is no day, or not a right one; or a journal's other tables
    /// have changed.
    Refused,
    /// The words were wrong.
    Usage,
    /// Out of memory.
    NoMemory,
    /// The input or the output failed, or another desk is open on the folder.
    Stream,
}

impl Status {
    ghost use Rattle.std.specs.Prelude.{◌≡◌};
    ghost use Rattle.mrp_commands.specs.Status.{code_of};

    /// The number of the exit status.
    pub fn code(self) -> u8
        ensures { result ≡ code_of self }
    {
        self as u8
    }
}
