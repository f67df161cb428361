// The commands.

use pulse_base::Bytes;
use shape_build::Shape;

/// A command, with what its words give it.
#[derive(Debug, Drop)]
pub enum Command {
    /// Walks the region of a document.
    Walk,
    /// Runs the schedule of a document.
    Replay,
    /// Lays out the records and iterators of a program.
    Check,
    /// Prints a program.
    Format,
    /// Compiles the iterator of this name.
    Compile(Bytes),
    /// Lists an image.
    List,
    /// Verifies an image.
    Verify,
    /// Writes a document that is made from a number.
    Shape(Shape),
    /// Replays a document that is made from a number, and times it.
    Drill(Shape),
    /// Serves as a memory node, the one of this number, for at most so many turns.
    Node { node: u16, turns: u64 },
    /// Serves as the switch, for at most so many turns.
    Switch { turns: u64 },
    /// Asks as the client of this number, for at most so many turns.
    Ask { client: u16, turns: u64 },
    /// Runs the nodes, the switch and the clients together, for at most so many turns.
    Cluster { turns: u64 },
}

/// Why words gave no command.
#[derive(Debug, Clone, Copy, PartialEq, Eq)]
pub enum WordsFault {
    /// They are no command.
    Usage,
    /// Memory ran out.
    Memory,
}
