// How a command ends.

ghost use Rattle.std.specs.Prelude.{◌≡◌};
ghost use Rattle.pulse_base.specs.Status.{status_number};

/// The status of a command, which is the exit status of the program.
#[derive(Clone, Copy, Debug, PartialEq, Eq)]
pub enum Status {
    /// The output was written whole.
    Ok,
    /// The words are no command.
    Usage,
    /// Memory ran out.
    Memory,
    /// The input was refused.
    Refused,
    /// A read failed.
    ReadFault,
    /// A write failed.
    WriteFault,
    /// A call on the link failed.
    LinkFault,
    /// The turns that were given are used up.
    TurnsUsed,
    /// A child program could not be started or waited for.
    ChildFault,
    /// The audited report is not right.
    AuditNo,
}

impl Status {
    /// The number of the status, which the program exits with.
    pub fn number(self) -> u8
        ensures { result ≡ status_number self }
    {
        match self {
            Status::Ok => 0,
            Status::Usage => 2,
            Status::Memory => 3,
            Status::Refused => 4,
            Status::ReadFault => 5,
            Status::WriteFault => 6,
            Status::LinkFault => 7,
            Status::TurnsUsed => 8,
            Status::ChildFault => 9,
            Status::AuditNo => 10,
        }
    }
}
