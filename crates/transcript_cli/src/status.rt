//! What a run answers.
ghost use Rattle.std.specs.Prelude.{◌≡◌};
ghost use Rattle.transcript_cli.specs.Exit.{number_of};

/// How a run ended.
#[derive(Clone, Copy, Debug, PartialEq, Eq)]
pub enum Status {
    /// All was read and written, and no line was refused.
    Done,
    /// All was read and written, and a line was refused.
    Refused,
    /// The words of the command line aren't of the form that the program takes. Nothing was read or written.
    Usage,
    /// The source gave more than 67,108,864 bytes.
    TooMuch,
    /// A read failed.
    ReadFault,
    /// A write failed, or took no byte of some.
    WriteFault,
    /// Memory ran out.
    NoMemory,
}

impl Status {
    /// The exit status of the program, 0 to 6.
    pub fn number(self) -> u8
        ensures { result ≡ number_of self }
    {
        match self {
            Status::Done => 0,
            Status::Refused => 1,
            Status::Usage => 2,
            Status::TooMuch => 3,
            Status::ReadFault => 4,
            Status::WriteFault => 5,
            Status::NoMemory => 6,
        }
    }
}
