ghost use Rattle.std.specs.Prelude.{◌≡◌};
ghost use Rattle.line_player.specs.Answers.{code_of};

/// The answer of the program.
#[derive(Clone, Copy, Debug, PartialEq, Eq)]
pub enum Status {
    /// The input was read to its end or to `end`, and all is written.
    Done,
    /// The words are no command.
    Usage,
    /// A line was refused.
    Refused,
    /// The source failed.
    ReadFault,
    /// A sink failed.
    WriteFault,
    /// Memory ran out.
    NoMemory,
}

impl Status {
    /// The exit code: 0, 2, 3, 4, 5 or 7.
    pub fn code(&self) -> u8
        ensures { result ≡ code_of self.now }
    {
        match *self {
            Status::Done => 0,
            Status::Usage => 2,
            Status::Refused => 3,
            Status::ReadFault => 4,
            Status::WriteFault => 5,
            Status::NoMemory => 7,
        }
    }
}
