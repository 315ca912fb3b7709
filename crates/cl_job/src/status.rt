//! How a command ends.

ghost use Rattle.std.specs.Prelude.{◌≡◌};
ghost use Rattle.cl_job.specs.Texts.{code_of};

/// How a command ends.
#[derive(Clone, Copy, Debug, PartialEq, Eq)]
pub enum Status {
    /// Every rule that the command looks at holds; for a run, it ended with an exit value too.
    Done,
    /// The run ended in a trap.
    Trapped,
    /// A rule fails.
    Refused,
    /// A read failed.
    ReadFault,
    /// A write, or a put on standard output, failed.
    WriteFault,
    /// Memory ran out.
    NoMemory,
    /// The words have no reading.
    Usage,
}

impl Status {
    /// The exit status of the process.
    #[tactic(auto, unfolding(crate::specs::Texts::code_of))]
    pub fn code(&self) -> u8
        ensures { result ≡ code_of self.now }
    {
        match self {
            Status::Done => 0,
            Status::Trapped => 1,
            Status::Refused => 2,
            Status::ReadFault => 3,
            Status::WriteFault => 4,
            Status::NoMemory => 5,
            Status::Usage => 64,
        }
    }
}
