//! How a command ends.
ghost use Rattle.std.specs.Prelude.{◌≡◌};
ghost use Rattle.dds_answers.specs.Exit.{exit_status};

/// How a command ended.
#[derive(Clone, Copy, Debug, PartialEq, Eq)]
pub enum Exit {
    /// The answer is yes, or help was asked for and written: status 0.
    Yes,
    /// The answer is no: status 1.
    No,
    /// A file has a fault, or too many bytes: status 2.
    BadFile,
    /// A file did not open, a read failed, 1,001 reads of a file were interrupted, or the output was not written whole:
    /// status 3.
    Device,
    /// A call reported `NoMemory`: status 3.
    NoMemory,
    /// A run of the deployment came to no end of its own: status 3.
    Run,
    /// The words are no request: status 4.
    Usage,
}

impl Exit {
    /// The exit status of the program, 0 to 4.
    pub fn status(self) -> u8
        ensures { result ≡ exit_status self }
    {
        match self {
            Exit::Yes => 0,
            Exit::No => 1,
            Exit::BadFile => 2,
            Exit::Device | Exit::NoMemory | Exit::Run => 3,
            Exit::Usage => 4,
        }
    }
}
