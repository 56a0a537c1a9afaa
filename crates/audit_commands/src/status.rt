//! The statuses of a call.

ghost use Rattle.std.specs.Prelude.{◌≡◌};
ghost use Rattle.audit_commands.specs.Status.{number};

/// How a call of the program ended.
#[derive(Clone, Copy, Debug, PartialEq, Eq)]
pub enum Status {
    /// What the words ask for was done: its text was written, each verdict of the certificate is shown, or the two files
    /// are a recorded run.
    Done,
    /// Some verdict of the certificate isn't shown, or the two files are no recorded run.
    NotShown,
    /// The words are others.
    WordsRefused,
    /// The file is no history.
    HistoryRefused,
    /// The file is no certificate of the history.
    CertRefused,
    /// There is no such file.
    Missing,
    /// A read failed.
    ReadFailed,
    /// A write failed.
    WriteFailed,
    /// The file is longer than the limit.
    TooLong,
    /// Memory was wanting.
    OutOfMemory,
    /// A line of the two files of a run is not one of its form.
    TraceRefused,
}

impl Status {
    /// The number that the process ends with.
    pub fn number(self) -> u8
        ensures { result ≡ number self }
    {
        match self {
            Status::Done => 0,
            Status::NotShown => 1,
            Status::WordsRefused => 2,
            Status::HistoryRefused => 3,
            Status::CertRefused => 4,
            Status::Missing => 5,
            Status::ReadFailed => 6,
            Status::WriteFailed => 7,
            Status::TooLong => 8,
            Status::OutOfMemory => 10,
            Status::TraceRefused => 11,
        }
    }
}
