//! The statuses of a bench.

ghost use Rattle.std.specs.Prelude.{◌≡◌};
ghost use Rattle.bench_commands.specs.Status.{number};

/// How a bench ended.
#[derive(Clone, Copy, Debug, PartialEq, Eq)]
pub enum BenchStatus {
    /// The run was made, and both files and the report were written.
    Done,
    /// A write failed.
    WriteFailed,
    /// The crew refused a replica.
    NotStarted,
    /// Memory was wanting.
    OutOfMemory,
}

impl BenchStatus {
    /// The number that the process ends with.
    pub fn number(self) -> u8
        ensures { result ≡ number self }
    {
        match self {
            BenchStatus::Done => 0,
            BenchStatus::WriteFailed => 7,
            BenchStatus::NotStarted => 9,
            BenchStatus::OutOfMemory => 10,
        }
    }
}
